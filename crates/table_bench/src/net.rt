// A system of the tests: a net whose arcs move intervals.
ghost use Rattle.std.specs.Prelude.{◌≡◌, ◌⊎◌, ℕ, ◌<◌, ◌≤◌, length};
ghost use Rattle.least_table.specs.System.{at};
ghost use Rattle.table_bench.specs.Net as nets;
ghost use Rattle.table_bench.specs.NetLaw.{net_is_monotone};

use iec_tables::elem::Elem;
use interval_domain::interval::{Interval, join, meet};
use interval_domain::operators::add;
use least_table::{System, Table};
use station_ports::outside::NoMemory;
use station_ports::steps::Steps;
use std::alloc::Global;
use std::sync::ledger::Ledger;

/// Four nodes that are read; one past the last node is none.
pub type Sources = (usize, usize, usize, usize);

/// The nodes that it comes from, whether it starts with 0 besides, the node that it leads to, and
/// by how much it moves.
pub type Arc = (Sources, bool, usize, i128);

/// Nodes that hold numbers from 0 to 7, and arcs between them. An arc is a unit, and a node is an entry.
#[derive(Drop)]
pub struct Net<'a> {
    pub nodes: usize,
    pub arcs: &'a [Arc],
}

impl System for Net<'_> {
    ghost meaning = { λ n. nets.net n.nodes n.arcs.now };

    ghost law = { λ n. net_is_monotone n.nodes n.arcs.now };

    type Scratch = ();

    fn scratch(&self, _alloc: Global) -> Result<(), NoMemory> {
        Ok(())
    }

    fn entries(&self) -> usize {
        self.nodes
    }

    fn units(&self) -> usize {
        self.arcs.len()
    }

    fn reads(&self, unit: usize, entry: usize) -> bool {
        let (from, _, _, _) = self.arcs[unit];
        entry == from.0 || entry == from.1 || entry == from.2 || entry == from.3
    }

    fn given(&self, unit: usize) -> (usize, usize) {
        let (_, _, to, _) = self.arcs[unit];
        if to < self.nodes {
            (to, to + 1)
        } else {
            (0, 0)
        }
    }

    fn raise<L: Ledger>(
        &self,
        _alloc: Global,
        unit: usize,
        table: &Table,
        into: &mut Table,
        _scratch: &mut (),
        steps: &mut Steps<L>,
    ) -> Result<(), NoMemory> {
        steps.solve_step();
        let (from, starts, to, by) = self.arcs[unit];
        if to < self.nodes {
            into.join_at(to, moved(join(start(starts), self.read(from, table)), by));
        }
        Ok(())
    }
}

impl Net<'_> {
    fn read(&self, from: Sources, table: &Table) -> Interval
        requires { length table.now ≡ self.now.nodes }
        ensures { result ≡ nets.read from table.now }
    {
        join(
            join(self.at(from.0, table), self.at(from.1, table)),
            join(self.at(from.2, table), self.at(from.3, table)),
        )
    }

    fn at(&self, node: usize, table: &Table) -> Interval
        requires { length table.now ≡ self.now.nodes }
        ensures { result ≡ at table.now node }
    {
        if node < self.nodes {
            table.get(node)
        } else {
            Interval::empty()
        }
    }
}

/// What an arc starts with.
pub fn start(starts: bool) -> Interval
    ensures { result ≡ nets.start starts }
{
    if starts {
        Interval::single(0)
    } else {
        Interval::empty()
    }
}

/// The interval moved, and cut to the numbers of nodes.
pub fn moved(i: Interval, by: i128) -> Interval
    ensures { result ≡ nets.moved i by }
{
    meet(
        add(Elem::Dint, i, Interval::single(by)).raw,
        Interval::of(0, 7),
    )
}
