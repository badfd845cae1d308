// Compares the solver with plain rounds over random nets, and times both: with the words `compare`
// and `time`. Its tests are nets whose least tables were worked out by hand.
#![tactic(auto)]

ghost use Rattle.std.specs.Prelude.{◌≡◌};

mod net;
mod random;
mod rounds;
#[cfg(test)]
mod tests;

use least_table::least;
use net::{Arc, Net};
use random::Random;
use rounds::{Solved, by_rounds};
use station_ports::steps::Steps;
use std::alloc::{AllocError, Global};
use std::io::Write;
use std::marker::Brand;
use std::process::ExitCode;
use std::sync::ledger::{Blank, Ledger};
use std::time::Instant;
use std::{env, io};

/// How many random nets are compared.
const COMPARED: usize = 2500;

const SEED: u64 = 20260101;

/// Numbers of nodes that are timed.
const SIZES: [usize; 3] = [1000, 3000, 10000];

fn main(rt: HostRuntime) -> ExitCode {
    match asked(&rt) {
        Ok(true) => ExitCode::SUCCESS,
        _ => ExitCode::from(1),
    }
}

/// Does what the words ask for, and tells whether no difference was found.
fn asked(rt: &HostRuntime) -> io::Result<bool> {
    let mut same = true;
    for word in env::args(rt)?.skip(1) {
        match word.as_str() {
            "compare" => same = compare(rt)?,
            "time" => time_all(rt)?,
            _ => {},
        }
    }
    Ok(same)
}

/// Solves random nets in both ways, up to the first difference.
fn compare(rt: &HostRuntime) -> io::Result<bool> {
    let mut random = Random::new(SEED);
    for place in 0..COMPARED {
        let nodes = random.below(9);
        let count = random.below(20);
        let arcs = random.arcs(rt.alloc(), nodes, count)?;
        let solved = by_worklist::<Brand>(rt, Blank::new(2), nodes, &arcs)?;
        let wanted = by_rounds(rt.alloc(), nodes, &arcs)?;
        if solved.nodes != wanted.nodes {
            println!(rt;
                "net {place} of seed {SEED}: {:?} in place of {:?}",
                solved.nodes, wanted.nodes
            )?;
            return Ok(false);
        }
    }
    println!(rt; "{COMPARED} nets, no difference")?;
    Ok(true)
}

/// The least table by the solver, and its steps.
pub fn by_worklist<L: Ledger>(
    rt: &HostRuntime,
    blank: Blank,
    nodes: usize,
    arcs: &[Arc],
) -> Result<Solved, AllocError>
    requires name { blank.name ≡ L.name }
    requires parts { blank.parts ≡ L.parts }
    requires two { blank.parts ≡ 2 }
{
    let alloc = rt.alloc();
    let mut steps = Steps::<L>::new(rt, blank);
    let table = least(alloc, &Net { nodes, arcs }, &mut steps).map_err(|_| AllocError)?;
    let mut intervals = Vec::new(alloc);
    for node in 0..nodes {
        intervals.push(table.get(node))?;
    }
    Ok(Solved {
        nodes: intervals,
        steps: steps.solved(),
    })
}

fn time_all(rt: &HostRuntime) -> io::Result<()> {
    for nodes in &SIZES {
        time(rt, *nodes)?;
    }
    Ok(())
}

fn time(rt: &HostRuntime, nodes: usize) -> io::Result<()> {
    let arcs = Random::new(SEED).one_each(rt.alloc(), nodes)?;
    let start = Instant::now(rt)?;
    let solved = by_worklist::<Brand>(rt, Blank::new(2), nodes, &arcs)?;
    let worklist = start.elapsed(rt)?.as_micros();
    let again = Instant::now(rt)?;
    let wanted = by_rounds(rt.alloc(), nodes, &arcs)?;
    let rounds = again.elapsed(rt)?.as_micros();
    println!(rt;
        "{nodes} units: {} steps, {worklist} us; by rounds {} steps, {rounds} us; {} numbers held",
        solved.steps,
        wanted.steps,
        held(&solved)
    )?;
    Ok(())
}

/// How many numbers the nodes hold: no fewer than there were raises.
fn held(solved: &Solved) -> u64 {
    let mut held: u64 = 0;
    for i in &solved.nodes {
        if let Some((low, high)) = i.bounds() {
            let numbers = high.wrapping_sub(low).wrapping_add(1);
            held = held.wrapping_add(u64::try_from(numbers).unwrap_or(0));
        }
    }
    held
}
