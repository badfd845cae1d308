// The solver: a worklist of units.

ghost use Rattle.std.specs.Prelude.{◌≡◌, ℕ, ◌+◌, ◌*◌, ◌<◌, ◌≤◌, IfOk, OnOk, [], ◌∷◌, length, get_or, slice_set};
ghost use Rattle.std.specs.List.{Contains};
ghost use Rattle.interval_domain.specs.Interval.{IsWithin};
ghost use Rattle.least_table.specs.System.{Intervals, at, AreOnGrid, IsJoined, IsFoundBy, IsClosed, IsLeast, weight, readings};
ghost use Rattle.least_table.specs.steps.Worklist as worklist;

use crate::pending::Pending;
use crate::readers::{Readers, all_readers};
use crate::system::System;
use crate::table::{Table, is_beyond};
use station_ports::outside::NoMemory;
use station_ports::steps::Steps;
use std::alloc::{AllocError, Global};
use std::sync::ledger::Ledger;

/// The least table in which each entry holds what every unit gives for it. Evaluates each unit
/// once, and then only units that read an entry which has risen since, each evaluation in one step.
/// Takes two tables, and one number for each unit and for each entry that a unit reads. An error is
/// want of memory.
pub fn least<S: System, L: Ledger>(
    alloc: Global,
    sys: &S,
    steps: &mut Steps<L>,
) -> Result<Table, NoMemory>
    ensures least { IfOk result (λ table. IsLeast (S.meaning sys.now) table) }
    ensures on_grid { IfOk result (λ table. AreOnGrid (S.meaning sys.now).grid table) }
    ensures parsed { steps.new.parsed ≡ steps.old.parsed }
    ensures run { IfOk result (λ table. IsFoundBy (S.meaning sys.now) steps.old.solved steps.new.solved table) }
    ensures each { OnOk result (steps.old.solved + (S.meaning sys.now).units ≤ steps.new.solved) }
    ensures read { (table : Intervals) → IsClosed (S.meaning sys.now) table →
        steps.new.solved ≤ steps.old.solved + ((S.meaning sys.now).units + readings (S.meaning sys.now) table) }
    ensures solved { (table : Intervals) → IsClosed (S.meaning sys.now) table →
        steps.new.solved ≤ steps.old.solved + (S.meaning sys.now).units * (1 + weight (S.meaning sys.now).grid table) }
{
    let readers = all_readers(alloc, sys)?;
    let mut pending = Pending::all(alloc, sys.units())?;
    let mut scratch = sys.scratch(alloc)?;
    let mut table = Table::new(alloc, sys.entries())?;
    let mut next = Table::new(alloc, sys.entries())?;
    'worklist: while let Some(unit) = pending.take() {
        evaluate(
            alloc,
            sys,
            unit,
            &readers,
            &mut table,
            &mut next,
            &mut pending,
            &mut scratch,
            steps,
        )?;
    }
    Ok(table)
}

/// Raises the table by what the unit gives under it, and lets the units wait that read what rose.
/// Before and after it both tables are the same.
fn evaluate<S: System, L: Ledger>(
    alloc: Global,
    sys: &S,
    unit: usize,
    readers: &[Readers],
    table: &mut Table,
    next: &mut Table,
    pending: &mut Pending,
    scratch: &mut S::Scratch,
    steps: &mut Steps<L>,
) -> Result<(), NoMemory>
    requires unit { unit < (S.meaning sys.now).units }
    requires readers { worklist.AreReaders (S.meaning sys.now) readers.now }
    requires units { pending.old.units ≡ (S.meaning sys.now).units }
    requires table { worklist.IsBelow (S.meaning sys.now) table.old }
    requires next { next.old ≡ table.old }
    requires settled { worklist.AreSettled (S.meaning sys.now) (unit ∷ pending.old.queue) table.old table.old }
    ensures units { pending.new.units ≡ pending.old.units }
    ensures steps { steps.new ≡ record steps.old { solved = steps.old.solved + 1 } }
    ensures next { OnOk result (next.new ≡ table.new) }
    ensures joined { OnOk result (IsJoined ((S.meaning sys.now).gives unit table.old) table.old table.new) }
    ensures evaluated { OnOk result (worklist.IsEvaluated (S.meaning sys.now) table.old table.new pending.old.queue pending.new.queue) }
{
    sys.raise(alloc, unit, table, next, scratch, steps)?;
    settle_unit(sys, unit, readers, table, next, pending)?;
    Ok(())
}

/// Raises the table to the next one, into which the unit was joined.
fn settle_unit<S: System>(
    sys: &S,
    unit: usize,
    readers: &[Readers],
    table: &mut Table,
    next: &Table,
    pending: &mut Pending,
) -> Result<(), AllocError>
    requires unit { unit < (S.meaning sys.now).units }
    requires readers { worklist.AreReaders (S.meaning sys.now) readers.now }
    requires units { pending.old.units ≡ (S.meaning sys.now).units }
    requires table { worklist.IsBelow (S.meaning sys.now) table.old }
    requires next { worklist.IsBelow (S.meaning sys.now) next.now }
    requires joined { IsJoined ((S.meaning sys.now).gives unit table.old) table.old next.now }
    requires settled { worklist.AreSettled (S.meaning sys.now) pending.old.queue table.old next.now }
    ensures units { pending.new.units ≡ pending.old.units }
    ensures next { OnOk result (table.new ≡ next.now) }
    ensures evaluated { OnOk result (worklist.IsEvaluated (S.meaning sys.now) table.old table.new pending.old.queue pending.new.queue) }
{
    let (from, to) = sys.given(unit);
    for entry in from..to {
        settle(entry, readers, table, next, pending)?;
    }
    Ok(())
}

/// Raises one entry to that of the next table. Where it rises, the units that read it wait.
fn settle(
    entry: usize,
    readers: &[Readers],
    table: &mut Table,
    next: &Table,
    pending: &mut Pending,
) -> Result<(), AllocError>
    requires table { entry < length table.old }
    requires next { entry < length next.now }
    requires readers { entry < length readers.now }
    requires within { IsWithin (at table.old entry) (at next.now entry) }
    requires units { (unit : ℕ) → Contains (get_or readers.now entry []) unit → unit < pending.old.units }
    ensures units { pending.new.units ≡ pending.old.units }
    ensures value { OnOk result (table.new ≡ slice_set table.old entry (at next.now entry)) }
    ensures settled { OnOk result (worklist.IsSettled (at table.old entry) (at next.now entry) (get_or readers.now entry []) pending.old.queue pending.new.queue) }
{
    let raised = next.get(entry);
    if is_beyond(raised, table.get(entry)) {
        table.put(entry, raised);
        pending.put_all(readers[entry].units())?;
    }
    Ok(())
}
