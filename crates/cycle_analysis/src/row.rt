// Rows of intervals: one for each of a task's own cells, and one for each shared cell.

ghost use Rattle.std.specs.Prelude.{◌≡◌, ◌<◌, ◌+◌, true, false, IfOk, MatchOption, length, replicate};
ghost use Rattle.interval_domain.specs.Interval as spec_interval;
ghost use Rattle.interval_domain.specs.Interval.{hull};
ghost use Rattle.cycle_analysis.specs.Rows.{AreAll, joined, raised, room, rooms};
ghost use Rattle.cycle_analysis.specs.Pass.{at, put, cell_at, own_put, shared_put};

use interval_domain::grid::Grid;
use interval_domain::interval::{Interval, join};
use st_tree::Cell;
use std::alloc::{AllocError, Global};

/// An interval for each own cell, and one for each shared cell: its view. The interval of a cell that isn't there is empty.
#[derive(Drop)]
pub struct Row {
    pub own: Vec<Interval>,
    pub shared: Vec<Interval>,
}

impl Row {
    /// A row of empty intervals.
    pub(crate) fn new(alloc: Global, own: usize, shared: usize) -> Result<Row, AllocError>
        ensures own { IfOk result (λ row. row.own.items ≡ replicate own spec_interval.Empty) }
        ensures shared { IfOk result (λ row. row.shared.items ≡ replicate shared spec_interval.Empty) }
    {
        Ok(Row {
            own: vec![in alloc; Interval::empty(); own]?,
            shared: vec![in alloc; Interval::empty(); shared]?,
        })
    }

    pub fn get(&self, cell: Cell) -> Interval
        ensures { result ≡ cell_at cell self.now.own.items self.now.shared.items }
    {
        match cell {
            Cell::Own(place) => interval_at(&self.own, place),
            Cell::Shared(place) => interval_at(&self.shared, place),
        }
    }

    pub(crate) fn set(&mut self, cell: Cell, interval: Interval)
        ensures own { self.new.own.items ≡ own_put cell interval self.old.own.items }
        ensures shared { self.new.shared.items ≡ shared_put cell interval self.old.shared.items }
    {
        match cell {
            Cell::Own(place) => put_interval(&mut self.own, place, interval),
            Cell::Shared(place) => put_interval(&mut self.shared, place, interval),
        }
    }

    pub(crate) fn join_at(&mut self, cell: Cell, interval: Interval)
        ensures own { self.new.own.items ≡ own_put cell (hull (cell_at cell self.old.own.items self.old.shared.items) interval) self.old.own.items }
        ensures shared { self.new.shared.items ≡ shared_put cell (hull (cell_at cell self.old.own.items self.old.shared.items) interval) self.old.shared.items }
    {
        self.set(cell, join(self.get(cell), interval));
    }

    /// Makes all its intervals empty.
    pub(crate) fn clear(&mut self)
        ensures own { self.new.own.items ≡ replicate (length self.old.own.items) spec_interval.Empty }
        ensures shared { self.new.shared.items ≡ replicate (length self.old.shared.items) spec_interval.Empty }
    {
        clear_all(&mut self.own);
        clear_all(&mut self.shared);
    }

    /// Takes the intervals of a row of the same cells.
    pub(crate) fn take_from(&mut self, other: &Row)
        requires own { length self.old.own.items ≡ length other.now.own.items }
        requires shared { length self.old.shared.items ≡ length other.now.shared.items }
        ensures own { self.new.own.items ≡ other.now.own.items }
        ensures shared { self.new.shared.items ≡ other.now.shared.items }
    {
        copy_all(&mut self.own, &other.own);
        copy_all(&mut self.shared, &other.shared);
    }

    /// Joins the intervals of a row of the same cells.
    pub(crate) fn join_all(&mut self, other: &Row)
        ensures own_places { length self.new.own.items ≡ length self.old.own.items }
        ensures shared_places { length self.new.shared.items ≡ length self.old.shared.items }
        ensures own { AreAll (joined self.old.own.items other.now.own.items) self.new.own.items }
        ensures shared { AreAll (joined self.old.shared.items other.now.shared.items) self.new.shared.items }
    {
        join_each(&mut self.own, &other.own);
        join_each(&mut self.shared, &other.shared);
    }

    /// Joins the rounded intervals of a row of the same cells, and tells whether an interval has grown.
    pub(crate) fn raise(&mut self, grid: &Grid, other: &Row) -> bool
        ensures own_places { length self.new.own.items ≡ length self.old.own.items }
        ensures shared_places { length self.new.shared.items ≡ length self.old.shared.items }
        ensures own { AreAll (raised grid.now self.old.own.items other.now.own.items) self.new.own.items }
        ensures shared { AreAll (raised grid.now self.old.shared.items other.now.shared.items) self.new.shared.items }
        ensures stays_own { result ≡ false → self.new.own.items ≡ self.old.own.items }
        ensures stays_shared { result ≡ false → self.new.shared.items ≡ self.old.shared.items }
        ensures smaller { result ≡ true → rooms self.new.own.items + rooms self.new.shared.items < rooms self.old.own.items + rooms self.old.shared.items }
    {
        let own = raise_all(grid, &mut self.own, &other.own);
        let shared = raise_all(grid, &mut self.shared, &other.shared);
        own || shared
    }
}

/// The interval at a place, empty past the end.
#[tactic(auto, using(crate::proofs::Indices::at_is))]
pub(crate) fn interval_at(intervals: &[Interval], place: usize) -> Interval
    ensures { result ≡ at intervals.now place }
{
    intervals.get(place).copied().unwrap_or(Interval::empty())
}

#[tactic(auto, using(crate::proofs::Indices::put_is, crate::proofs::Indices::put_past))]
fn put_interval(intervals: &mut [Interval], place: usize, interval: Interval)
    ensures { intervals.new ≡ put intervals.old place interval }
{
    if place < intervals.len() {
        intervals[place] = interval;
    }
}

fn clear_all(intervals: &mut [Interval])
    ensures { intervals.new ≡ replicate (length intervals.old) spec_interval.Empty }
{
    intervals.fill(Interval::empty());
}

#[tactic(auto, using(crate::proofs::Rows::mapped_none, crate::proofs::Rows::mapped_more))]
fn copy_all(intervals: &mut [Interval], others: &[Interval])
    requires { length intervals.old ≡ length others.now }
    ensures { intervals.new ≡ others.now }
{
    for place in 0..intervals.len() {
        put_interval(intervals, place, interval_at(others, place));
    }
}

#[tactic(auto, using(crate::proofs::Rows::mapped_none, crate::proofs::Rows::mapped_more))]
fn join_each(intervals: &mut [Interval], others: &[Interval])
    ensures { AreAll (joined intervals.old others.now) intervals.new }
{
    for place in 0..intervals.len() {
        let interval = join(interval_at(intervals, place), interval_at(others, place));
        put_interval(intervals, place, interval);
    }
}

fn raise_all(grid: &Grid, intervals: &mut [Interval], others: &[Interval]) -> bool
    ensures value { AreAll (raised grid.now intervals.old others.now) intervals.new }
    ensures stays { result ≡ false → intervals.new ≡ intervals.old }
    ensures smaller { result ≡ true → rooms intervals.new < rooms intervals.old }
{
    let mut grown = false;
    for place in 0..intervals.len() {
        let old = interval_at(intervals, place);
        if let Some(interval) = widened(old, grid.round(interval_at(others, place))) {
            put_interval(intervals, place, interval);
            grown = true;
        }
    }
    grown
}

/// The join, where it is larger.
fn widened(old: Interval, other: Interval) -> Option<Interval>
    ensures { MatchOption result (old ≡ hull old other) (λ new. (new ≡ hull old other) × (room new < room old)) }
{
    if other.is_within(old) {
        return None;
    }
    let joined = join(old, other);
    match joined.bounds() {
        None => None,
        Some(_) => Some(joined),
    }
}
