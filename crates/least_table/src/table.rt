// Tables of intervals: one for each entry.

ghost use Rattle.std.specs.Prelude.{◌≡◌, ◌<◌, ◌≤◌, true, false, IfOk, length, replicate, slice_range, slice_set};
ghost use Rattle.interval_domain.specs.Interval as intervals;
ghost use Rattle.least_table.specs.System.{at};
ghost use Rattle.least_table.specs.steps.Worklist.{Exceeds};

use interval_domain::interval::{Interval, join};
use std::alloc::{AllocError, Global};
use std::marker::Model;

/// A list of intervals, one for each entry. To contracts it is that list.
#[derive(Drop)]
pub struct Table {
    intervals: Vec<Interval>,
}

impl Model for Table {
    ghost use Rattle.least_table.specs.System.{Intervals};

    ghost Value = { Intervals };

    ghost view = { λ t. t.intervals.items };
}

impl Table {
    /// A table of empty intervals.
    pub fn new(alloc: Global, entries: usize) -> Result<Table, AllocError>
        ensures { IfOk result (λ table. table ≡ replicate entries intervals.Empty) }
    {
        Ok(Table {
            intervals: vec![in alloc; Interval::empty(); entries]?,
        })
    }

    /// The interval of an entry.
    pub fn get(&self, entry: usize) -> Interval
        requires { entry < length self.now }
        ensures { result ≡ at self.now entry }
    {
        self.intervals[entry]
    }

    /// The intervals of the entries from one on to before another.
    pub fn slice(&self, from: usize, to: usize) -> &[Interval]
        requires order { from ≤ to }
        requires within { to ≤ length self.now }
        ensures { result.now ≡ slice_range self.now from to }
    {
        &self.intervals[from..to]
    }

    /// Joins an interval into that of an entry.
    pub fn join_at(&mut self, entry: usize, i: Interval)
        requires { entry < length self.old }
        ensures { self.new ≡ slice_set self.old entry (intervals.hull (at self.old entry) i) }
    {
        self.intervals[entry] = join(self.intervals[entry], i);
    }

    /// Gives an entry another interval.
    pub(crate) fn put(&mut self, entry: usize, i: Interval)
        requires { entry < length self.old }
        ensures { self.new ≡ slice_set self.old entry i }
    {
        self.intervals[entry] = i;
    }
}

/// Whether the first interval reaches beyond the second.
pub(crate) fn is_beyond(i: Interval, other: Interval) -> bool
    ensures within { result ≡ false → intervals.IsWithin i other }
    ensures beyond { result ≡ true → Exceeds other i }
{
    match i.bounds() {
        None => false,
        Some(_) => !i.is_within(other),
    }
}
