// Intervals of whole numbers, with their join and meet.
ghost use Rattle.std.specs.Prelude.{◌≡◌, ℤ, ◌≤ℤ◌, MatchOption, IfSome};
ghost use Rattle.interval_domain.specs.Interval as intervals;

use std::marker::Model;

/// All whole numbers from a low bound to a high one, or none. To contracts it is the empty interval
/// or a span of two bounds.
#[derive(Clone, Copy, Debug, PartialEq, Eq)]
pub struct Interval {
    low: i128,
    high: i128,
}

impl Model for Interval {
    ghost use Rattle.interval_domain.specs.Interval as intervals;
    ghost use Rattle.interval_domain.specs.Stored.{AreBounds, low_of-span, high_of-span};

    ghost Value = { intervals.Interval };

    ghost view = { λ i. intervals.span i.low i.high };

    ghost invariant = { λ i. AreBounds i.low i.high };

    ghost inverse = { λ v. record { low = intervals.low_of v; high = intervals.high_of v } };

    ghost inverse_ok = { λ a h. Prim.rw (low_of-span a.low a.high h, high_of-span a.low a.high h) };
}

impl Interval {
    /// The interval that holds nothing.
    pub fn empty() -> Self
        ensures { result ≡ intervals.Empty }
    {
        Interval { low: 1, high: 0 }
    }

    /// The interval of one number.
    pub fn single(value: i128) -> Self
        ensures { result ≡ intervals.Span value value }
    {
        Interval {
            low: value,
            high: value,
        }
    }

    /// From the low bound to the high one, which is not below it.
    pub(crate) fn ordered(low: i128, high: i128) -> Self
        requires { low ≤ℤ high }
        ensures { result ≡ intervals.Span low high }
    {
        Interval { low, high }
    }

    /// From the low bound to the high one, or empty where the first is above the second.
    pub fn of(low: i128, high: i128) -> Self
        ensures { result ≡ intervals.span low high }
    {
        if low <= high {
            Interval { low, high }
        } else {
            Interval::empty()
        }
    }

    /// Whether it holds nothing.
    pub fn is_empty(self) -> bool
        ensures { result ≡ intervals.is_empty self }
    {
        self.low > self.high
    }

    /// The low and the high bound, or None for the empty interval. The low one is at most the high one.
    pub fn bounds(self) -> Option<(i128, i128)>
        ensures value { MatchOption result (self ≡ intervals.Empty) (λ b. self ≡ intervals.Span b.0 b.1) }
        ensures ordered { IfSome result (λ b. b.0 ≤ℤ b.1) }
        ensures whole { intervals.IsOrdered self }
    {
        if self.low <= self.high {
            Some((self.low, self.high))
        } else {
            None
        }
    }

    /// Whether each number of this interval lies in the other.
    pub fn is_within(self, other: Interval) -> bool
        ensures { result ≡ intervals.is_within self other }
    {
        match (self.bounds(), other.bounds()) {
            (None, _) => true,
            (Some(_), None) => false,
            (Some((a, b)), Some((c, d))) => c <= a && b <= d,
        }
    }

    /// Whether the number lies in the interval.
    pub fn holds(self, value: i128) -> bool
        ensures { result ≡ intervals.holds self value }
    {
        match self.bounds() {
            None => false,
            Some((low, high)) => low <= value && value <= high,
        }
    }
}

// What a function gives for the bounds of an interval: empty where it is. Arguments behind the
// interval go before the bounds.
macro_rules! strict_one {
    ($at:ident, $a:expr $(, $more:expr)*) => {
        match $a.bounds() {
            Some((low, high)) => $at($($more,)* low, high),
            None => Interval::empty(),
        }
    };
}

// The same of two intervals.
macro_rules! strict {
    ($at:ident, $a:expr, $b:expr $(, $more:expr)*) => {
        match ($a.bounds(), $b.bounds()) {
            (Some((a, b)), Some((c, d))) => $at($($more,)* a, b, c, d),
            _ => Interval::empty(),
        }
    };
}

pub(crate) use strict;
pub(crate) use strict_one;

/// The least interval that holds what either holds.
pub fn join(a: Interval, b: Interval) -> Interval
    ensures { result ≡ intervals.hull a b }
{
    match (a.bounds(), b.bounds()) {
        (None, _) => b,
        (Some(_), None) => a,
        (Some((low, high)), Some((c, d))) => Interval::ordered(low.min(c), high.max(d)),
    }
}

/// The interval of what both hold.
pub fn meet(a: Interval, b: Interval) -> Interval
    ensures { result ≡ intervals.meet a b }
{
    common(a, b)
}

/// The same, with what is known of an interval's bounds.
pub(crate) fn common(a: Interval, b: Interval) -> Interval
    ensures value { result ≡ intervals.meet a b }
    ensures ordered { intervals.IsOrdered a }
{
    strict!(meet_at, a, b)
}

fn meet_at(a: i128, b: i128, c: i128, d: i128) -> Interval
    ensures { result ≡ intervals.meet_at a b c d }
{
    Interval::of(a.max(c), b.min(d))
}
