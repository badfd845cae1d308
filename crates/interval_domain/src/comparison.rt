// Comparisons of intervals, and cuts by them.
ghost use Rattle.std.specs.Prelude.{◌≡◌, ◌↔◌, IsTrue, true, false, ℤ, pos, ◌≤ℤ◌, ◌<ℤ◌, ◌+ℤ◌, ◌-ℤ◌, ◌-◌, ◌^◌, neg_ℤ, if◌then◌else◌};
ghost use Rattle.std.specs.Int.{int_max, int_min};
ghost use Rattle.std.specs.Ordering.{int_eq};
ghost use Rattle.interval_domain.specs.Interval as intervals;
ghost use Rattle.interval_domain.specs.Comparison as comparison;

use crate::interval::{Interval, strict};
use crate::relation::{Compare, Flags, opposite};
use iec_tables::elem::Elem;

/// The truth values of the comparison that occur among numbers of the two intervals.
pub fn compare(_t: Elem, op: Compare, a: Interval, b: Interval) -> Flags
    ensures value { result ≡ comparison.flags_of op a b }
    ensures yes { IsTrue result.yes ↔ comparison.Occurs op a b true }
    ensures no { IsTrue result.no ↔ comparison.Occurs op a b false }
    ensures larger { (c d : intervals.Interval) → intervals.IsWithin a c → intervals.IsWithin b d →
        comparison.AreWithin result (comparison.flags_of op c d) }
{
    Flags {
        yes: may_hold(op, a, b),
        no: may_hold(opposite(op), a, b),
    }
}

/// What is left of the first interval where the comparison with the other is assumed true.
pub fn cut(op: Compare, own: Interval, other: Interval) -> Interval
    ensures value { result ≡ comparison.cut_row op own other }
    ensures laws { comparison.MeetsCutLaws op own other result }
{
    strict!(cut_bounds, own, other, op)
}

fn may_hold(op: Compare, a: Interval, b: Interval) -> bool
    ensures value { result ≡ comparison.may_hold op a b }
    ensures ordered { intervals.IsOrdered a × intervals.IsOrdered b }
{
    match (a.bounds(), b.bounds()) {
        (Some((a, b)), Some((c, d))) => bounds_allow(op, a, b, c, d),
        _ => false,
    }
}

fn bounds_allow(op: Compare, a: i128, b: i128, c: i128, d: i128) -> bool
    ensures { result ≡ comparison.bounds_allow op a b c d }
{
    match op {
        Compare::Less => a < d,
        Compare::LessEqual => a <= d,
        Compare::Greater => c < b,
        Compare::GreaterEqual => c <= b,
        Compare::Equal => a <= d && c <= b,
        Compare::NotEqual => a < d || c < b,
    }
}

fn cut_bounds(op: Compare, a: i128, b: i128, c: i128, d: i128) -> Interval
    requires { a ≤ℤ b }
    ensures { result ≡ comparison.cut_bounds op a b c d }
{
    match op {
        Compare::Less => below(a, b, d),
        Compare::LessEqual => Interval::of(a, b.min(d)),
        Compare::Greater => above(a, b, c),
        Compare::GreaterEqual => Interval::of(a.max(c), b),
        Compare::Equal => Interval::of(a.max(c), b.min(d)),
        Compare::NotEqual => different(a, b, c, d),
    }
}

// The numbers from the low one to the high one that are below a third.
fn below(low: i128, high: i128, end: i128) -> Interval
    ensures { result ≡ intervals.span low (int_min high (end -ℤ pos 1)) }
{
    if low < end {
        Interval::of(low, at_most_before(high, end))
    } else {
        Interval::empty()
    }
}

// The numbers from the low one to the high one that are above a third.
fn above(low: i128, high: i128, end: i128) -> Interval
    ensures { result ≡ intervals.span (int_max low (end +ℤ pos 1)) high }
{
    if end < high {
        Interval::of(at_least_after(low, end), high)
    } else {
        Interval::empty()
    }
}

fn at_most_before(high: i128, end: i128) -> i128
    requires { neg_ℤ (pos (2 ^ 127)) <ℤ end }
    ensures { result ≡ int_min high (end -ℤ pos 1) }
{
    high.min(end - 1)
}

fn at_least_after(low: i128, end: i128) -> i128
    requires { end <ℤ pos (2 ^ 127 - 1) }
    ensures { result ≡ int_max low (end +ℤ pos 1) }
{
    low.max(end + 1)
}

fn different(a: i128, b: i128, c: i128, d: i128) -> Interval
    requires { a ≤ℤ b }
    ensures { result ≡ (if int_eq c d then comparison.without a b c else intervals.span a b) }
{
    if c == d {
        without(a, b, c)
    } else {
        Interval::of(a, b)
    }
}

fn without(low: i128, high: i128, number: i128) -> Interval
    requires { low ≤ℤ high }
    ensures { result ≡ comparison.without low high number }
{
    if low < high {
        Interval::of(low_without(low, number), high_without(high, number))
    } else if low == number {
        Interval::empty()
    } else {
        Interval::single(low)
    }
}

fn low_without(low: i128, number: i128) -> i128
    requires { low <ℤ pos (2 ^ 127 - 1) }
    ensures { result ≡ (if int_eq low number then low +ℤ pos 1 else low) }
{
    if low == number { low + 1 } else { low }
}

fn high_without(high: i128, number: i128) -> i128
    requires { neg_ℤ (pos (2 ^ 127)) <ℤ high }
    ensures { result ≡ (if int_eq high number then high -ℤ pos 1 else high) }
{
    if high == number { high - 1 } else { high }
}
