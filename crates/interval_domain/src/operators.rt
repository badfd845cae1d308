// Operators on intervals, and the alarms of their results.
ghost use Rattle.std.specs.Prelude.{◌≡◌, ◌≤ℤ◌};
ghost use Rattle.interval_domain.specs.Interval.{IsOrdered};
ghost use Rattle.interval_domain.specs.Operators as rows;
ghost use Rattle.interval_domain.specs.Laws as laws;

use crate::interval::{Interval, common, strict};
use iec_tables::elem::{Elem, high, low};
use iec_tables::kind::Kind;

/// What an operator gives: the result, within the type, and the raw one, which alarms look at.
/// Where results may leave the type, the raw one is the least interval of all whole-number results;
/// for the other operators it is the result.
#[derive(Clone, Copy, Debug, PartialEq, Eq)]
pub struct Out {
    pub raw: Interval,
    pub result: Interval,
}

/// The greatest size of a bound.
const LIMIT: i128 = i128::MAX;

/// The range of a type.
pub fn range_of(t: Elem) -> Interval
    ensures { result ≡ rows.range_of t }
{
    Interval::of(low(t), high(t))
}

/// The sum of two intervals, for the type of the expression.
pub fn add(t: Elem, a: Interval, b: Interval) -> Out
    ensures raw { result.raw ≡ rows.add_raw a b }
    ensures result { result.result ≡ rows.typed t (rows.add_raw a b) }
    ensures sound { laws.IsSound (laws.of_two rows.sum_of a b) rows.kept (laws.fits t) result.raw
        result.result }
    ensures best { laws.IsBest (laws.of_two rows.sum_of a b) rows.kept result.raw }
    ensures monotone { laws.IsMonotone
        (laws.with_two rows.add_raw (λ c d. rows.typed t (rows.add_raw c d)) a b) result.raw result.result }
{
    typed(t, add_bounds(a, b))
}

/// The difference of two intervals, for the type of the expression.
pub fn sub(t: Elem, a: Interval, b: Interval) -> Out
    ensures raw { result.raw ≡ rows.sub_raw a b }
    ensures result { result.result ≡ rows.typed t (rows.sub_raw a b) }
    ensures sound { laws.IsSound (laws.of_two rows.difference_of a b) rows.kept (laws.fits t) result.raw
        result.result }
    ensures best { laws.IsBest (laws.of_two rows.difference_of a b) rows.kept result.raw }
    ensures monotone { laws.IsMonotone
        (laws.with_two rows.sub_raw (λ c d. rows.typed t (rows.sub_raw c d)) a b) result.raw result.result }
{
    typed(t, sub_bounds(a, b))
}

/// Whether a value raises an alarm of that kind: for a zero divisor where the divisor may be 0,
/// whatever is allowed, else where the value may leave what is allowed.
pub fn alarm(kind: Kind, value: Interval, allowed: Interval) -> bool
    ensures { result ≡ rows.is_alarmed kind value allowed }
{
    match kind {
        Kind::ZeroDivisor => value.holds(0),
        Kind::Index | Kind::Subrange | Kind::Overflow => !value.is_within(allowed),
    }
}

// The raw result and its part in the range of the type.
pub(crate) fn typed(t: Elem, raw: Interval) -> Out
    ensures raw { result.raw ≡ raw }
    ensures result { result.result ≡ rows.typed t raw }
    ensures ordered { IsOrdered raw }
{
    Out {
        raw,
        result: common(raw, range_of(t)),
    }
}

// What an operator without a raw result gives.
pub(crate) fn plain(interval: Interval) -> Out
    ensures raw { result.raw ≡ interval }
    ensures result { result.result ≡ interval }
{
    Out {
        raw: interval,
        result: interval,
    }
}

fn add_bounds(a: Interval, b: Interval) -> Interval
    ensures value { result ≡ rows.add_raw a b }
    ensures ordered { IsOrdered a × IsOrdered b }
{
    strict!(add_at, a, b)
}

fn add_at(a: i128, b: i128, c: i128, d: i128) -> Interval
    requires left { a ≤ℤ b }
    requires right { c ≤ℤ d }
    ensures { result ≡ rows.add_at a b c d }
{
    Interval::ordered(kept_sum(a, c), kept_sum(b, d))
}

fn sub_bounds(a: Interval, b: Interval) -> Interval
    ensures value { result ≡ rows.sub_raw a b }
    ensures ordered { IsOrdered a × IsOrdered b }
{
    strict!(sub_at, a, b)
}

fn sub_at(a: i128, b: i128, c: i128, d: i128) -> Interval
    requires left { a ≤ℤ b }
    requires right { c ≤ℤ d }
    ensures { result ≡ rows.sub_at a b c d }
{
    Interval::ordered(kept_difference(a, d), kept_difference(b, c))
}

// The number, kept in the limit of bounds.
pub(crate) fn kept(x: i128) -> i128
    ensures { result ≡ rows.kept x }
{
    x.max(-LIMIT)
}

// The sum, kept in the limit of bounds.
pub(crate) fn kept_sum(x: i128, y: i128) -> i128
    ensures { result ≡ rows.kept (rows.sum_of x y) }
{
    x.saturating_add(y).max(-LIMIT)
}

// The difference, kept in the limit of bounds.
pub(crate) fn kept_difference(x: i128, y: i128) -> i128
    ensures { result ≡ rows.kept (rows.difference_of x y) }
{
    x.saturating_sub(y).max(-LIMIT)
}
