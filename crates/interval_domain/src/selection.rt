// Minimum, maximum, limit, selection and conversion of intervals.
ghost use Rattle.std.specs.Prelude.{◌≡◌, ◌||◌, ◌≤ℤ◌};
ghost use Rattle.interval_domain.specs.Interval.{is_empty};
ghost use Rattle.interval_domain.specs.Operators as rows;
ghost use Rattle.interval_domain.specs.Selection as selection;
ghost use Rattle.interval_domain.specs.Laws as laws;

use crate::interval::{Interval, join, strict};
use crate::operators::{Out, plain, typed};
use iec_tables::elem::Elem;

/// The lesser of two numbers.
pub fn min(_t: Elem, a: Interval, b: Interval) -> Out
    ensures raw { result.raw ≡ selection.min_row a b }
    ensures result { result.result ≡ selection.min_row a b }
    ensures sound { laws.IsSound (laws.of_two selection.least_of a b) laws.same laws.any result.raw
        result.result }
    ensures monotone { laws.IsMonotone (laws.with_two selection.min_row selection.min_row a b)
        result.raw result.result }
{
    plain(min_bounds(a, b))
}

/// The greater of two numbers.
pub fn max(_t: Elem, a: Interval, b: Interval) -> Out
    ensures raw { result.raw ≡ selection.max_row a b }
    ensures result { result.result ≡ selection.max_row a b }
    ensures sound { laws.IsSound (laws.of_two selection.greatest_of a b) laws.same laws.any result.raw
        result.result }
    ensures monotone { laws.IsMonotone (laws.with_two selection.max_row selection.max_row a b)
        result.raw result.result }
{
    plain(max_bounds(a, b))
}

/// The numbers of the second interval, raised to those of the first and then lowered to those of the third.
pub fn limit(_t: Elem, mn: Interval, a: Interval, mx: Interval) -> Out
    ensures raw { result.raw ≡ selection.limit_row mn a mx }
    ensures result { result.result ≡ selection.limit_row mn a mx }
    ensures sound { laws.IsSound (laws.of_three selection.limited mn a mx) laws.same laws.any result.raw
        result.result }
    ensures monotone { laws.IsMonotone (laws.with_three selection.limit_row selection.limit_row mn a mx)
        result.raw result.result }
{
    plain(min_bounds(max_bounds(a, mn), mx))
}

/// The second interval where the first may be FALSE, which is 0, joined with the third where it may
/// be something else. An empty operand gives the empty interval, also one that is not chosen.
pub fn sel(_t: Elem, g: Interval, in0: Interval, in1: Interval) -> Out
    ensures raw { result.raw ≡ selection.sel_row g in0 in1 }
    ensures result { result.result ≡ selection.sel_row g in0 in1 }
    ensures sound { laws.IsSound (laws.of_three selection.chosen g in0 in1) laws.same laws.any
        result.raw result.result }
    ensures monotone { laws.IsMonotone (laws.with_three selection.sel_row selection.sel_row g in0 in1)
        result.raw result.result }
{
    plain(chosen(g, in0, in1))
}

/// The numbers of the interval that the second type has. The raw result is the interval: the least
/// that holds all of them.
pub fn convert(_from: Elem, to: Elem, a: Interval) -> Out
    ensures raw { result.raw ≡ a }
    ensures result { result.result ≡ rows.typed to a }
    ensures sound { laws.IsSound (laws.of_one laws.same a) laws.same (laws.fits to) result.raw result.result }
    ensures best { laws.IsBest (laws.of_one laws.same a) laws.same result.raw }
    ensures monotone { laws.IsMonotone (laws.with_one laws.whole (λ c. rows.typed to c) a) result.raw
        result.result }
{
    typed(to, a)
}

fn min_bounds(a: Interval, b: Interval) -> Interval
    ensures { result ≡ selection.min_row a b }
{
    strict!(min_at, a, b)
}

fn min_at(a: i128, b: i128, c: i128, d: i128) -> Interval
    requires left { a ≤ℤ b }
    requires right { c ≤ℤ d }
    ensures { result ≡ selection.min_at a b c d }
{
    Interval::ordered(a.min(c), b.min(d))
}

fn max_bounds(a: Interval, b: Interval) -> Interval
    ensures { result ≡ selection.max_row a b }
{
    strict!(max_at, a, b)
}

fn max_at(a: i128, b: i128, c: i128, d: i128) -> Interval
    requires left { a ≤ℤ b }
    requires right { c ≤ℤ d }
    ensures { result ≡ selection.max_at a b c d }
{
    Interval::ordered(a.max(c), b.max(d))
}

fn chosen(g: Interval, in0: Interval, in1: Interval) -> Interval
    ensures { result ≡ selection.sel_row g in0 in1 }
{
    let first = given(g.holds(0), in0);
    let second = given(!g.is_within(Interval::single(0)), in1);
    given(!is_one_empty(g, in0, in1), join(first, second))
}

fn is_one_empty(a: Interval, b: Interval, c: Interval) -> bool
    ensures { result ≡ (is_empty a || is_empty b || is_empty c) }
{
    a.is_empty() || b.is_empty() || c.is_empty()
}

// The interval where the test holds, else the empty one.
fn given(test: bool, i: Interval) -> Interval
    ensures { result ≡ selection.given test i }
{
    if test { i } else { Interval::empty() }
}
