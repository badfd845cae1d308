// AND, OR, XOR and NOT of the bit patterns in intervals, BOOL among them.
ghost use Rattle.std.specs.Prelude.{◌≡◌, pos, ◌≤ℤ◌, ◌-ℤ◌, ◌-◌, ◌^◌};
ghost use Rattle.std.specs.Int.{int_max, int_min};
ghost use Rattle.iec_tables.specs.Types.{width_of};
ghost use Rattle.interval_domain.specs.Interval as intervals;
ghost use Rattle.interval_domain.specs.Bits as rows;
ghost use Rattle.interval_domain.specs.Laws as laws;

use crate::interval::{Interval, strict, strict_one};
use crate::operators::{Out, plain};
use crate::widths::{all_ones, patterns_in};
use iec_tables::elem::Elem;

/// The patterns with the bits that both have. Of each operand only what is patterns of the type
/// counts: for a bit string, all that is in its range.
pub fn and(t: Elem, a: Interval, b: Interval) -> Out
    ensures raw { result.raw ≡ rows.and_row (rows.patterns_in (width_of t) a)
        (rows.patterns_in (width_of t) b) }
    ensures result { result.result ≡ rows.and_row (rows.patterns_in (width_of t) a)
        (rows.patterns_in (width_of t) b) }
    ensures sound { laws.IsSound
        (laws.of_two rows.and_of (rows.patterns_in (width_of t) a) (rows.patterns_in (width_of t) b))
        laws.same laws.any result.raw result.result }
    ensures best { width_of t ≡ 1 → laws.IsBest
        (laws.of_two rows.and_of (rows.patterns_in (width_of t) a) (rows.patterns_in (width_of t) b))
        laws.same result.raw }
    ensures monotone { laws.IsMonotone
        (laws.with_two (rows.cut_row rows.and_row t) (rows.cut_row rows.and_row t) a b) result.raw
        result.result }
{
    plain(and_bounds(patterns_in(t, a), patterns_in(t, b)))
}

/// The patterns with the bits that either has. Of each operand only what is patterns of the type
/// counts: for a bit string, all that is in its range.
pub fn or(t: Elem, a: Interval, b: Interval) -> Out
    ensures raw { result.raw ≡ rows.or_row (rows.patterns_in (width_of t) a)
        (rows.patterns_in (width_of t) b) }
    ensures result { result.result ≡ rows.or_row (rows.patterns_in (width_of t) a)
        (rows.patterns_in (width_of t) b) }
    ensures sound { laws.IsSound
        (laws.of_two rows.or_of (rows.patterns_in (width_of t) a) (rows.patterns_in (width_of t) b))
        laws.same laws.any result.raw result.result }
    ensures best { width_of t ≡ 1 → laws.IsBest
        (laws.of_two rows.or_of (rows.patterns_in (width_of t) a) (rows.patterns_in (width_of t) b))
        laws.same result.raw }
    ensures monotone { laws.IsMonotone
        (laws.with_two (rows.cut_row rows.or_row t) (rows.cut_row rows.or_row t) a b) result.raw
        result.result }
{
    plain(or_bounds(patterns_in(t, a), patterns_in(t, b)))
}

/// The patterns with the bits that one of both has. Of each operand only what is patterns of the
/// type counts: for a bit string, all that is in its range.
pub fn xor(t: Elem, a: Interval, b: Interval) -> Out
    ensures raw { result.raw ≡ rows.xor_row (rows.patterns_in (width_of t) a)
        (rows.patterns_in (width_of t) b) }
    ensures result { result.result ≡ rows.xor_row (rows.patterns_in (width_of t) a)
        (rows.patterns_in (width_of t) b) }
    ensures sound { laws.IsSound
        (laws.of_two rows.xor_of (rows.patterns_in (width_of t) a) (rows.patterns_in (width_of t) b))
        laws.same laws.any result.raw result.result }
    ensures best { width_of t ≡ 1 → laws.IsBest
        (laws.of_two rows.xor_of (rows.patterns_in (width_of t) a) (rows.patterns_in (width_of t) b))
        laws.same result.raw }
    ensures monotone { laws.IsMonotone
        (laws.with_two (rows.cut_row rows.xor_row t) (rows.cut_row rows.xor_row t) a b) result.raw
        result.result }
{
    plain(xor_bounds(patterns_in(t, a), patterns_in(t, b)))
}

/// The patterns with each bit turned round. Of the operand only what is patterns of the type
/// counts: for a bit string, all that is in its range.
pub fn not(t: Elem, a: Interval) -> Out
    ensures raw { result.raw ≡ rows.not_row t (rows.patterns_in (width_of t) a) }
    ensures result { result.result ≡ rows.not_row t (rows.patterns_in (width_of t) a) }
    ensures sound { laws.IsSound (laws.of_one (rows.not_of t) (rows.patterns_in (width_of t) a))
        laws.same laws.any result.raw result.result }
    ensures monotone { laws.IsMonotone (laws.with_one (rows.cut_not_row t) (rows.cut_not_row t) a)
        result.raw result.result }
{
    plain(not_bounds(all_ones(t), patterns_in(t, a)))
}

fn and_bounds(a: Interval, b: Interval) -> Interval
    requires left { intervals.IsWithin a rows.words }
    requires right { intervals.IsWithin b rows.words }
    ensures { result ≡ rows.and_row a b }
{
    strict!(and_at, a, b)
}

fn and_at(a: i128, b: i128, c: i128, d: i128) -> Interval
    requires left { pos 0 ≤ℤ a }
    requires right { pos 0 ≤ℤ c }
    ensures { result ≡ rows.pattern_at rows.and_of rows.and_other a b c d }
{
    exact_or(a, b, c, d, and_of(a, c), up_to_lesser(b, d))
}

fn or_bounds(a: Interval, b: Interval) -> Interval
    requires left { intervals.IsWithin a rows.words }
    requires right { intervals.IsWithin b rows.words }
    ensures { result ≡ rows.or_row a b }
{
    strict!(or_at, a, b)
}

fn or_at(a: i128, b: i128, c: i128, d: i128) -> Interval
    requires left { pos 0 ≤ℤ a }
    requires right { pos 0 ≤ℤ c }
    requires order { a ≤ℤ b }
    ensures { result ≡ rows.pattern_at rows.or_of rows.or_other a b c d }
{
    exact_or(a, b, c, d, or_of(a, c), up_from_greater(a, b, c, d))
}

fn xor_bounds(a: Interval, b: Interval) -> Interval
    requires left { intervals.IsWithin a rows.words }
    requires right { intervals.IsWithin b rows.words }
    ensures { result ≡ rows.xor_row a b }
{
    strict!(xor_at, a, b)
}

fn xor_at(a: i128, b: i128, c: i128, d: i128) -> Interval
    requires left { pos 0 ≤ℤ a }
    requires right { pos 0 ≤ℤ c }
    requires order { a ≤ℤ b }
    ensures { result ≡ rows.pattern_at rows.xor_of rows.xor_other a b c d }
{
    exact_or(a, b, c, d, xor_of(a, c), up_to_ones(b, d))
}

// From 0 to the lesser of two numbers.
fn up_to_lesser(b: i128, d: i128) -> Interval
    ensures { result ≡ intervals.span (pos 0) (int_min b d) }
{
    Interval::of(0, b.min(d))
}

// From the greater of two numbers to the ones above the greater of two others.
fn up_from_greater(a: i128, b: i128, c: i128, d: i128) -> Interval
    requires { pos 0 ≤ℤ b }
    ensures { result ≡ intervals.span (int_max a c) (rows.ones_above (int_max b d)) }
{
    Interval::of(a.max(c), ones_above(b.max(d)))
}

// From 0 to the ones above the greater of two numbers.
fn up_to_ones(b: i128, d: i128) -> Interval
    requires { pos 0 ≤ℤ b }
    ensures { result ≡ intervals.span (pos 0) (rows.ones_above (int_max b d)) }
{
    Interval::of(0, ones_above(b.max(d)))
}

fn not_bounds(ones: i128, a: Interval) -> Interval
    requires ones { ones ≤ℤ pos (2 ^ 64 - 1) }
    requires within { intervals.IsWithin a (intervals.Span (pos 0) ones) }
    ensures { result ≡ rows.mirrored ones a }
{
    strict_one!(not_at, a, ones)
}

fn not_at(ones: i128, a: i128, b: i128) -> Interval
    requires low { pos 0 ≤ℤ a }
    requires order { a ≤ℤ b }
    requires high { b ≤ℤ ones }
    ensures { result ≡ rows.mirrored_at ones a b }
{
    Interval::ordered(turned_bits(ones, b), turned_bits(ones, a))
}

fn turned_bits(ones: i128, number: i128) -> i128
    requires low { pos 0 ≤ℤ number }
    requires high { number ≤ℤ ones }
    ensures { result ≡ ones -ℤ number }
{
    ones - number
}

// One number where both operands are single, else another interval.
pub(crate) fn exact_or(a: i128, b: i128, c: i128, d: i128, exact: i128, other: Interval) -> Interval
    ensures { result ≡ rows.exact_or a b c d exact other }
{
    if a == b && c == d {
        Interval::single(exact)
    } else {
        other
    }
}

fn and_of(x: i128, y: i128) -> i128
    requires left { pos 0 ≤ℤ x }
    requires right { pos 0 ≤ℤ y }
    ensures { result ≡ rows.and_of x y }
{
    (x as u128 & y as u128) as i128
}

fn or_of(x: i128, y: i128) -> i128
    requires left { pos 0 ≤ℤ x }
    requires right { pos 0 ≤ℤ y }
    ensures { result ≡ rows.or_of x y }
{
    (x as u128 | y as u128) as i128
}

fn xor_of(x: i128, y: i128) -> i128
    requires left { pos 0 ≤ℤ x }
    requires right { pos 0 ≤ℤ y }
    ensures { result ≡ rows.xor_of x y }
{
    (x as u128 ^ y as u128) as i128
}

/// The least number whose digits in base 2 are all 1 that is not below a number from 0 on: the
/// upper bound of OR and XOR.
pub fn ones_above(z: i128) -> i128
    requires { pos 0 ≤ℤ z }
    ensures value { result ≡ rows.ones_above z }
    ensures least { rows.IsOnesAbove z result }
{
    let digits = 128 - (z as u128).leading_zeros();
    ((1u128 << digits) - 1) as i128
}
