// Shifts and rotations of the bit patterns in intervals.
ghost use Rattle.std.specs.Prelude.{◌≡◌, ◌<◌, ◌≤◌, ◌-◌, ◌*◌, ◌^◌, pos, ◌≤ℤ◌};
ghost use Rattle.iec_tables.specs.Types as types;
ghost use Rattle.interval_domain.specs.Interval as intervals;
ghost use Rattle.interval_domain.specs.Bits as bits;
ghost use Rattle.interval_domain.specs.Shifts as rows;
ghost use Rattle.interval_domain.specs.Laws as laws;

use crate::bits::exact_or;
use crate::interval::{Interval, strict};
use crate::operators::{Out, plain};
use crate::widths::{patterns, patterns_in, power, width};
use iec_tables::elem::Elem;

/// The patterns moved up by the counts. Of the first operand only what is patterns of the type
/// counts: for a bit string, all that is in its range.
pub fn shl(t: Elem, a: Interval, n: Interval) -> Out
    ensures raw { result.raw ≡ rows.shl_row (types.width_of t) (bits.patterns_in (types.width_of t) a) n }
    ensures result { result.result ≡ rows.shl_row (types.width_of t)
        (bits.patterns_in (types.width_of t) a) n }
    ensures sound { laws.IsSound
        (laws.of_two (rows.shl_of (types.width_of t)) (bits.patterns_in (types.width_of t) a) n)
        laws.same laws.any result.raw result.result }
    ensures monotone { laws.IsMonotone
        (laws.with_two (rows.cut_row rows.shl_row (types.width_of t))
        (rows.cut_row rows.shl_row (types.width_of t)) a n) result.raw result.result }
{
    plain(shl_bounds(width(t), patterns_in(t, a), n))
}

/// The patterns moved down by the counts. Of the first operand only what is patterns of the type
/// counts: for a bit string, all that is in its range.
pub fn shr(t: Elem, a: Interval, n: Interval) -> Out
    ensures raw { result.raw ≡ rows.shr_row (types.width_of t) (bits.patterns_in (types.width_of t) a) n }
    ensures result { result.result ≡ rows.shr_row (types.width_of t)
        (bits.patterns_in (types.width_of t) a) n }
    ensures sound { laws.IsSound
        (laws.of_two (rows.shr_of (types.width_of t)) (bits.patterns_in (types.width_of t) a) n)
        laws.same laws.any result.raw result.result }
    ensures monotone { laws.IsMonotone
        (laws.with_two (rows.cut_row rows.shr_row (types.width_of t))
        (rows.cut_row rows.shr_row (types.width_of t)) a n) result.raw result.result }
{
    plain(shr_bounds(width(t), patterns_in(t, a), n))
}

/// The patterns turned up by the counts. Of the first operand only what is patterns of the type
/// counts: for a bit string, all that is in its range.
pub fn rol(t: Elem, a: Interval, n: Interval) -> Out
    ensures raw { result.raw ≡ rows.rol_row (types.width_of t) (bits.patterns_in (types.width_of t) a) n }
    ensures result { result.result ≡ rows.rol_row (types.width_of t)
        (bits.patterns_in (types.width_of t) a) n }
    ensures sound { laws.IsSound
        (laws.of_two (rows.rol_of (types.width_of t)) (bits.patterns_in (types.width_of t) a) n)
        laws.same laws.any result.raw result.result }
    ensures monotone { laws.IsMonotone
        (laws.with_two (rows.cut_row rows.rol_row (types.width_of t))
        (rows.cut_row rows.rol_row (types.width_of t)) a n) result.raw result.result }
{
    plain(rol_bounds(width(t), patterns_in(t, a), n))
}

/// The patterns turned down by the counts. Of the first operand only what is patterns of the type
/// counts: for a bit string, all that is in its range.
pub fn ror(t: Elem, a: Interval, n: Interval) -> Out
    ensures raw { result.raw ≡ rows.ror_row (types.width_of t) (bits.patterns_in (types.width_of t) a) n }
    ensures result { result.result ≡ rows.ror_row (types.width_of t)
        (bits.patterns_in (types.width_of t) a) n }
    ensures sound { laws.IsSound
        (laws.of_two (rows.ror_of (types.width_of t)) (bits.patterns_in (types.width_of t) a) n)
        laws.same laws.any result.raw result.result }
    ensures monotone { laws.IsMonotone
        (laws.with_two (rows.cut_row rows.ror_row (types.width_of t))
        (rows.cut_row rows.ror_row (types.width_of t)) a n) result.raw result.result }
{
    plain(ror_bounds(width(t), patterns_in(t, a), n))
}

fn shr_bounds(width: u32, a: Interval, n: Interval) -> Interval
    requires few { width ≤ 64 }
    requires within { intervals.IsWithin a (bits.patterns width) }
    ensures { result ≡ rows.shr_row width a n }
{
    strict!(shr_at, a, n, width)
}

fn shr_at(width: u32, a: i128, b: i128, c: i128, d: i128) -> Interval
    requires few { width ≤ 64 }
    requires low { pos 0 ≤ℤ a }
    requires order { a ≤ℤ b }
    ensures { result ≡ rows.shr_at width a b c d }
{
    Interval::of(shr_of(width, a, d), shr_of(width, b, c))
}

fn shl_bounds(width: u32, a: Interval, n: Interval) -> Interval
    requires few { width ≤ 64 }
    requires within { intervals.IsWithin a (bits.patterns width) }
    ensures value { result ≡ rows.shl_row width a n }
    ensures ordered { intervals.IsOrdered n }
{
    strict!(shl_at, a, n, width)
}

fn shl_at(width: u32, a: i128, b: i128, c: i128, d: i128) -> Interval
    requires few { width ≤ 64 }
    requires low { pos 0 ≤ℤ a }
    requires high { a ≤ℤ pos (2 ^ width - 1) }
    ensures { result ≡ bits.pattern_at (rows.shl_of width) (rows.any_pattern width) a b c d }
{
    exact_or(a, b, c, d, shl_of(width, a, c), patterns(width))
}

fn rol_bounds(width: u32, a: Interval, n: Interval) -> Interval
    requires some { 0 < width }
    requires few { width ≤ 64 }
    requires within { intervals.IsWithin a (bits.patterns width) }
    ensures value { result ≡ rows.rol_row width a n }
    ensures ordered { intervals.IsOrdered n }
{
    strict!(rol_at, a, n, width)
}

fn rol_at(width: u32, a: i128, b: i128, c: i128, d: i128) -> Interval
    requires some { 0 < width }
    requires few { width ≤ 64 }
    requires low { pos 0 ≤ℤ a }
    requires high { a ≤ℤ pos (2 ^ width - 1) }
    ensures { result ≡ bits.pattern_at (rows.rol_of width) (rows.any_pattern width) a b c d }
{
    exact_or(a, b, c, d, rol_of(width, a, c), patterns(width))
}

fn ror_bounds(width: u32, a: Interval, n: Interval) -> Interval
    requires some { 0 < width }
    requires few { width ≤ 64 }
    requires within { intervals.IsWithin a (bits.patterns width) }
    ensures value { result ≡ rows.ror_row width a n }
    ensures ordered { intervals.IsOrdered n }
{
    strict!(ror_at, a, n, width)
}

fn ror_at(width: u32, a: i128, b: i128, c: i128, d: i128) -> Interval
    requires some { 0 < width }
    requires few { width ≤ 64 }
    requires low { pos 0 ≤ℤ a }
    requires high { a ≤ℤ pos (2 ^ width - 1) }
    ensures { result ≡ bits.pattern_at (rows.ror_of width) (rows.any_pattern width) a b c d }
{
    exact_or(a, b, c, d, ror_of(width, a, c), patterns(width))
}

fn shl_of(width: u32, x: i128, n: i128) -> i128
    requires few { width ≤ 64 }
    requires low { pos 0 ≤ℤ x }
    requires high { x ≤ℤ pos (2 ^ width - 1) }
    ensures { result ≡ rows.shl_of width x n }
{
    (moved_up(x as u128, moved(width, n)) % power(width)) as i128
}

fn shr_of(width: u32, x: i128, n: i128) -> i128
    requires few { width ≤ 64 }
    requires low { pos 0 ≤ℤ x }
    ensures { result ≡ rows.shr_of width x n }
{
    (x as u128 >> moved(width, n)) as i128
}

fn rol_of(width: u32, x: i128, n: i128) -> i128
    requires some { 0 < width }
    requires few { width ≤ 64 }
    requires low { pos 0 ≤ℤ x }
    requires high { x ≤ℤ pos (2 ^ width - 1) }
    ensures { result ≡ rows.rol_of width x n }
{
    turned(width, x as u128, width - turns(width, n)) as i128
}

fn ror_of(width: u32, x: i128, n: i128) -> i128
    requires some { 0 < width }
    requires few { width ≤ 64 }
    requires low { pos 0 ≤ℤ x }
    requires high { x ≤ℤ pos (2 ^ width - 1) }
    ensures { result ≡ rows.ror_of width x n }
{
    turned(width, x as u128, turns(width, n)) as i128
}

// The two parts of a word changed over: the lowest `place` bits, and those above.
fn turned(width: u32, x: u128, place: u32) -> u128
    requires few { width ≤ 64 }
    requires place { place ≤ width }
    requires pattern { x < 2 ^ width }
    ensures value { result ≡ rows.turned width x place }
    ensures pattern { result < 2 ^ width }
    ensures word { result < 2 ^ 64 }
{
    moved_up(x % power(place), width - place) + (x >> place)
}

// The count moved into 0 to the width.
fn moved(width: u32, n: i128) -> u32
    ensures value { result ≡ rows.moved width n }
    ensures few { result ≤ width }
{
    if n < 0 {
        0
    } else if n < width as i128 {
        n as u32
    } else {
        width
    }
}

// The count modulo the width.
fn turns(width: u32, n: i128) -> u32
    requires { 0 < width }
    ensures value { result ≡ rows.turns width n }
    ensures few { result < width }
{
    if n < 0 {
        0
    } else {
        (n as u128 % width as u128) as u32
    }
}

fn moved_up(x: u128, k: u32) -> u128
    requires pattern { x < 2 ^ 64 }
    requires few { k ≤ 64 }
    ensures { result ≡ x * 2 ^ k }
{
    x << k
}
