// Multiplication, division, remainder, negation and absolute value of intervals.
ghost use Rattle.std.specs.Prelude.{◌≡◌, ◌≢◌, ◌<◌, ◌≤◌, ◌≤ℤ◌, ◌^◌, pos};
ghost use Rattle.interval_domain.specs.Interval as intervals;
ghost use Rattle.interval_domain.specs.Operators as rows;
ghost use Rattle.interval_domain.specs.Arithmetic as arithmetic;
ghost use Rattle.interval_domain.specs.Laws as laws;

use crate::interval::{Interval, join, strict, strict_one};
use crate::operators::{Out, kept, kept_difference, plain, typed};
use iec_tables::elem::Elem;

/// The product of two intervals, for the type of the expression.
pub fn mul(t: Elem, a: Interval, b: Interval) -> Out
    ensures raw { result.raw ≡ arithmetic.mul_raw a b }
    ensures result { result.result ≡ rows.typed t (arithmetic.mul_raw a b) }
    ensures sound { laws.IsSound (laws.of_two arithmetic.product_of a b) rows.kept (laws.fits t)
        result.raw result.result }
    ensures best { laws.IsBest (laws.of_two arithmetic.product_of a b) rows.kept result.raw }
    ensures monotone { laws.IsMonotone
        (laws.with_two arithmetic.mul_raw (λ c d. rows.typed t (arithmetic.mul_raw c d)) a b) result.raw
        result.result }
{
    typed(t, mul_bounds(a, b))
}

/// The quotient of two intervals, truncated towards 0, over all divisors but 0, for the type of the
/// expression.
pub fn div(t: Elem, a: Interval, b: Interval) -> Out
    ensures raw { result.raw ≡ arithmetic.div_raw a b }
    ensures result { result.result ≡ rows.typed t (arithmetic.div_raw a b) }
    ensures sound { laws.IsSound (laws.of_division arithmetic.quotient_of a b) rows.kept (laws.fits t)
        result.raw result.result }
    ensures best { laws.IsBest (laws.of_division arithmetic.quotient_of a b) rows.kept result.raw }
    ensures monotone { laws.IsMonotone
        (laws.with_two arithmetic.div_raw (λ c d. rows.typed t (arithmetic.div_raw c d)) a b) result.raw
        result.result }
{
    typed(t, div_bounds(a, b))
}

/// What the truncated quotient leaves, over all divisors but 0.
pub fn modulo(_t: Elem, a: Interval, b: Interval) -> Out
    ensures raw { result.raw ≡ arithmetic.modulo_row a b }
    ensures result { result.result ≡ arithmetic.modulo_row a b }
    ensures sound { laws.IsSound (laws.of_division arithmetic.remainder_of a b) laws.same laws.any
        result.raw result.result }
    ensures monotone { laws.IsMonotone (laws.with_two arithmetic.modulo_row arithmetic.modulo_row a b)
        result.raw result.result }
{
    plain(modulo_bounds(a, b))
}

/// The interval with its sign turned round, for the type of the expression.
pub fn neg(t: Elem, a: Interval) -> Out
    ensures raw { result.raw ≡ arithmetic.neg_raw a }
    ensures result { result.result ≡ rows.typed t (arithmetic.neg_raw a) }
    ensures sound { laws.IsSound (laws.of_one arithmetic.negation_of a) rows.kept (laws.fits t)
        result.raw result.result }
    ensures best { laws.IsBest (laws.of_one arithmetic.negation_of a) rows.kept result.raw }
    ensures monotone { laws.IsMonotone
        (laws.with_one arithmetic.neg_raw (λ c. rows.typed t (arithmetic.neg_raw c)) a) result.raw
        result.result }
{
    typed(t, neg_bounds(a))
}

/// The sizes of an interval's numbers, for the type of the expression.
pub fn abs(t: Elem, a: Interval) -> Out
    ensures raw { result.raw ≡ arithmetic.abs_raw a }
    ensures result { result.result ≡ rows.typed t (arithmetic.abs_raw a) }
    ensures sound { laws.IsSound (laws.of_one arithmetic.size_of a) rows.kept (laws.fits t) result.raw
        result.result }
    ensures best { laws.IsBest (laws.of_one arithmetic.size_of a) rows.kept result.raw }
    ensures monotone { laws.IsMonotone
        (laws.with_one arithmetic.abs_raw (λ c. rows.typed t (arithmetic.abs_raw c)) a) result.raw
        result.result }
{
    typed(t, abs_bounds(a))
}

fn mul_bounds(a: Interval, b: Interval) -> Interval
    ensures value { result ≡ arithmetic.mul_raw a b }
    ensures ordered { intervals.IsOrdered a × intervals.IsOrdered b }
{
    strict!(mul_at, a, b)
}

fn mul_at(a: i128, b: i128, c: i128, d: i128) -> Interval
    ensures { result ≡ arithmetic.mul_at a b c d }
{
    hull_of(
        kept_product(a, c),
        kept_product(a, d),
        kept_product(b, c),
        kept_product(b, d),
    )
}

fn div_bounds(a: Interval, b: Interval) -> Interval
    ensures value { result ≡ arithmetic.div_raw a b }
    ensures ordered { intervals.IsOrdered a × intervals.IsOrdered b }
{
    join(quotients(a, below_zero(b)), quotients(a, above_zero(b)))
}

fn below_zero(i: Interval) -> Interval
    ensures value { result ≡ arithmetic.below_zero i }
    ensures ordered { intervals.IsOrdered i }
    ensures nonzero { intervals.Holds result (pos 0) → ⊥ }
{
    match i.bounds() {
        None => Interval::empty(),
        Some((low, high)) => Interval::of(low, high.min(-1)),
    }
}

fn above_zero(i: Interval) -> Interval
    ensures value { result ≡ arithmetic.above_zero i }
    ensures nonzero { intervals.Holds result (pos 0) → ⊥ }
{
    match i.bounds() {
        None => Interval::empty(),
        Some((low, high)) => Interval::of(low.max(1), high),
    }
}

fn quotients(a: Interval, b: Interval) -> Interval
    requires { intervals.Holds b (pos 0) → ⊥ }
    ensures value { result ≡ arithmetic.quotients a b }
    ensures ordered { intervals.IsOrdered a }
{
    strict!(quotients_at, a, b)
}

fn quotients_at(a: i128, b: i128, c: i128, d: i128) -> Interval
    requires low { c ≢ pos 0 }
    requires high { d ≢ pos 0 }
    ensures { result ≡ arithmetic.quotients_at a b c d }
{
    hull_of(
        kept_quotient(a, c),
        kept_quotient(a, d),
        kept_quotient(b, c),
        kept_quotient(b, d),
    )
}

// The least interval that holds four numbers.
fn hull_of(p: i128, q: i128, r: i128, s: i128) -> Interval
    ensures { result ≡ arithmetic.hull_of p q r s }
{
    Interval::of(p.min(q).min(r.min(s)), p.max(q).max(r.max(s)))
}

// The product, kept in the limit of bounds.
fn kept_product(x: i128, y: i128) -> i128
    ensures { result ≡ rows.kept (arithmetic.product_of x y) }
{
    kept(x.saturating_mul(y))
}

// The quotient, kept in the limit of bounds.
fn kept_quotient(x: i128, y: i128) -> i128
    requires { y ≢ pos 0 }
    ensures { result ≡ rows.kept (arithmetic.quotient_of x y) }
{
    if y == -1 {
        kept_negation(x)
    } else {
        kept(x / y)
    }
}

fn modulo_bounds(a: Interval, b: Interval) -> Interval
    ensures value { result ≡ arithmetic.modulo_row a b }
    ensures ordered { intervals.IsOrdered b }
{
    strict!(modulo_at, a, b)
}

fn modulo_at(a: i128, b: i128, c: i128, d: i128) -> Interval
    ensures { result ≡ arithmetic.modulo_at a b c d }
{
    remainders(a, b, c.unsigned_abs().max(d.unsigned_abs()))
}

// The remainders of the numbers from the low one to the high one, where divisors have at most that size.
fn remainders(low: i128, high: i128, size: u128) -> Interval
    requires { size ≤ 2 ^ 127 }
    ensures { result ≡ arithmetic.remainders low high size }
{
    if size == 0 {
        Interval::empty()
    } else {
        Interval::of(least_remainder(low, size), greatest_remainder(high, size))
    }
}

fn least_remainder(low: i128, size: u128) -> i128
    requires some { 0 < size }
    requires fits { size ≤ 2 ^ 127 }
    ensures { result ≡ arithmetic.least_remainder low size }
{
    if low < 0 {
        low.max(-((size - 1) as i128))
    } else {
        0
    }
}

fn greatest_remainder(high: i128, size: u128) -> i128
    requires some { 0 < size }
    requires fits { size ≤ 2 ^ 127 }
    ensures { result ≡ arithmetic.greatest_remainder high size }
{
    if 0 < high {
        high.min((size - 1) as i128)
    } else {
        0
    }
}

fn neg_bounds(a: Interval) -> Interval
    ensures value { result ≡ arithmetic.neg_raw a }
    ensures ordered { intervals.IsOrdered a }
{
    strict_one!(neg_at, a)
}

fn neg_at(a: i128, b: i128) -> Interval
    requires { a ≤ℤ b }
    ensures { result ≡ arithmetic.neg_at a b }
{
    Interval::ordered(kept_negation(b), kept_negation(a))
}

fn abs_bounds(a: Interval) -> Interval
    ensures value { result ≡ arithmetic.abs_raw a }
    ensures ordered { intervals.IsOrdered a }
{
    strict_one!(abs_at, a)
}

fn abs_at(a: i128, b: i128) -> Interval
    requires { a ≤ℤ b }
    ensures { result ≡ arithmetic.abs_at a b }
{
    Interval::ordered(least_size(a, b), greatest_size(a, b))
}

// The least size of a number from one to another, kept in the limit of bounds.
fn least_size(a: i128, b: i128) -> i128
    ensures { result ≡ rows.kept (arithmetic.least_size a b) }
{
    a.max(kept_negation(b)).max(0)
}

// The greatest one.
fn greatest_size(a: i128, b: i128) -> i128
    ensures { result ≡ rows.kept (arithmetic.greatest_size a b) }
{
    kept_negation(a).max(kept(b))
}

// The number with its sign turned round, kept in the limit of bounds.
fn kept_negation(x: i128) -> i128
    ensures { result ≡ rows.kept (arithmetic.negation_of x) }
{
    kept_difference(0, x)
}
