// Bit patterns of types: how many bits, and what of an interval is patterns.
ghost use Rattle.std.specs.Prelude.{◌≡◌, ◌<◌, ◌≤◌, ◌^◌};
ghost use Rattle.iec_tables.specs.Types.{width_of};
ghost use Rattle.interval_domain.specs.Interval as intervals;
ghost use Rattle.interval_domain.specs.Bits as rows;

use crate::interval::{Interval, meet};
use iec_tables::elem::Elem;
use iec_tables::over_types;

macro_rules! bits_of {
    ($t:expr; $($elem:ident $name:literal $number:ident $bits:literal),*) => {
        match $t {
            $(Elem::$elem => $bits,)*
        }
    };
}

macro_rules! all_of {
    ($($elem:ident $name:literal $number:ident $bits:literal),*) => {
        [$(Elem::$elem),*]
    };
}

/// All types.
pub(crate) const TYPES: [Elem; 14] = over_types!(all_of);

/// How many bits a type has.
pub fn width(t: Elem) -> u32
    ensures value { result ≡ width_of t }
    ensures some { 0 < result }
    ensures few { result ≤ 64 }
{
    over_types!(bits_of, t)
}

/// The number whose bits are all 1.
pub(crate) fn all_ones(t: Elem) -> i128
    ensures { result ≡ rows.all_ones t }
{
    (power(width(t)) - 1) as i128
}

/// The patterns of that many bits as numbers.
pub(crate) fn patterns(width: u32) -> Interval
    requires { width ≤ 64 }
    ensures { result ≡ rows.patterns width }
{
    Interval::of(0, (power(width) - 1) as i128)
}

/// What of an interval is patterns of the type: of one in the range of a bit string, all.
pub(crate) fn patterns_in(t: Elem, i: Interval) -> Interval
    ensures value { result ≡ rows.patterns_in (width_of t) i }
    ensures within { intervals.IsWithin result (rows.bits_range t) }
    ensures words { intervals.IsWithin result rows.words }
{
    meet(i, patterns(width(t)))
}

pub(crate) fn power(k: u32) -> u128
    requires { k ≤ 64 }
    ensures value { result ≡ 2 ^ k }
    ensures bound { result ≤ 2 ^ 64 }
    ensures some { 0 < result }
{
    1 << k
}
