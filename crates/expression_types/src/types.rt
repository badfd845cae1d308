// Groups of elementary types, and the type that two have in common.

ghost use Rattle.std.specs.Prelude.{◌≡◌};
ghost use Rattle.expression_types.specs.Types as spec;

use iec_tables::elem::{Elem, converts, high, low};

/// Whether the number is one of the type.
pub(crate) fn is_in(t: Elem, number: i128) -> bool
    ensures { result ≡ spec.in_range t number }
{
    low(t) <= number && number <= high(t)
}

pub(crate) fn is_integer(t: Elem) -> bool
    ensures { result ≡ spec.is_integer t }
{
    match t {
        Elem::Sint | Elem::Int | Elem::Dint | Elem::Lint => true,
        Elem::Usint | Elem::Uint | Elem::Udint | Elem::Ulint => true,
        _ => false,
    }
}

/// BOOL and the bit strings.
pub(crate) fn is_bits(t: Elem) -> bool
    ensures { result ≡ spec.is_bits t }
{
    match t {
        Elem::Bool | Elem::Byte | Elem::Word | Elem::Dword | Elem::Lword => true,
        _ => false,
    }
}

/// The bit strings, without BOOL.
pub(crate) fn is_bit_string(t: Elem) -> bool
    ensures { result ≡ spec.is_bit_string t }
{
    match t {
        Elem::Byte | Elem::Word | Elem::Dword | Elem::Lword => true,
        _ => false,
    }
}

/// Integers and TIME.
pub(crate) fn is_counted(t: Elem) -> bool
    ensures { result ≡ spec.is_counted t }
{
    match t {
        Elem::Time => true,
        _ => is_integer(t),
    }
}

pub(crate) static ORDER: [Elem; 14] = [
    Elem::Sint,
    Elem::Usint,
    Elem::Int,
    Elem::Uint,
    Elem::Dint,
    Elem::Udint,
    Elem::Lint,
    Elem::Ulint,
    Elem::Byte,
    Elem::Word,
    Elem::Dword,
    Elem::Lword,
    Elem::Bool,
    Elem::Time,
];

/// The first of the types to which both convert.
fn first_common(types: &[Elem], a: Elem, b: Elem) -> Option<Elem>
    ensures { result ≡ spec.first_that (spec.takes_both a b) types.now }
{
    match types {
        [] => None,
        [first, rest @ ..] => {
            if converts(a, *first) && converts(b, *first) {
                Some(*first)
            } else {
                first_common(rest, a, b)
            }
        }
    }
}

/// The first type to which both convert, each signed integer before the unsigned one of its width,
/// narrow ones first, then bit strings, BOOL and TIME.
pub fn common(a: Elem, b: Elem) -> Option<Elem>
    ensures { result ≡ spec.common a b }
{
    first_common(&ORDER, a, b)
}
