// The numbers of literals.

ghost use Rattle.std.specs.Prelude.{◌≡◌};
ghost use Rattle.declared_names.specs.Literals as spec;

use expression_types::TypedNumber;
use st_lexer::{number_value, time_value, typed_value};
use st_tree::Number;

fn sized(negative: bool, size: u128) -> Option<Number>
    ensures { result ≡ spec.sized negative size }
{
    if negative {
        if size <= 9_223_372_036_854_775_808 {
            Some(Number {
                value: -(size as i128),
            })
        } else {
            None
        }
    } else if size <= 18_446_744_073_709_551_615 {
        Some(Number {
            value: size as i128,
        })
    } else {
        None
    }
}

/// The number of a literal, with a minus directly before it or none. None where no type has it.
pub fn literal(negative: bool, text: &[u8]) -> Option<Number>
    ensures { result ≡ spec.literal negative text.now }
{
    match number_value(text) {
        None => None,
        Some(size) => sized(negative, size),
    }
}

/// The type and the number of a typed literal. None where no type has the number.
pub fn typed_literal(text: &[u8]) -> Option<TypedNumber>
    ensures { result ≡ spec.typed_literal text.now }
{
    match typed_value(text) {
        None => None,
        Some(value) => match sized(value.negative, value.size) {
            None => None,
            Some(number) => Some(TypedNumber {
                elem: value.elem,
                number,
            }),
        },
    }
}

/// The milliseconds of a time.
pub fn milliseconds(text: &[u8]) -> Option<Number>
    ensures { result ≡ spec.milliseconds text.now }
{
    match time_value(text) {
        None => None,
        Some(time) => Some(Number {
            value: time as i128,
        }),
    }
}
