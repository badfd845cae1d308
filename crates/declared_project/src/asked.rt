// Numbers of repeat counts, and what places of constants ask.

ghost use Rattle.std.specs.Prelude.{◌≡◌};
ghost use Rattle.declared_project.specs.Surrounding as spec;

use declared_types::ConstantPlace;
use expression_types::{Place, ShapeNo};
use st_lexer::number_value;

/// What the place of a constant asks of an expression.
pub(crate) fn asked(place: ConstantPlace) -> Place
    ensures { result ≡ spec.asked place }
{
    match place {
        ConstantPlace::Any => Place::Any,
        ConstantPlace::Integer => Place::Integer,
        ConstantPlace::Elem(elem) => Place::Elem(elem),
        ConstantPlace::Enumeration(shape) => Place::Shape(shape),
        ConstantPlace::Nothing => Place::Shape(ShapeNo(0)),
    }
}

fn capped(number: u128) -> u32
    ensures { result ≡ spec.capped number }
{
    if number <= 4_294_967_295 {
        number as u32
    } else {
        4_294_967_295
    }
}

/// The number of a repeat count's text, or 2^32 - 1 where it is above.
pub(crate) fn repeat_count(text: &[u8]) -> u32
    ensures { result ≡ spec.repeat_count text.now }
{
    match number_value(text) {
        None => 0,
        Some(number) => capped(number),
    }
}
