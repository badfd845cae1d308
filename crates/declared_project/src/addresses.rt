// The types of variables at addresses.

ghost use Rattle.std.specs.Prelude.{◌≡◌};
ghost use Rattle.declared_project.specs.Addresses as spec;

use iec_tables::elem::Elem;
use st_lexer::{Width, address_value};

fn is_byte(elem: Elem) -> bool
    ensures { result ≡ spec.is_byte elem }
{
    match elem {
        Elem::Sint => true,
        Elem::Usint => true,
        Elem::Byte => true,
        _ => false,
    }
}

fn is_word(elem: Elem) -> bool
    ensures { result ≡ spec.is_word elem }
{
    match elem {
        Elem::Int => true,
        Elem::Uint => true,
        Elem::Word => true,
        _ => false,
    }
}

fn is_double_word(elem: Elem) -> bool
    ensures { result ≡ spec.is_double_word elem }
{
    match elem {
        Elem::Dint => true,
        Elem::Udint => true,
        Elem::Dword => true,
        _ => false,
    }
}

fn is_long_word(elem: Elem) -> bool
    ensures { result ≡ spec.is_long_word elem }
{
    match elem {
        Elem::Lint => true,
        Elem::Ulint => true,
        Elem::Lword => true,
        _ => false,
    }
}

fn is_bit(elem: Elem) -> bool
    ensures { result ≡ spec.is_bit elem }
{
    match elem {
        Elem::Bool => true,
        _ => false,
    }
}

fn holds(width: Width, elem: Elem) -> bool
    ensures { result ≡ spec.holds width elem }
{
    match width {
        Width::Bit => is_bit(elem),
        Width::Byte => is_byte(elem),
        Width::Word => is_word(elem),
        Width::DoubleWord => is_double_word(elem),
        Width::LongWord => is_long_word(elem),
    }
}

/// Whether an address holds a variable of a type: an integer or bit type of the address's size.
pub(crate) fn address_holds(address: &[u8], elem: Elem) -> bool
    ensures { result ≡ spec.address_holds address.now elem }
{
    match address_value(address) {
        None => false,
        Some(parts) => holds(parts.width, elem),
    }
}
