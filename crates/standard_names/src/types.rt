// The names of types.
ghost use Rattle.std.specs.Prelude.{◌≡◌, ◌↔◌, IsTrue, Some, map};
ghost use Rattle.std.specs.List.{Contains};
ghost use Rattle.iec_tables.specs.declared.elem.Elem.{Elem};
ghost use Rattle.iec_tables.specs.Types.{name_of};
ghost use Rattle.iec_tables.specs.Words.{raised_all, first_numbers};
ghost use Rattle.standard_names.specs.Types.{left_out_types, IsTypeName};

use iec_tables::elem::Elem;
use iec_tables::words::{Sorted, Word};

macro_rules! words {
    ($($text:literal $number:literal),*) => {
        [$(Word { text: $text, number: $number }),*]
    };
}

pub(crate) use words;

// The types' names in byte order, each with its place in `ELEMS`.
static TYPE_NAMES: [Word; 14] = words![
    b"BOOL" 0, b"BYTE" 1, b"DINT" 2, b"DWORD" 3, b"INT" 4, b"LINT" 5, b"LWORD" 6, b"SINT" 7,
    b"TIME" 8, b"UDINT" 9, b"UINT" 10, b"ULINT" 11, b"USINT" 12, b"WORD" 13
];

static ELEMS: [Elem; 14] = [
    Elem::Bool,
    Elem::Byte,
    Elem::Dint,
    Elem::Dword,
    Elem::Int,
    Elem::Lint,
    Elem::Lword,
    Elem::Sint,
    Elem::Time,
    Elem::Udint,
    Elem::Uint,
    Elem::Ulint,
    Elem::Usint,
    Elem::Word,
];

static LEFT_OUT_TYPES: [Word; 17] = words![
    b"CHAR" 0, b"DATE" 1, b"DATE_AND_TIME" 2, b"DT" 3, b"LDATE" 4, b"LDATE_AND_TIME" 5, b"LDT" 6,
    b"LREAL" 7, b"LTIME" 8, b"LTIME_OF_DAY" 9, b"LTOD" 10, b"REAL" 11, b"STRING" 12,
    b"TIME_OF_DAY" 13, b"TOD" 14, b"WCHAR" 15, b"WSTRING" 16
];

fn type_names() -> Sorted<'static, 14>
    ensures texts { map (λ word. word.text.now) result ≡ map name_of ELEMS }
    ensures numbers { map (λ word. word.number) result ≡ first_numbers 14 }
{
    Sorted::of(&TYPE_NAMES)
}

fn left_out_type_names() -> Sorted<'static, 17>
    ensures { map (λ word. word.text.now) result ≡ left_out_types }
{
    Sorted::of(&LEFT_OUT_TYPES)
}

/// The elementary type of this name, or None where the profile has none.
pub fn elem_named(name: &[u8]) -> Option<Elem>
    ensures { (t : Elem) → (result ≡ Some t) ↔ (name_of t ≡ raised_all name.now) }
{
    match type_names().find(name) {
        Some(number) => ELEMS.get(number as usize).copied(),
        None => None,
    }
}

// Whether the standard has a type of this name that the profile leaves out.
pub(crate) fn is_left_out_type_name(name: &[u8]) -> bool
    ensures { IsTrue result ↔ Contains left_out_types (raised_all name.now) }
{
    left_out_type_names().find(name).is_some()
}

// Whether the standard has a type of this name.
pub(crate) fn is_type_name(name: &[u8]) -> bool
    ensures { IsTrue result ↔ IsTypeName (raised_all name.now) }
{
    elem_named(name).is_some() || is_left_out_type_name(name)
}
