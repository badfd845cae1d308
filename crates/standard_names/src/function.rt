// The standard's functions, by their names.
ghost use Rattle.std.specs.Prelude.{◌≡◌, ◌↔◌, ◌⊎◌, IsTrue, Some, MatchOption, map};
ghost use Rattle.iec_tables.specs.declared.elem.Elem.{Elem};
ghost use Rattle.iec_tables.specs.Words.{raised_all, first_numbers};
ghost use Rattle.standard_names.specs.declared.function.StandardFunction.{StandardFunction};
ghost use Rattle.standard_names.specs.Functions.{function_name, conversion_name, left_out_functions};
ghost use Rattle.standard_names.specs.Functions.{IsFunction, IsPlain, IsFunctionName};
ghost use Rattle.standard_names.specs.Functions.{IsLeftOutFunction, IsLeftOutConversion, IsLeftOutType};
ghost use Rattle.standard_names.specs.Blocks.{IsBlockName};

use crate::block::{is_named, standard_block};
use crate::joint::cut;
use crate::types::{elem_named, is_left_out_type_name, is_type_name, words};
use iec_tables::elem::Elem;
use iec_tables::words::{Sorted, Word};

/// A function of the standard.
#[derive(Clone, Copy, Debug, PartialEq, Eq)]
pub enum StandardFunction {
    Abs,
    Min,
    Max,
    Limit,
    Sel,
    Shl,
    Shr,
    Rol,
    Ror,
    /// From the first type to the second one, which differs from it.
    Convert(Elem, Elem),
}

// The names of the functions that aren't conversions, in byte order, each with its place in `FUNCTIONS`.
static FUNCTION_NAMES: [Word; 9] = words![
    b"ABS" 0, b"LIMIT" 1, b"MAX" 2, b"MIN" 3, b"ROL" 4, b"ROR" 5, b"SEL" 6, b"SHL" 7, b"SHR" 8
];

static FUNCTIONS: [StandardFunction; 9] = [
    StandardFunction::Abs,
    StandardFunction::Limit,
    StandardFunction::Max,
    StandardFunction::Min,
    StandardFunction::Rol,
    StandardFunction::Ror,
    StandardFunction::Sel,
    StandardFunction::Shl,
    StandardFunction::Shr,
];

static LEFT_OUT_FUNCTIONS: [Word; 35] = words![
    b"ACOS" 0, b"ADD" 1, b"ASIN" 2, b"ATAN" 3, b"ATAN2" 4, b"CONCAT" 5, b"COS" 6, b"DELETE" 7,
    b"DIV" 8, b"EQ" 9, b"EXP" 10, b"EXPT" 11, b"FIND" 12, b"GE" 13, b"GT" 14, b"INSERT" 15,
    b"IS_VALID" 16, b"LE" 17, b"LEFT" 18, b"LEN" 19, b"LN" 20, b"LOG" 21, b"LT" 22, b"MID" 23,
    b"MOVE" 24, b"MUL" 25, b"MUX" 26, b"NE" 27, b"REPLACE" 28, b"RIGHT" 29, b"SIN" 30, b"SQRT" 31,
    b"SUB" 32, b"TAN" 33, b"TRUNC" 34
];

fn plain_names() -> Sorted<'static, 9>
    ensures texts { map (λ word. word.text.now) result ≡ map function_name FUNCTIONS }
    ensures numbers { map (λ word. word.number) result ≡ first_numbers 9 }
{
    Sorted::of(&FUNCTION_NAMES)
}

fn left_out_names() -> Sorted<'static, 35>
    ensures { map (λ word. word.text.now) result ≡ left_out_functions }
{
    Sorted::of(&LEFT_OUT_FUNCTIONS)
}

/// The function of the standard of this name, or None where the profile has none. A conversion's name is that of a type,
/// `_TO_` and that of another type.
pub fn standard_function(name: &[u8]) -> Option<StandardFunction>
    ensures { (f : StandardFunction) → (result ≡ Some f) ↔ (IsFunction f × (function_name f ≡ raised_all name.now)) }
{
    match plain_function(name) {
        Some(function) => Some(function),
        None => match conversion(name) {
            Some((from, to)) => Some(StandardFunction::Convert(from, to)),
            None => None,
        },
    }
}

// A function that isn't a conversion.
fn plain_function(name: &[u8]) -> Option<StandardFunction>
    ensures { MatchOption result
        ((f : StandardFunction) → IsPlain f → ¬ (function_name f ≡ raised_all name.now))
        (λ f. IsPlain f × (function_name f ≡ raised_all name.now)) }
{
    match plain_names().find(name) {
        Some(number) => FUNCTIONS.get(number as usize).copied(),
        None => None,
    }
}

// The two different types between which the function of this name converts.
fn conversion(name: &[u8]) -> Option<(Elem, Elem)>
    ensures { MatchOption result
        ((a b : Elem) → ¬ (a ≡ b) → ¬ (conversion_name a b ≡ raised_all name.now))
        (λ pair. ¬ (pair.0 ≡ pair.1) × (conversion_name pair.0 pair.1 ≡ raised_all name.now)) }
{
    match cut(name) {
        Some((from, to)) => different(elem_named(from), elem_named(to)),
        None => None,
    }
}

// Two types, where both are there and differ.
fn different(from: Option<Elem>, to: Option<Elem>) -> Option<(Elem, Elem)>
    ensures { MatchOption result ((a b : Elem) → from ≡ Some a → to ≡ Some b → a ≡ b)
        (λ pair. ¬ (pair.0 ≡ pair.1) × (from ≡ Some pair.0) × (to ≡ Some pair.1)) }
{
    match from {
        Some(from) => match to {
            Some(to) => { if from == to { None } else { Some((from, to)) } },
            None => None,
        },
        None => None,
    }
}

/// Whether a function or a block of the standard has this name.
pub fn is_standard(name: &[u8]) -> bool
    ensures { IsTrue result ↔ (IsFunctionName (raised_all name.now) ⊎ IsBlockName (raised_all name.now)) }
{
    standard_function(name).is_some() || standard_block(name).is_some()
}

/// Whether the standard has a function of this name that the profile leaves out: one of the list, or a conversion between
/// two types of the standard at least one of which is left out.
pub fn is_left_out_function(name: &[u8]) -> bool
    ensures { IsTrue result ↔ IsLeftOutFunction (raised_all name.now) }
{
    left_out_names().find(name).is_some() || is_left_out_conversion(name)
}

fn is_left_out_conversion(name: &[u8]) -> bool
    ensures { IsTrue result ↔ IsLeftOutConversion (raised_all name.now) }
{
    match cut(name) {
        Some((from, to)) => {
            if is_left_out_type_name(from) {
                is_type_name(to)
            } else {
                is_left_out_type_name(to) && is_type_name(from)
            }
        },
        None => false,
    }
}

/// Whether the standard has a type, a block or a function of this name that the profile leaves out. All three count where a
/// type is named.
pub fn is_left_out_type(name: &[u8]) -> bool
    ensures { IsTrue result ↔ IsLeftOutType (raised_all name.now) }
{
    if is_left_out_type_name(name) {
        return true;
    }
    is_named(b"CTUD", name) || is_left_out_function(name)
}
