// The values of numbers, typed numbers, times and addresses.

ghost use Rattle.std.specs.Prelude.{◌≡◌, ◌<◌, ◌^◌, IfSome, IsSome};
ghost use Rattle.token_grammar.specs.declared.token.TokenKind.TheVariants as kind;
ghost use Rattle.st_lexer.specs.Texts.{IsNumber, IsTyped, IsAddress};
ghost use Rattle.st_lexer.specs.Times.{IsTime};
ghost use Rattle.st_lexer.specs.Values as spec;
ghost use Rattle.st_lexer.specs.ValueLaws as laws;
ghost use Rattle.st_lexer.specs.steps.Readings as readings;

use crate::addresses::numbers_at;
use crate::bytes::word_length;
use crate::numbers::read_number;
use crate::times::read_time;
use crate::words::{is_same, named_type};
use iec_tables::elem::Elem;
use iec_tables::letters::raise;

/// The value of a typed number: the type that is named before the `#`, whether a minus is written,
/// and the number behind it; TRUE is 1 and FALSE is 0. It may lie outside the range of the type.
#[derive(Clone, Copy, Debug, PartialEq, Eq)]
pub struct TypedValue {
    pub elem: Elem,
    pub negative: bool,
    pub size: u128,
}

/// The area of an address: inputs (I), outputs (Q) or memory (M).
#[derive(Clone, Copy, Debug, PartialEq, Eq)]
pub enum Area {
    Input,
    Output,
    Memory,
}

/// The width of the variable at an address: 1 bit (X, also where no letter is written), 8 (B),
/// 16 (W), 32 (D) or 64 bits (L).
#[derive(Clone, Copy, Debug, PartialEq, Eq)]
pub enum Width {
    Bit,
    Byte,
    Word,
    DoubleWord,
    LongWord,
}

impl Width {
    /// The bit string type of this width, which a variable at an address has where no type is
    /// declared.
    pub fn elem(self) -> Elem
        ensures { result ≡ spec.elem_of self }
    {
        match self {
            Width::Bit => Elem::Bool,
            Width::Byte => Elem::Byte,
            Width::Word => Elem::Word,
            Width::DoubleWord => Elem::Dword,
            Width::LongWord => Elem::Lword,
        }
    }
}

/// The parts of an address: its area, its width, and its numbers as they are written, which are
/// decimal digits with single dots between the numbers, of any length. What tells an address from
/// others is its text with the letters raised: `%I1`, `%IX1` and `%IX01` are three.
#[derive(Clone, Copy, Debug, PartialEq, Eq)]
pub struct AddressValue<'t> {
    pub area: Area,
    pub width: Width,
    pub numbers: &'t [u8],
}

/// The value of a number; none where the text isn't one.
pub fn number_value(text: &[u8]) -> Option<u128>
    ensures value { IfSome result (λ value. spec.IsNumberValue text.now value) }
    ensures some { IsNumber text.now → IsSome result }
    ensures reading { result ≡ readings.read_number text.now }
{
    read_number(text)
}

/// The value of a typed number; none where the text isn't one.
pub fn typed_value(text: &[u8]) -> Option<TypedValue>
    ensures value { IfSome result (λ value. spec.IsTypedValue text.now value) }
    ensures some { IsTyped text.now → IsSome result }
    ensures reading { result ≡ readings.read_typed text.now }
{
    read_typed(text)
}

/// The milliseconds of a time; none where the text isn't one.
pub fn time_value(text: &[u8]) -> Option<i64>
    ensures value { IfSome result (λ value. spec.IsTimeValue text.now value) }
    ensures some { IsTime text.now → IsSome result }
    ensures reading { result ≡ readings.read_time text.now }
{
    read_time(text)
}

/// The parts of an address; none where the text isn't one.
pub fn address_value<'t>(text: &'t [u8]) -> Option<AddressValue<'t>>
    ensures value { IfSome result
        (λ value. spec.IsAddressValue text.now value.area value.width value.numbers.now) }
    ensures some { IsAddress text.now → IsSome result }
    ensures reading { readings.address_parts result ≡ readings.read_address text.now }
{
    read_address(text)
}

/// The number of that size, with a minus or none; none where the size is 2^127 or more, so that the
/// number is outside each type.
pub fn with_sign(negative: bool, size: u128) -> Option<i128>
    ensures value { IfSome result (λ number. number ≡ spec.with_sign negative size) }
    ensures some { size < 2 ^ 127 → IsSome result }
{
    if size >= 1 << 127 {
        return None;
    }
    let number = size as i128;
    Some(if negative { -number } else { number })
}

/// Each number, typed number, time and address has exactly one value and no other text has one; each
/// token of a cut has the text of its kind, so that each token of these four kinds has a value.
pub fn value_laws()
    ensures texts { laws.TokensHaveTexts }
    ensures digits { laws.DigitsByPlaces }
    ensures numbers { laws.HaveOneValue IsNumber spec.IsNumberValue }
    ensures number_tokens { laws.TokensHaveValues kind.Number IsNumber spec.IsNumberValue }
    ensures numbers_small { laws.NumbersSmall }
    ensures typed { laws.HaveOneValue IsTyped spec.IsTypedValue }
    ensures typed_tokens { laws.TokensHaveValues kind.TypedNumber IsTyped spec.IsTypedValue }
    ensures times { laws.HaveOneValue IsTime spec.IsTimeValue }
    ensures time_tokens { laws.TokensHaveValues kind.Duration IsTime spec.IsTimeValue }
    ensures times_in_range { laws.TimesInRange }
    ensures addresses { laws.HaveOneValue IsAddress laws.IsAddressWith }
    ensures address_tokens { laws.TokensHaveValues kind.Address IsAddress laws.IsAddressWith }
{}

/// The value of a text that is a typed number as a whole.
#[tactic(auto, unfolding(crate::specs::steps::Readings::read_typed))]
fn read_typed(text: &[u8]) -> Option<TypedValue>
    ensures { result ≡ readings.read_typed text.now }
{
    let length = word_length(text);
    let elem = named_type(&text[..length])?;
    match &text[length..] {
        [b'#', rest @ ..] => behind_type(elem, rest),
        _ => None,
    }
}

/// The value that stands behind a type and `#`: a truth value, or a number with a sign or none.
#[tactic(auto, unfolding(crate::specs::steps::Readings::behind_type))]
fn behind_type(elem: Elem, rest: &[u8]) -> Option<TypedValue>
    ensures { result ≡ readings.behind_type elem rest.now }
{
    match read_truth(elem, rest) {
        Some(size) => Some(TypedValue {
            elem,
            negative: false,
            size,
        }),
        None => read_signed(elem, rest),
    }
}

/// The number of TRUE or FALSE behind BOOL.
fn read_truth(elem: Elem, word: &[u8]) -> Option<u128>
    ensures { result ≡ readings.read_truth elem word.now }
{
    if elem != Elem::Bool {
        return None;
    }
    if is_same(word, b"TRUE") {
        Some(1)
    } else if is_same(word, b"FALSE") {
        Some(0)
    } else {
        None
    }
}

/// A number with a sign or none.
fn read_signed(elem: Elem, bytes: &[u8]) -> Option<TypedValue>
    ensures { result ≡ readings.read_signed elem bytes.now }
{
    match bytes {
        [b'-', digits @ ..] => of_type(elem, true, digits),
        [b'+', digits @ ..] => of_type(elem, false, digits),
        _ => of_type(elem, false, bytes),
    }
}

/// A number with that sign, of a type.
fn of_type(elem: Elem, negative: bool, digits: &[u8]) -> Option<TypedValue>
    ensures { result ≡ readings.of_type elem negative (readings.read_number digits.now) }
{
    Some(TypedValue {
        elem,
        negative,
        size: read_number(digits)?,
    })
}

/// The parts of a text that is an address as a whole.
fn read_address<'t>(text: &'t [u8]) -> Option<AddressValue<'t>>
    ensures { readings.address_parts result ≡ readings.read_address text.now }
{
    match text {
        [b'%', area, rest @ ..] => read_width(area_by_letter(*area)?, rest),
        _ => None,
    }
}

/// The address in that area of a width or none and numbers.
fn read_width<'t>(area: Area, bytes: &'t [u8]) -> Option<AddressValue<'t>>
    ensures { readings.address_parts result ≡ readings.read_width area bytes.now }
{
    match bytes.split_first() {
        None => None,
        Some((first, numbers)) => match width_by_letter(*first) {
            Some(width) => read_numbers(area, width, numbers),
            None => read_numbers(area, Width::Bit, bytes),
        },
    }
}

/// The address of these numbers, where they are some.
fn read_numbers<'t>(area: Area, width: Width, numbers: &'t [u8]) -> Option<AddressValue<'t>>
    ensures { readings.address_parts result ≡ readings.read_numbers area width numbers.now }
{
    match numbers_at(numbers) {
        Some(length) if length == numbers.len() => Some(AddressValue {
            area,
            width,
            numbers,
        }),
        _ => None,
    }
}

/// The area of a letter.
fn area_by_letter(letter: u8) -> Option<Area>
    ensures { result ≡ readings.area_by_letter letter }
{
    match raise(letter) {
        b'I' => Some(Area::Input),
        b'Q' => Some(Area::Output),
        b'M' => Some(Area::Memory),
        _ => None,
    }
}

/// The width of a letter.
fn width_by_letter(letter: u8) -> Option<Width>
    ensures { result ≡ readings.width_by_letter letter }
{
    match raise(letter) {
        b'X' => Some(Width::Bit),
        b'B' => Some(Width::Byte),
        b'W' => Some(Width::Word),
        b'D' => Some(Width::DoubleWord),
        b'L' => Some(Width::LongWord),
        _ => None,
    }
}
