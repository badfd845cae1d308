// Numbers and typed numbers: how long they are, where they stand whole.

ghost use Rattle.std.specs.Prelude.{◌≡◌, ◌≤◌, ◌+◌, ◌*◌, true, length, IfSome};
ghost use Rattle.st_lexer.specs.Faulty as faulty;
ghost use Rattle.st_lexer.specs.Front as fronts;
ghost use Rattle.st_lexer.specs.Bytes as spec;
ghost use Rattle.st_lexer.specs.steps.Readings as readings;

use crate::bytes::{begins_digit, begins_with, word_length, worth};
use crate::words::{is_bool_word, is_truth};

/// The length of the number at the front, where one stands there and nothing goes on with it.
#[tactic(auto, unfolding(crate::specs::Front::number_at))]
pub(crate) fn number_at(bytes: &[u8]) -> Option<usize>
    ensures value { result ≡ fronts.number_at bytes.now }
    ensures within { IfSome result (λ n. n ≤ length bytes.now) }
{
    let length = word_length(bytes);
    match base_of(&bytes[..length]) {
        None => digits_at(10, bytes),
        Some(base) => {
            if begins_with(b'#', &bytes[length..]) {
                let digits = digits_at(base, &bytes[length + 1..])?;
                Some(length + 1 + digits)
            } else {
                digits_at(10, bytes)
            }
        }
    }
}

/// The base that the word is the mark of.
fn base_of(word: &[u8]) -> Option<u8>
    ensures value { result ≡ fronts.base_of word.now }
    ensures small { IfSome result (λ base. base ≤ 16) }
{
    match word {
        [b'2'] => Some(2),
        [b'8'] => Some(8),
        [b'1', b'6'] => Some(16),
        _ => None,
    }
}

/// The length of the digits at the front, where they are a number that ends there.
#[tactic(auto, unfolding(crate::specs::Front::digits_at))]
fn digits_at(base: u8, bytes: &[u8]) -> Option<usize>
    requires { base ≤ 16 }
    ensures value { result ≡ fronts.digits_at base bytes.now }
    ensures within { IfSome result (λ n. n ≤ length bytes.now) }
{
    let length = word_length(bytes);
    if is_numeral(base, &bytes[..length]) && !is_fraction(&bytes[length..]) {
        Some(length)
    } else {
        None
    }
}

/// Whether a dot and a digit stand at the front.
fn is_fraction(bytes: &[u8]) -> bool
    ensures { result ≡ faulty.is_fraction bytes.now }
{
    match bytes.split_first() {
        None => false,
        Some((byte, others)) => *byte == b'.' && begins_digit(others),
    }
}

/// Whether the bytes are digits in the base, single underscores between them, of a number below 2^128.
fn is_numeral(base: u8, bytes: &[u8]) -> bool
    requires { base ≤ 16 }
    ensures { result ≡ fronts.goes_on base true 0 bytes.now }
{
    read_numeral(base, bytes).is_some()
}

/// The number that the bytes are, where they are digits in the base, single underscores between them,
/// of a number below 2^128.
#[tactic(auto, unfolding(crate::specs::Front::goes_on))]
fn read_numeral(base: u8, bytes: &[u8]) -> Option<u128>
    requires { base ≤ 16 }
    ensures { result ≡ readings.read_numeral base bytes.now }
{
    let mut after = true;
    let mut value = 0u128;
    let mut rest = bytes;
    'digit: while let Some((byte, others)) = rest.split_first() {
        if *byte == b'_' {
            if after {
                return None;
            }
            after = true;
        } else {
            let digit = worth(*byte);
            if digit >= base {
                return None;
            }
            value = one_more(base, value, digit)?;
            after = false;
        }
        rest = others;
    }
    if after { None } else { Some(value) }
}

/// The value of a text that is a number as a whole.
#[tactic(auto, unfolding(crate::specs::steps::Readings::read_number))]
pub(crate) fn read_number(text: &[u8]) -> Option<u128>
    ensures { result ≡ readings.read_number text.now }
{
    match text {
        [b'2', b'#', digits @ ..] => read_numeral(2, digits),
        [b'8', b'#', digits @ ..] => read_numeral(8, digits),
        [b'1', b'6', b'#', digits @ ..] => read_numeral(16, digits),
        _ => read_numeral(10, text),
    }
}

/// The value with one more digit, where it stays below 2^128.
fn one_more(base: u8, value: u128, digit: u8) -> Option<u128>
    ensures { result ≡ fronts.small (value * base + digit) }
{
    value.checked_mul(base as u128)?.checked_add(digit as u128)
}

/// The length of what follows the word of a type and a `#`.
#[tactic(auto, unfolding(crate::specs::Front::typed_at))]
pub(crate) fn typed_at(word: &[u8], bytes: &[u8]) -> Option<usize>
    ensures value { result ≡ fronts.typed_at word.now bytes.now }
    ensures within { IfSome result (λ n. n ≤ length bytes.now) }
{
    let length = word_length(bytes);
    if is_bool_word(word) && is_truth(&bytes[..length]) {
        Some(length)
    } else {
        signed_at(bytes)
    }
}

fn signed_at(bytes: &[u8]) -> Option<usize>
    ensures value { result ≡ fronts.signed_at bytes.now }
    ensures within { IfSome result (λ n. n ≤ length bytes.now) }
{
    match bytes.split_first() {
        Some((b'+' | b'-', digits)) => Some(number_at(digits)? + 1),
        _ => number_at(bytes),
    }
}
