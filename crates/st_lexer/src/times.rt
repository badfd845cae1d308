// Times: how long they are, where they stand whole.

ghost use Rattle.std.specs.Prelude.{◌≡◌, ◌≤◌, ◌<◌, ◌^◌, ◌+◌, ℕ, ◌-◌, length, IfSome};
ghost use Rattle.st_lexer.specs.Front as fronts;
ghost use Rattle.st_lexer.specs.steps.Readings as readings;

use crate::bytes::{
    begins_with, begins_word_byte, digits_length, is_digit, letters_length, word_length,
};
use crate::words::is_time_word;

/// A part of a time: its length in bytes, the milliseconds of its unit and its own, and whether no further part may follow, since it has a fraction.
#[derive(Clone, Copy, Debug, PartialEq, Eq)]
pub(crate) struct Part {
    pub length: usize,
    pub size: u128,
    pub value: u128,
    pub last: bool,
}

/// More than the milliseconds of each unit.
const ABOVE_UNITS: u128 = 86_400_001;

/// What the digits of a part must stay below.
const LIMIT: u128 = 1 << 100;

/// The length of what follows the `#` of a time.
#[tactic(auto, unfolding(crate::specs::Front::time_at))]
pub(crate) fn time_at(bytes: &[u8]) -> Option<usize>
    ensures value { result ≡ fronts.time_at bytes.now }
    ensures within { IfSome result (λ n. n ≤ length bytes.now) }
{
    match bytes.split_first() {
        Some((b'-', parts)) => Some(parts_at(ABOVE_UNITS, 1 << 63, parts)? + 1),
        _ => parts_at(ABOVE_UNITS, (1 << 63) - 1, bytes),
    }
}

/// The length of the parts at the front: units are below `above` and fall, and the sum is `left` at most.
#[tactic(auto, unfolding(crate::specs::Front::parts_at))]
fn parts_at(above: u128, left: u128, bytes: &[u8]) -> Option<usize>
    ensures value { (n : ℕ) → length bytes.now < n → result ≡ fronts.parts_at n above left bytes.now }
    ensures within { IfSome result (λ n. n ≤ length bytes.now) }
{
    let part = part_at(bytes)?;
    if part.size >= above || part.value > left {
        return None;
    }
    let rest = &bytes[part.length..];
    if !begins_word_byte(rest) {
        return Some(part.length);
    }
    if part.last {
        return None;
    }
    let next = part.length + link_length(rest);
    let more = parts_at(part.size, left - part.value, &bytes[next..])?;
    Some(next + more)
}

/// The milliseconds of a text that is a time as a whole.
#[tactic(auto, unfolding(crate::specs::steps::Readings::read_time))]
pub(crate) fn read_time(text: &[u8]) -> Option<i64>
    ensures { result ≡ readings.read_time text.now }
{
    let length = word_length(text);
    if is_time_word(&text[..length]) {
        behind_word(&text[length..])
    } else {
        None
    }
}

/// The milliseconds of what follows the `T` or `TIME` of a time.
fn behind_word(rest: &[u8]) -> Option<i64>
    ensures { result ≡ readings.behind_word rest.now }
{
    match rest {
        [b'#', b'-', parts @ ..] => read_negative(parts),
        [b'#', parts @ ..] => read_positive(parts),
        _ => None,
    }
}

/// The milliseconds of parts behind a minus.
fn read_negative(parts: &[u8]) -> Option<i64>
    ensures { result ≡ readings.as_negative (readings.whole_parts (2 ^ 63) parts.now) }
{
    let size = read_parts(ABOVE_UNITS, 1 << 63, parts)?;
    Some((-(size as i128)) as i64)
}

/// The milliseconds of parts without a minus.
fn read_positive(parts: &[u8]) -> Option<i64>
    ensures { result ≡ readings.as_positive (readings.whole_parts (2 ^ 63 - 1) parts.now) }
{
    let size = read_parts(ABOVE_UNITS, (1 << 63) - 1, parts)?;
    Some(size as i64)
}

/// The milliseconds of bytes that are parts as a whole: units are below `above` and fall, and the
/// sum is `left` at most.
#[tactic(auto, unfolding(crate::specs::steps::Readings::read_parts))]
fn read_parts(above: u128, left: u128, bytes: &[u8]) -> Option<u128>
    ensures value { (n : ℕ) → length bytes.now < n → result ≡ readings.read_parts n above left bytes.now }
    ensures small { IfSome result (λ sum. sum ≤ left) }
{
    let part = part_at(bytes)?;
    if part.size >= above || part.value > left {
        return None;
    }
    let rest = &bytes[part.length..];
    if rest.is_empty() {
        return Some(part.value);
    }
    if part.last {
        return None;
    }
    let further = &rest[link_length(rest)..];
    let more = read_parts(part.size, left - part.value, further)?;
    Some(part.value + more)
}

/// The length of an underscore at the front, or of nothing.
fn link_length(bytes: &[u8]) -> usize
    ensures value { result ≡ fronts.link_length bytes.now }
    ensures within { result ≤ length bytes.now }
{
    if begins_with(b'_', bytes) { 1 } else { 0 }
}

/// The part at the front.
#[tactic(auto, unfolding(crate::specs::Front::part_at))]
fn part_at(bytes: &[u8]) -> Option<Part>
    ensures value { result ≡ fronts.part_at bytes.now }
    ensures within { IfSome result (λ p. p.length ≤ length bytes.now) }
    ensures some { IfSome result (λ p. 0 < p.length) }
{
    let whole = digits_length(bytes);
    let point = fraction_at(&bytes[whole..])?;
    let digits = whole + point;
    let letters = letters_length(&bytes[digits..]);
    let size = unit_size(&bytes[digits..digits + letters])?;
    let value = value_of(&bytes[..digits])?;
    part_of(whole, point, letters, size, value)
}

/// A part of these lengths, of this unit and this value of all its digits, where it is a whole number of milliseconds.
fn part_of(whole: usize, point: usize, letters: usize, size: u128, value: u128) -> Option<Part>
    requires lengths { whole + point + letters < 2 ^ 64 }
    requires point { point ≤ 10 }
    requires size { size ≤ 86400000 }
    requires value { value < 2 ^ 100 }
    ensures { result ≡ fronts.part_of whole point letters size value }
{
    let scale = 10u128.pow(point.saturating_sub(1) as u32);
    let scaled = value * size;
    if whole == 0 || scaled % scale != 0 {
        return None;
    }
    Some(Part {
        length: whole + point + letters,
        size,
        value: scaled / scale,
        last: point > 0,
    })
}

/// The length of a dot and one digit to nine, or of no fraction.
fn fraction_at(bytes: &[u8]) -> Option<usize>
    ensures value { result ≡ fronts.fraction_at bytes.now }
    ensures within { IfSome result (λ n. n ≤ length bytes.now) }
    ensures short { IfSome result (λ n. n ≤ 10) }
{
    match bytes.split_first() {
        Some((b'.', digits)) => {
            let count = digits_length(digits);
            if count > 0 && count <= 9 {
                Some(count + 1)
            } else {
                None
            }
        }
        _ => Some(0),
    }
}

/// The milliseconds of a unit.
#[tactic(auto, unfolding(crate::specs::Front::unit_size))]
fn unit_size(letters: &[u8]) -> Option<u128>
    ensures value { result ≡ fronts.unit_size letters.now }
    ensures small { IfSome result (λ size. size ≤ 86400000) }
{
    match letters {
        [b'd' | b'D'] => Some(86_400_000),
        [b'h' | b'H'] => Some(3_600_000),
        [b'm' | b'M'] => Some(60_000),
        [b's' | b'S'] => Some(1_000),
        [b'm' | b'M', b's' | b'S'] => Some(1),
        _ => None,
    }
}

/// The number that the digits are, as long as it stays below the limit; a dot is passed over.
#[tactic(auto, unfolding(crate::specs::Front::value_on))]
fn value_of(bytes: &[u8]) -> Option<u128>
    ensures value { result ≡ fronts.value_on 0 bytes.now }
    ensures small { IfSome result (λ value. value < 2 ^ 100) }
{
    let mut value = 0;
    let mut rest = bytes;
    'digit: while let Some((byte, others)) = rest.split_first() {
        if is_digit(*byte) {
            let more = value * 10 + (*byte - b'0') as u128;
            if more >= LIMIT {
                return None;
            }
            value = more;
        }
        rest = others;
    }
    Some(value)
}
