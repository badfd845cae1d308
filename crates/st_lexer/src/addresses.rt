// Addresses: how long they are.

ghost use Rattle.std.specs.Prelude.{◌≡◌, ◌≤◌, length, IfSome};
ghost use Rattle.st_lexer.specs.Bytes as spec;
ghost use Rattle.st_lexer.specs.Front as fronts;

use crate::bytes::{begins_digit, is_digit};
use iec_tables::letters::raise;

/// The length of what follows the `%` of an address.
#[tactic(auto, unfolding(crate::specs::Front::address_at))]
pub(crate) fn address_at(bytes: &[u8]) -> Option<usize>
    ensures value { result ≡ fronts.address_at bytes.now }
    ensures within { IfSome result (λ n. n ≤ length bytes.now) }
{
    if !begins_area(bytes) {
        return None;
    }
    if begins_size(&bytes[1..]) {
        Some(numbers_at(&bytes[2..])? + 2)
    } else {
        Some(numbers_at(&bytes[1..])? + 1)
    }
}

/// Whether the letter of an area stands at the front.
fn begins_area(bytes: &[u8]) -> bool
    ensures { result ≡ spec.begins fronts.is_area bytes.now }
{
    match bytes.split_first() {
        None => false,
        Some((byte, _)) => {
            let letter = raise(*byte);
            letter == b'I' || letter == b'Q' || letter == b'M'
        }
    }
}

/// Whether the letter of a size stands at the front.
fn begins_size(bytes: &[u8]) -> bool
    ensures { result ≡ spec.begins fronts.is_size bytes.now }
{
    match bytes.split_first() {
        None => false,
        Some((byte, _)) => {
            let letter = raise(*byte);
            letter == b'X' || letter == b'B' || letter == b'W' || letter == b'D' || letter == b'L'
        }
    }
}

/// The length of numbers that are joined by single dots.
pub(crate) fn numbers_at(bytes: &[u8]) -> Option<usize>
    ensures value { result ≡ fronts.numbers_at bytes.now }
    ensures within { IfSome result (λ n. n ≤ length bytes.now) }
{
    if begins_digit(bytes) {
        Some(numbers_length(bytes))
    } else {
        None
    }
}

/// How many bytes are digits, or dots with a digit behind them.
#[tactic(auto, unfolding(crate::specs::Front::numbers_length))]
fn numbers_length(bytes: &[u8]) -> usize
    ensures value { result ≡ fronts.numbers_length bytes.now }
    ensures within { result ≤ length bytes.now }
{
    let mut count = 0;
    let mut rest = bytes;
    'run: while let Some((byte, others)) = rest.split_first() {
        if !is_digit(*byte) && !(*byte == b'.' && begins_digit(others)) {
            return count;
        }
        count += 1;
        rest = others;
    }
    count
}
