// What stands at the front of a text: a token, or a fault.

ghost use Rattle.std.specs.Prelude.{◌≡◌, ◌<◌, ◌+◌, ◌^◌, length, IfSome};
ghost use Rattle.st_lexer.specs.Front as fronts;

use crate::addresses::address_at;
use crate::bytes::{Lead, begins_with, lead_of, line_length, word_length};
use crate::comments::{Style, comment_length, pragma_length};
use crate::marks::{long_mark, short_mark};
use crate::numbers::{number_at, typed_at};
use crate::times::time_at;
use crate::words::{is_spaced, is_time_word, is_type_word, word_kind};
use iec_tables::fault::FaultCode;
use token_grammar::TokenKind;

/// What stands at the front: a token of a kind and its length in bytes, or a fault.
#[derive(Clone, Copy, Debug, PartialEq, Eq)]
pub(crate) enum Found {
    Token(TokenKind, usize),
    Fault(FaultCode),
}

/// What stands at the front of these bytes, of which there is one at least.
#[tactic(auto, unfolding(crate::specs::Front::front))]
pub(crate) fn front(bytes: &[u8]) -> Found
    ensures { result ≡ fronts.front bytes.now }
{
    match bytes.split_first() {
        None => Found::Fault(FaultCode::BadByte),
        Some((byte, rest)) => match lead_of(*byte) {
            Lead::Letter => {
                let length = word_length(bytes);
                word_at(length, &bytes[..length], &bytes[length..])
            }
            Lead::Digit => token_or(FaultCode::BadNumber, TokenKind::Number, number_at(bytes)),
            Lead::Percent => token_behind(
                FaultCode::BadByte,
                TokenKind::Address,
                1,
                address_at(rest),
            ),
            Lead::Brace => token_behind(
                FaultCode::OpenComment,
                TokenKind::Pragma,
                1,
                pragma_length(rest),
            ),
            Lead::Parenthesis => at_parenthesis(rest),
            Lead::Slash => at_slash(rest),
            Lead::Other => mark_at(*byte, rest),
        },
    }
}

/// A token of that length, or a fault where there is none.
fn token_or(code: FaultCode, kind: TokenKind, size: Option<usize>) -> Found
    ensures { result ≡ fronts.token_or code kind size }
{
    match size {
        None => Found::Fault(code),
        Some(size) => Found::Token(kind, size),
    }
}

/// A token of so many bytes and of that length behind them, or a fault where there is none.
fn token_behind(code: FaultCode, kind: TokenKind, before: usize, size: Option<usize>) -> Found
    requires { IfSome size (λ n. before + n < 2 ^ 64) }
    ensures { result ≡ fronts.token_or code kind (fronts.longer before size) }
{
    match size {
        None => Found::Fault(code),
        Some(size) => Found::Token(kind, before + size),
    }
}

/// What a word begins, of that length and before that rest.
#[tactic(auto, unfolding(crate::specs::Front::word_at))]
fn word_at(size: usize, word: &[u8], rest: &[u8]) -> Found
    requires { size + length rest.now < 2 ^ 63 }
    ensures { result ≡ fronts.word_at size word.now rest.now }
{
    if begins_with(b'#', rest) {
        if is_type_word(word) {
            return token_behind(
                FaultCode::BadNumber,
                TokenKind::TypedNumber,
                size + 1,
                typed_at(word, &rest[1..]),
            );
        }
        if is_time_word(word) {
            return token_behind(
                FaultCode::BadNumber,
                TokenKind::Duration,
                size + 1,
                time_at(&rest[1..]),
            );
        }
    }
    if is_spaced(word) {
        Found::Token(word_kind(word), size)
    } else {
        Found::Fault(FaultCode::BadName)
    }
}

/// What stands at a `(` before that rest.
fn at_parenthesis(rest: &[u8]) -> Found
    ensures { result ≡ fronts.at_parenthesis rest.now }
{
    if begins_with(b'*', rest) {
        comment_at(Style::Parentheses, &rest[1..])
    } else {
        mark_at(b'(', rest)
    }
}

/// What stands at a `/` before that rest.
fn at_slash(rest: &[u8]) -> Found
    ensures { result ≡ fronts.at_slash rest.now }
{
    if begins_with(b'/', rest) {
        Found::Token(TokenKind::Comment, 2 + line_length(&rest[1..]))
    } else if begins_with(b'*', rest) {
        comment_at(Style::Slashes, &rest[1..])
    } else {
        mark_at(b'/', rest)
    }
}

/// A comment whose opening mark stands before these bytes.
fn comment_at(style: Style, bytes: &[u8]) -> Found
    ensures { result ≡ fronts.comment_at style bytes.now }
{
    token_behind(
        FaultCode::OpenComment,
        TokenKind::Comment,
        2,
        comment_length(style, bytes),
    )
}

/// The longest mark at that byte before that rest.
fn mark_at(first: u8, rest: &[u8]) -> Found
    ensures { result ≡ fronts.mark_at first rest.now }
{
    let long = match rest.split_first() {
        None => None,
        Some((second, _)) => long_mark(first, *second),
    };
    match long {
        Some(kind) => Found::Token(kind, 2),
        None => match short_mark(first) {
            Some(kind) => Found::Token(kind, 1),
            None => Found::Fault(FaultCode::BadByte),
        },
    }
}
