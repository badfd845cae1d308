// What is still to be read of a list of tokens.

ghost use Rattle.std.specs.Prelude.{◌≡◌, ◌+◌, ◌≤◌, ◌-◌, OnOk, take, drop};
ghost use Rattle.token_grammar.specs.Kinds as kinds;
ghost use Rattle.token_grammar.specs.steps.Parsers as spec;
ghost use Rattle.token_grammar.specs.steps.Parsers.{ReadsAs, view};
ghost use Rattle.token_grammar.specs.Texts.{lexeme};

use crate::fault::ParseError;
use crate::token::{Token, TokenKind};

/// How deep a text may nest.
pub const MAX_DEPTH: usize = 256;

/// The tokens that are still to be read of a text.
#[derive(Drop)]
pub struct Cursor<'t> {
    pub text: &'t [u8],
    pub rest: &'t [Token],
    /// The end of the last token that was read, in bytes.
    pub last: usize,
    /// How deep the next token stands.
    pub depth: usize,
}

impl<'t> Cursor<'t> {
    /// Whether the next token is of this kind.
    pub fn sees(&self, kind: TokenKind) -> bool
        ensures { result ≡ spec.sees_in kind (view self.now).rest }
    {
        match self.rest.split_first() {
            None => false,
            Some((token, _)) => same_kind(token.kind, kind),
        }
    }

    /// Whether the token after the next is of this kind.
    pub fn sees_second(&self, kind: TokenKind) -> bool
        ensures { result ≡ spec.second_in kind (view self.now).rest }
    {
        match self.rest.split_first() {
            None => false,
            Some((_, rest)) => match rest.split_first() {
                None => false,
                Some((token, _)) => same_kind(token.kind, kind),
            },
        }
    }

    /// Whether the second token after the next is of this kind.
    pub fn sees_third(&self, kind: TokenKind) -> bool
        ensures { result ≡ spec.third_in kind (view self.now).rest }
    {
        match self.rest.split_first() {
            None => false,
            Some((_, others)) => match others.split_first() {
                None => false,
                Some((_, last)) => match last.split_first() {
                    None => false,
                    Some((token, _)) => same_kind(token.kind, kind),
                },
            },
        }
    }

    /// The first byte of the next token, or the end of the last one.
    pub fn start(&self) -> usize
        ensures { result ≡ spec.start (view self.now) }
    {
        match self.rest.split_first() {
            None => self.last,
            Some((token, _)) => token.start,
        }
    }

    // A token of this kind stands `own` deeper than what is around it, and what follows is `more` deeper.
    fn take_as(&mut self, kind: TokenKind, own: usize, more: usize) -> Result<Token, ParseError>
        requires own { own ≤ 1 }
        requires more { more ≤ 1 }
        ensures text { self.new.text ≡ self.old.text }
        ensures within { OnOk result (self.new.depth ≤ 256 + more) }
        ensures reads { ReadsAs (lexeme self.old.text.now) (spec.take_as (kinds.is_kind kind) own more (view self.old)) result (view self.new) }
    {
        match self.rest.split_first() {
            None => Err(ParseError::Grammar),
            Some((token, rest)) => {
                if !same_kind(token.kind, kind) {
                    return Err(ParseError::Grammar);
                }
                if self.depth > MAX_DEPTH || self.depth + own > MAX_DEPTH {
                    return Err(ParseError::TooDeep);
                }
                self.rest = rest;
                self.last = token.end;
                self.depth += more;
                Ok(*token)
            }
        }
    }

    /// Takes a token of this kind.
    pub fn take(&mut self, kind: TokenKind) -> Result<Token, ParseError>
        ensures text { self.new.text ≡ self.old.text }
        ensures within { OnOk result (self.new.depth ≤ 256) }
        ensures reads { ReadsAs (lexeme self.old.text.now) (spec.take kind (view self.old)) result (view self.new) }
    {
        self.take_as(kind, 0, 0)
    }

    /// Takes a token of this kind, from which on the text is one deeper.
    pub fn enter(&mut self, kind: TokenKind) -> Result<Token, ParseError>
        ensures text { self.new.text ≡ self.old.text }
        ensures reads { ReadsAs (lexeme self.old.text.now) (spec.enter kind (view self.old)) result (view self.new) }
    {
        self.take_as(kind, 1, 1)
    }

    /// Takes an operator of this kind, after which the text is one deeper.
    pub fn operator(&mut self, kind: TokenKind) -> Result<Token, ParseError>
        ensures text { self.new.text ≡ self.old.text }
        ensures reads { ReadsAs (lexeme self.old.text.now) (spec.operator kind (view self.old)) result (view self.new) }
    {
        self.take_as(kind, 0, 1)
    }

    /// The byte behind a token of this text, if there is one.
    pub fn behind(&self, token: Token) -> &'t [u8]
        ensures { result.now ≡ (lexeme self.now.text.now token).behind }
    {
        let text = self.text;
        let from = &text[token.end.min(text.len())..];
        &from[..from.len().min(1)]
    }

    /// The bytes of a token of this text.
    pub fn bytes(&self, token: Token) -> &'t [u8]
        ensures { result.now ≡ (lexeme self.now.text.now token).bytes }
    {
        let text = self.text;
        let from = &text[token.start.min(text.len())..];
        let length = token.end.saturating_sub(token.start);
        &from[..length.min(from.len())]
    }
}

fn same_kind(a: TokenKind, b: TokenKind) -> bool
    ensures { result ≡ kinds.same_kind a b }
{
    a as u8 == b as u8
}
