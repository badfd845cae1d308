// Marks: delimiters and operators.

ghost use Rattle.std.specs.Prelude.{◌≡◌};
ghost use Rattle.st_lexer.specs.Front as fronts;

use token_grammar::TokenKind;

/// The mark of these two bytes.
#[tactic(auto, unfolding(crate::specs::Front::long_mark))]
pub(crate) fn long_mark(first: u8, second: u8) -> Option<TokenKind>
    ensures { result ≡ fronts.long_mark first second }
{
    match (first, second) {
        (b':', b'=') => Some(TokenKind::Becomes),
        (b'=', b'>') => Some(TokenKind::Arrow),
        (b'<', b'=') => Some(TokenKind::LessEqual),
        (b'>', b'=') => Some(TokenKind::GreaterEqual),
        (b'<', b'>') => Some(TokenKind::NotEqual),
        (b'*', b'*') => Some(TokenKind::Power),
        (b'.', b'.') => Some(TokenKind::DotDot),
        _ => None,
    }
}

/// The mark of this byte.
#[tactic(auto, unfolding(crate::specs::Front::short_mark))]
pub(crate) fn short_mark(first: u8) -> Option<TokenKind>
    ensures { result ≡ fronts.short_mark first }
{
    match first {
        b'=' => Some(TokenKind::Equal),
        b'<' => Some(TokenKind::Less),
        b'>' => Some(TokenKind::Greater),
        b'+' => Some(TokenKind::Plus),
        b'-' => Some(TokenKind::Minus),
        b'*' => Some(TokenKind::Star),
        b'/' => Some(TokenKind::Slash),
        b'&' => Some(TokenKind::Ampersand),
        b'(' => Some(TokenKind::OpenParenthesis),
        b')' => Some(TokenKind::CloseParenthesis),
        b'[' => Some(TokenKind::OpenBracket),
        b']' => Some(TokenKind::CloseBracket),
        b',' => Some(TokenKind::Comma),
        b';' => Some(TokenKind::Semicolon),
        b':' => Some(TokenKind::Colon),
        b'.' => Some(TokenKind::Dot),
        b'#' => Some(TokenKind::Hash),
        _ => None,
    }
}
