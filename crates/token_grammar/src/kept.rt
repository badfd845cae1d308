// The tokens that the grammar reads.

ghost use Rattle.std.specs.Prelude.{◌≡◌};
ghost use Rattle.std.specs.List.{filter};
ghost use Rattle.token_grammar.specs.Kept as spec;

use crate::token::{Token, TokenKind};

/// Drops comments and pragmas, in place.
pub fn drop_comments(tokens: &mut Vec<Token>)
    ensures { tokens.new.items ≡ filter spec.is_kept tokens.old.items }
{
    tokens.retain(|token| is_kept(token.kind));
}

fn is_kept(kind: TokenKind) -> bool
    ensures { result ≡ spec.keeps kind }
{
    !matches!(kind, TokenKind::Comment | TokenKind::Pragma)
}
