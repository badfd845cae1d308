// Why a text or a list of tokens has no tree.

ghost use Rattle.std.specs.Prelude.{◌≡◌};
ghost use Rattle.token_grammar.specs.steps.Parsers.{view};
ghost use Rattle.token_grammar.specs.Kept.{place_at};
ghost use Rattle.st_units.specs.steps.Found.{fault_of};

use iec_tables::fault::FaultCode;
use st_lexer::LexFault;
use station_ports::outside::NoMemory;
use std::alloc::AllocError;
use token_grammar::{Cursor, ParseError};

/// Why nothing was read: a fault and its place in bytes, a fault for which the text isn't cut into
/// tokens, or no memory.
#[derive(Clone, Copy, Debug, PartialEq, Eq)]
pub enum ParseFault {
    /// Grammar at the first token with which the tokens no longer begin what is read, or at the
    /// text's length where none follows;
    /// TooDeep at the first token whose depth is above 256, where the tokens up to and with it
    /// begin what is read.
    At { code: FaultCode, at: usize },
    /// The text isn't cut into tokens. Comes of whole texts alone.
    Lex(LexFault),
    NoMemory,
}

impl From<AllocError> for ParseFault {
    ghost use Rattle.st_units.specs.declared.fault.ParseFault.TheVariants as fault;

    ghost from_gives = { λ _ e. e ≡ fault.NoMemory };

    fn from(_error: AllocError) -> ParseFault {
        ParseFault::NoMemory
    }
}

impl From<NoMemory> for ParseFault {
    ghost use Rattle.st_units.specs.declared.fault.ParseFault.TheVariants as fault;

    ghost from_gives = { λ _ e. e ≡ fault.NoMemory };

    fn from(_error: NoMemory) -> ParseFault {
        ParseFault::NoMemory
    }
}

/// The fault for which a parser read nothing, at the next token or the text's length.
pub(crate) fn fault_at(error: ParseError, text: &[u8], cursor: &Cursor<'_>) -> ParseFault
    ensures { result ≡ fault_of error (place_at text.now (view cursor.now).rest) }
{
    let at = match cursor.rest.split_first() {
        None => text.len(),
        Some((token, _)) => token.start,
    };
    match error {
        ParseError::Memory => ParseFault::NoMemory,
        ParseError::Grammar => ParseFault::At {
            code: FaultCode::Grammar,
            at,
        },
        ParseError::TooDeep => ParseFault::At {
            code: FaultCode::TooDeep,
            at,
        },
    }
}
