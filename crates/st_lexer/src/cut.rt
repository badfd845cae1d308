// The tokens of a whole text, or its first fault.

ghost use Rattle.std.specs.Prelude.{◌≡◌, ◌≤◌, length};
ghost use Rattle.st_lexer.specs.Cut as cuts;
ghost use Rattle.st_lexer.specs.Laws as laws;
ghost use Rattle.st_lexer.specs.Answers.{Answers};

use crate::bytes::is_white;
use crate::front::{Found, front};
use iec_tables::fault::FaultCode;
use std::alloc::{AllocError, Global};
use std::str;
use token_grammar::{Token, Tokens};

/// Why a text isn't cut: a fault and its place in bytes, or no memory.
#[derive(Clone, Copy, Debug, PartialEq, Eq)]
pub enum LexFault {
    At { code: FaultCode, at: usize },
    NoMemory,
}

impl From<AllocError> for LexFault {
    ghost use Rattle.st_lexer.specs.declared.cut.LexFault.TheVariants as faults;

    ghost from_gives = { λ _ e. e ≡ faults.NoMemory };

    fn from(_: AllocError) -> Self {
        LexFault::NoMemory
    }
}

/// The tokens of the text, in its order, or its first fault: that it isn't UTF-8, at the end of its longest front that is; else the one that is met
/// first when the text is cut from its start. White space (space, tab, carriage return, line feed, and a byte order mark at the start) stands between tokens;
/// comments and pragmas are tokens.
pub fn tokens<'t>(alloc: Global, text: &'t [u8]) -> Result<Tokens<'t>, LexFault>
    ensures answers { Answers text.now result }
{
    if let Err(error) = str::from_utf8(text) {
        return Err(LexFault::At {
            code: FaultCode::NotUtf8,
            at: error.valid_up_to(),
        });
    }
    let mut list = Vec::new(alloc);
    let mut at = mark_length(text);
    'cut: while at < text.len() {
        if is_white(text[at]) {
            at += 1;
        } else {
            match front(&text[at..]) {
                Found::Fault(code) => return Err(LexFault::At { code, at }),
                Found::Token(kind, length) => {
                    let token = Token {
                        kind,
                        start: at,
                        end: at + length,
                    };
                    list.push(token).map_err(AllocError::from)?;
                    at += length;
                }
            }
        }
    }
    Ok(Tokens { text, list })
}

/// The length of a byte order mark at the start of a text, or 0.
fn mark_length(text: &[u8]) -> usize
    ensures value { result ≡ cuts.mark_length text.now }
    ensures within { result ≤ length text.now }
{
    match text {
        [239, 187, 191, ..] => 3,
        _ => 0,
    }
}

/// Each text has exactly one cut or exactly one fault, and where they stand is a place of the text.
pub fn cut_laws()
    ensures some { laws.SomeCut }
    ensures one_cut { laws.OneCut }
    ensures one_fault { laws.OneFault }
    ensures not_both { laws.NotBoth }
    ensures tokens_in { laws.TokensIn }
    ensures fault_in { laws.FaultIn }
{}
