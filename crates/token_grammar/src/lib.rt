//! Tokens, the cursor that parsers read them with, and the grammar that they meet.
#![tactic(auto)]

mod cursor;
mod fault;
mod kept;
mod token;

pub use cursor::{Cursor, MAX_DEPTH};
pub use fault::ParseError;
pub use kept::drop_comments;
pub use token::{Token, TokenKind, Tokens};
