// Lists of what one function reads: one after the other, or with commas between them.

ghost use Rattle.std.specs.Prelude.{◌≡◌};
ghost use Rattle.token_grammar.specs.steps.Parsers.{Parser, Reads, ReadsTo, view};
ghost use Rattle.st_declarations.specs.steps.Parse as spec;

use std::alloc::Global;
use token_grammar::{Cursor, ParseError, TokenKind};
use tree_items::Items;

/// What reads the trees of a rule.
pub trait Reader<T> {
    ghost parser: { Self → Parser T };

    /// What has to hold of it before it reads.
    ghost ready: { Self → Type 0 };

    /// The tree that the next tokens spell.
    fn read(&self, alloc: Global, cursor: &mut Cursor<'_>) -> Result<T, ParseError>
        requires { ready self.now }
        ensures { Reads (parser self.now (view cursor.old)) result (view cursor.new) };
}

/// A further one.
#[tactic(auto, unfolding(crate::specs::steps::Parse::more))]
pub fn more<T: Drop, R: Reader<T>>(
    alloc: Global,
    cursor: &mut Cursor<'_>,
    reader: &R,
    found: &mut Items<T>,
) -> Result<(), ParseError>
    requires { R.ready reader.now }
    ensures { ReadsTo (spec.more (R.parser reader.now) found.old (view cursor.old)) result found.new
        (view cursor.new) }
{
    found.push(reader.read(alloc, cursor)?)?;
    Ok(())
}

/// `{ one }`, as long as a token of the kind comes next.
#[tactic(auto, unfolding(crate::specs::steps::Parse::each))]
pub fn each<T: Drop, R: Reader<T>>(
    alloc: Global,
    cursor: &mut Cursor<'_>,
    kind: TokenKind,
    reader: &R,
) -> Result<Items<T>, ParseError>
    requires { R.ready reader.now }
    ensures { Reads (spec.each kind (R.parser reader.now) (view cursor.old)) result (view cursor.new) }
{
    let mut found = Items::new(alloc);
    for _turn in 0..cursor.rest.len() {
        if !cursor.sees(kind) {
            return Ok(found);
        }
        more(alloc, cursor, reader, &mut found)?;
    }
    Ok(found)
}

/// `"," one`
#[tactic(auto, unfolding(crate::specs::steps::Parse::more_behind, crate::specs::steps::Parse::more))]
fn more_behind<T: Drop, R: Reader<T>>(
    alloc: Global,
    cursor: &mut Cursor<'_>,
    reader: &R,
    found: &mut Items<T>,
) -> Result<(), ParseError>
    requires { R.ready reader.now }
    ensures { ReadsTo (spec.more_behind (R.parser reader.now) found.old (view cursor.old)) result
        found.new (view cursor.new) }
{
    cursor.take(TokenKind::Comma)?;
    more(alloc, cursor, reader, found)
}

/// `one { "," one }`
#[tactic(auto, unfolding(crate::specs::steps::Parse::commas, crate::specs::steps::Parse::more))]
pub fn commas<T: Drop, R: Reader<T>>(
    alloc: Global,
    cursor: &mut Cursor<'_>,
    reader: &R,
) -> Result<Items<T>, ParseError>
    requires { R.ready reader.now }
    ensures { Reads (spec.commas (R.parser reader.now) (view cursor.old)) result (view cursor.new) }
{
    let mut found = Items::new(alloc);
    more(alloc, cursor, reader, &mut found)?;
    for _turn in 0..cursor.rest.len() {
        if !cursor.sees(TokenKind::Comma) {
            return Ok(found);
        }
        more_behind(alloc, cursor, reader, &mut found)?;
    }
    Ok(found)
}
