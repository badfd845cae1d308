// Tokens that stand for themselves: names, addresses and the texts of literals.

ghost use Rattle.std.specs.Prelude.{◌≡◌};
ghost use Rattle.token_grammar.specs.steps.Parsers.{Reads, ReadsTo, view};
ghost use Rattle.st_tree.specs.Places as places;
ghost use Rattle.st_expr.specs.steps.Parse as spec;

use st_tree::{Address, Identifier, Node, NodeNo};
use station_ports::texts::Name;
use std::alloc::Global;
use token_grammar::{Cursor, ParseError, TokenKind};
use tree_items::Items;

/// A node from its first byte to the byte after its last. It has the number 0 until the whole tree is numbered.
pub fn node_at(start: usize, end: usize) -> Node
    ensures { result ≡ places.node_at start end }
{
    Node {
        number: NodeNo(0),
        start,
        end,
    }
}

/// The bytes of a token of this kind.
#[tactic(auto, unfolding(crate::specs::steps::Parse::word))]
pub fn word(alloc: Global, cursor: &mut Cursor<'_>, kind: TokenKind) -> Result<Name, ParseError>
    ensures { Reads (spec.word kind (view cursor.old)) result (view cursor.new) }
{
    let token = cursor.take(kind)?;
    Ok(Name::from_vec(cursor.bytes(token).to_vec(alloc)?))
}

/// A name.
#[tactic(auto, unfolding(crate::specs::steps::Parse::identifier))]
pub fn identifier(alloc: Global, cursor: &mut Cursor<'_>) -> Result<Identifier, ParseError>
    ensures { Reads (spec.identifier (view cursor.old)) result (view cursor.new) }
{
    let start = cursor.start();
    let name = word(alloc, cursor, TokenKind::Name)?;
    Ok(Identifier {
        node: node_at(start, cursor.last),
        name,
    })
}

/// An address.
#[tactic(auto, unfolding(crate::specs::steps::Parse::address))]
pub fn address(alloc: Global, cursor: &mut Cursor<'_>) -> Result<Address, ParseError>
    ensures { Reads (spec.address (view cursor.old)) result (view cursor.new) }
{
    let start = cursor.start();
    let name = word(alloc, cursor, TokenKind::Address)?;
    Ok(Address {
        node: node_at(start, cursor.last),
        name,
    })
}

/// `"," name`
#[tactic(auto, unfolding(crate::specs::steps::Parse::more_names))]
fn more_names(
    alloc: Global,
    cursor: &mut Cursor<'_>,
    found: &mut Items<Identifier>,
) -> Result<(), ParseError>
    ensures { ReadsTo (spec.more_names found.old (view cursor.old)) result found.new (view cursor.new) }
{
    cursor.take(TokenKind::Comma)?;
    found.push(identifier(alloc, cursor)?)?;
    Ok(())
}

/// `name { "," name }`
#[tactic(auto, unfolding(crate::specs::steps::Parse::names))]
pub fn name_list(alloc: Global, cursor: &mut Cursor<'_>) -> Result<Items<Identifier>, ParseError>
    ensures { Reads (spec.names (view cursor.old)) result (view cursor.new) }
{
    let mut found = Items::new(alloc);
    found.push(identifier(alloc, cursor)?)?;
    for _turn in 0..cursor.rest.len() {
        if !cursor.sees(TokenKind::Comma) {
            return Ok(found);
        }
        more_names(alloc, cursor, &mut found)?;
    }
    Ok(found)
}
