// Initial values. A value within another's brackets takes its parser as a parameter, so that each
// rule is proved by itself.

ghost use Rattle.std.specs.Prelude.{◌≡◌};
ghost use Rattle.token_grammar.specs.steps.Parsers.{Reads, sees_two, sees_three, view};
ghost use Rattle.token_grammar.specs.declared.token.TokenKind.TheVariants as kind;
ghost use Rattle.st_declarations.specs.steps.Parse as spec;
ghost use Rattle.st_declarations.specs.steps.Nests.{Nests};

use crate::lists::{Reader, commas};
use st_expr::{NEST, any_expression, identifier, node_at, or_drop, word};
use st_tree::{FieldInit, Init, Item};
use std::alloc::Global;
use token_grammar::{Cursor, ParseError, TokenKind};
use tree_items::Items;

/// What initial values are read with.
#[derive(Clone, Copy)]
struct Values<F> {
    alloc: Global,
    /// How deep initial values may still nest.
    nest: usize,
    /// The parser of the values within.
    init: F,
}

/// Whether a number and `(` come next.
fn sees_repeated(cursor: &Cursor<'_>) -> bool
    ensures { result ≡ sees_two kind.Number kind.OpenParenthesis (view cursor.now).rest }
{
    cursor.sees(TokenKind::Number) && cursor.sees_second(TokenKind::OpenParenthesis)
}

/// Whether `(`, a name and `:=` come next.
fn sees_structure(cursor: &Cursor<'_>) -> bool
    ensures { result ≡ sees_three kind.OpenParenthesis kind.Name kind.Becomes (view cursor.now).rest }
{
    cursor.sees(TokenKind::OpenParenthesis)
        && (cursor.sees_second(TokenKind::Name) && cursor.sees_third(TokenKind::Becomes))
}

impl<F: Fn(Global, &mut Cursor<'_>, usize) -> Result<Init, ParseError>> Values<F> {
    /// An initial value within another.
    fn value(&self, cursor: &mut Cursor<'_>) -> Result<Init, ParseError>
        requires { Nests spec.init_within self.now.nest (F.pre self.now.init) (F.post self.now.init) }
        ensures { Reads (spec.init_within self.now.nest (view cursor.old)) result (view cursor.new) }
    {
        (self.init)(self.alloc, cursor, self.nest)
    }

    /// `number "(" init ")"`
    #[tactic(auto, unfolding(crate::specs::steps::Parse::repeated_item))]
    fn repeated_item(&self, cursor: &mut Cursor<'_>) -> Result<Item, ParseError>
        requires { Nests spec.init_within self.now.nest (F.pre self.now.init) (F.post self.now.init) }
        ensures { Reads (spec.repeated_item (spec.init_within self.now.nest) (view cursor.old)) result
            (view cursor.new) }
    {
        let start = cursor.start();
        let count = word(self.alloc, cursor, TokenKind::Number)?;
        let depth = cursor.depth;
        or_drop!(cursor.enter(TokenKind::OpenParenthesis); count);
        let value = or_drop!(self.value(cursor); count);
        or_drop!(cursor.take(TokenKind::CloseParenthesis); count, value);
        cursor.depth = depth;
        Ok(Item::Repeated(node_at(start, cursor.last), count, value))
    }

    /// `init | number "(" init ")"`
    #[tactic(auto, unfolding(crate::specs::steps::Parse::one_item))]
    fn one_item(&self, cursor: &mut Cursor<'_>) -> Result<Item, ParseError>
        requires { Nests spec.init_within self.now.nest (F.pre self.now.init) (F.post self.now.init) }
        ensures { Reads (spec.one_item (spec.init_within self.now.nest) (view cursor.old)) result
            (view cursor.new) }
    {
        if sees_repeated(cursor) {
            self.repeated_item(cursor)
        } else {
            Ok(Item::One(self.value(cursor)?))
        }
    }

    /// `"[" item { "," item } "]"`
    #[tactic(auto, unfolding(crate::specs::steps::Parse::elements))]
    fn elements(&self, cursor: &mut Cursor<'_>) -> Result<Init, ParseError>
        requires { Nests spec.init_within self.now.nest (F.pre self.now.init) (F.post self.now.init) }
        ensures { Reads (spec.elements (spec.init_within self.now.nest) (view cursor.old)) result
            (view cursor.new) }
    {
        let start = cursor.start();
        let depth = cursor.depth;
        cursor.enter(TokenKind::OpenBracket)?;
        let found: Items<Item> = commas(self.alloc, cursor, self)?;
        or_drop!(cursor.take(TokenKind::CloseBracket); found);
        cursor.depth = depth;
        Ok(Init::Array(node_at(start, cursor.last), found))
    }

    /// `name ":=" init`
    #[tactic(auto, unfolding(crate::specs::steps::Parse::field_init))]
    fn field_init(&self, cursor: &mut Cursor<'_>) -> Result<FieldInit, ParseError>
        requires { Nests spec.init_within self.now.nest (F.pre self.now.init) (F.post self.now.init) }
        ensures { Reads (spec.field_init (spec.init_within self.now.nest) (view cursor.old)) result
            (view cursor.new) }
    {
        let start = cursor.start();
        let name = identifier(self.alloc, cursor)?;
        or_drop!(cursor.take(TokenKind::Becomes); name);
        let value = or_drop!(self.value(cursor); name);
        Ok(FieldInit {
            node: node_at(start, cursor.last),
            name,
            value,
        })
    }

    /// `"(" name ":=" init { "," name ":=" init } ")"`
    #[tactic(auto, unfolding(crate::specs::steps::Parse::structure))]
    fn structure(&self, cursor: &mut Cursor<'_>) -> Result<Init, ParseError>
        requires { Nests spec.init_within self.now.nest (F.pre self.now.init) (F.post self.now.init) }
        ensures { Reads (spec.structure (spec.init_within self.now.nest) (view cursor.old)) result
            (view cursor.new) }
    {
        let start = cursor.start();
        let depth = cursor.depth;
        cursor.enter(TokenKind::OpenParenthesis)?;
        let found: Items<FieldInit> = commas(self.alloc, cursor, self)?;
        or_drop!(cursor.take(TokenKind::CloseParenthesis); found);
        cursor.depth = depth;
        Ok(Init::Structure(node_at(start, cursor.last), found))
    }

    /// `expr | "[" item { "," item } "]" | "(" name ":=" init { "," name ":=" init } ")"`
    #[tactic(auto, unfolding(crate::specs::steps::Parse::any_init))]
    fn any_init(&self, cursor: &mut Cursor<'_>) -> Result<Init, ParseError>
        requires { Nests spec.init_within self.now.nest (F.pre self.now.init) (F.post self.now.init) }
        ensures { Reads (spec.any_init (spec.init_within self.now.nest) (view cursor.old)) result
            (view cursor.new) }
    {
        if cursor.sees(TokenKind::OpenBracket) {
            self.elements(cursor)
        } else if sees_structure(cursor) {
            self.structure(cursor)
        } else {
            Ok(Init::Value(any_expression(self.alloc, cursor)?))
        }
    }
}

impl<F: Fn(Global, &mut Cursor<'_>, usize) -> Result<Init, ParseError>> Reader<Item> for Values<F> {
    ghost parser = { λ v. spec.one_item (spec.init_within v.nest) };

    ghost ready = { λ v. Nests spec.init_within v.nest (F.pre v.init) (F.post v.init) };

    fn read(&self, _alloc: Global, cursor: &mut Cursor<'_>) -> Result<Item, ParseError> {
        self.one_item(cursor)
    }
}

impl<F: Fn(Global, &mut Cursor<'_>, usize) -> Result<Init, ParseError>> Reader<FieldInit>
    for Values<F> {
    ghost parser = { λ v. spec.field_init (spec.init_within v.nest) };

    ghost ready = { λ v. Nests spec.init_within v.nest (F.pre v.init) (F.post v.init) };

    fn read(&self, _alloc: Global, cursor: &mut Cursor<'_>) -> Result<FieldInit, ParseError> {
        self.field_init(cursor)
    }
}

/// An initial value in which initial values nest less deep than the number.
fn init_at(alloc: Global, cursor: &mut Cursor<'_>, nest: usize) -> Result<Init, ParseError>
    ensures { Reads (spec.init_within nest (view cursor.old)) result (view cursor.new) }
{
    if nest == 0 {
        return Err(ParseError::TooDeep);
    }
    Values {
        alloc,
        nest: nest - 1,
        init: init_at,
    }
    .any_init(cursor)
}

/// An initial value.
#[tactic(auto, unfolding(crate::specs::steps::Parse::initial))]
pub fn initial(alloc: Global, cursor: &mut Cursor<'_>) -> Result<Init, ParseError>
    ensures { Reads (spec.initial (view cursor.old)) result (view cursor.new) }
{
    init_at(alloc, cursor, NEST)
}

/// `":=" init`
#[tactic(auto, unfolding(crate::specs::steps::Parse::becomes))]
fn becomes(alloc: Global, cursor: &mut Cursor<'_>) -> Result<Option<Init>, ParseError>
    ensures { Reads (spec.becomes (view cursor.old)) result (view cursor.new) }
{
    cursor.take(TokenKind::Becomes)?;
    Ok(Some(initial(alloc, cursor)?))
}

/// `[ ":=" init ]`
#[tactic(auto, unfolding(crate::specs::steps::Parse::optional_init))]
pub fn optional_init(alloc: Global, cursor: &mut Cursor<'_>) -> Result<Option<Init>, ParseError>
    ensures { Reads (spec.optional_init (view cursor.old)) result (view cursor.new) }
{
    if cursor.sees(TokenKind::Becomes) {
        becomes(alloc, cursor)
    } else {
        Ok(None)
    }
}
