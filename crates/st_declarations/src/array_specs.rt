// What a declaration says of the type. A spec within an array's takes its parser as a parameter, so
// that each rule is proved by itself.

ghost use Rattle.std.specs.Prelude.{◌≡◌, IfOk};
ghost use Rattle.token_grammar.specs.steps.Parsers.{Reads, view};
ghost use Rattle.st_tree.specs.declared.declaration.Spec.TheVariants as trees;
ghost use Rattle.st_declarations.specs.steps.Parse as spec;
ghost use Rattle.st_declarations.specs.steps.Nests.{Nests};

use crate::type_names::{enumeration, plain_spec, ranges};
use st_expr::{NEST, node_at, or_drop};
use st_tree::{Node, Range, Spec};
use std::alloc::{AllocError, Global};
use token_grammar::{Cursor, ParseError, TokenKind};
use tree_items::{Boxed, Items};

/// What specs are read with.
#[derive(Clone, Copy)]
struct Specs<F> {
    alloc: Global,
    /// How deep specs may still nest.
    nest: usize,
    /// The parser of the specs within.
    spec: F,
}

fn array_of(
    alloc: Global,
    node: Node,
    ranges: Items<Range>,
    inner: Spec,
) -> Result<Spec, AllocError>
    ensures { IfOk result (λ s. s ≡ trees.Array node ranges inner) }
{
    Ok(Spec::Array(node, ranges, Boxed::new(alloc, inner)?))
}

impl<F: Fn(Global, &mut Cursor<'_>, usize) -> Result<Spec, ParseError>> Specs<F> {
    /// `ARRAY "[" range { "," range } "]" OF spec`
    #[tactic(auto, unfolding(crate::specs::steps::Parse::array))]
    fn array(&self, cursor: &mut Cursor<'_>) -> Result<Spec, ParseError>
        requires { Nests spec.spec_within self.now.nest (F.pre self.now.spec) (F.post self.now.spec) }
        ensures { Reads (spec.array (spec.spec_within self.now.nest) (view cursor.old)) result
            (view cursor.new) }
    {
        let start = cursor.start();
        let depth = cursor.depth;
        cursor.enter(TokenKind::Array)?;
        let found = ranges(self.alloc, cursor)?;
        or_drop!(cursor.take(TokenKind::Of); found);
        let inner = or_drop!((self.spec)(self.alloc, cursor, self.nest); found);
        cursor.depth = depth;
        let node = node_at(start, cursor.last);
        Ok(array_of(self.alloc, node, found, inner)?)
    }

    /// `typename [ "(" range ")" ] | "(" names ")" | ARRAY "[" range { "," range } "]" OF spec`
    #[tactic(auto, unfolding(crate::specs::steps::Parse::any_spec))]
    fn any_spec(&self, cursor: &mut Cursor<'_>) -> Result<Spec, ParseError>
        requires { Nests spec.spec_within self.now.nest (F.pre self.now.spec) (F.post self.now.spec) }
        ensures { Reads (spec.any_spec (spec.spec_within self.now.nest) (view cursor.old)) result
            (view cursor.new) }
    {
        if cursor.sees(TokenKind::Array) {
            self.array(cursor)
        } else if cursor.sees(TokenKind::OpenParenthesis) {
            enumeration(self.alloc, cursor)
        } else {
            plain_spec(self.alloc, cursor)
        }
    }
}

/// A spec in which specs nest less deep than the number.
fn spec_at(alloc: Global, cursor: &mut Cursor<'_>, nest: usize) -> Result<Spec, ParseError>
    ensures { Reads (spec.spec_within nest (view cursor.old)) result (view cursor.new) }
{
    if nest == 0 {
        return Err(ParseError::TooDeep);
    }
    Specs {
        alloc,
        nest: nest - 1,
        spec: spec_at,
    }
    .any_spec(cursor)
}

/// What a declaration says of the type.
#[tactic(auto, unfolding(crate::specs::steps::Parse::spec))]
pub fn spec(alloc: Global, cursor: &mut Cursor<'_>) -> Result<Spec, ParseError>
    ensures { Reads (spec.spec (view cursor.old)) result (view cursor.new) }
{
    spec_at(alloc, cursor, NEST)
}
