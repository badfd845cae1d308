// Expressions. The rules that hold expressions take the parser of those as a parameter, so that each is proved by itself.

ghost use Rattle.std.specs.Prelude.{◌≡◌, IfOk};
ghost use Rattle.token_grammar.specs.steps.Parsers.{Reads, ReadsTo, sees_two, view};
ghost use Rattle.token_grammar.specs.declared.token.TokenKind.TheVariants as kind;
ghost use Rattle.st_tree.specs.declared.expression.Expr.TheVariants as trees;
ghost use Rattle.st_tree.specs.declared.expression.UnaryOperator.TheVariants as unary;
ghost use Rattle.st_tree.specs.Places as places;
ghost use Rattle.st_expr.specs.steps.Parse as spec;
ghost use Rattle.st_expr.specs.steps.Nests.{Nests};

use crate::names::{identifier, node_at, word};
use crate::or_drop;
use crate::rank::{operators, rank_of, sees_operator};
use st_tree::{Argument, BinaryOperator, Expr, Identifier, Node, Path, Root, UnaryOperator};
use std::alloc::{AllocError, Global};
use token_grammar::{Cursor, ParseError, TokenKind};
use tree_items::{Boxed, Items};

/// What the rules are read with.
#[derive(Clone, Copy)]
pub struct Grammar<F> {
    pub alloc: Global,
    /// How deep expressions may still nest.
    pub nest: usize,
    /// The parser of the expressions within.
    pub expr: F,
}

fn binary(
    alloc: Global,
    node: Node,
    operator: BinaryOperator,
    left: Boxed<Expr>,
    right: Boxed<Expr>,
) -> Result<Boxed<Expr>, AllocError>
    ensures { IfOk result (λ e. e ≡ trees.Binary node operator left right) }
{
    Boxed::new(alloc, Expr::Binary(node, operator, left, right))
}

fn unary(
    alloc: Global,
    node: Node,
    operator: UnaryOperator,
    operand: Boxed<Expr>,
) -> Result<Boxed<Expr>, AllocError>
    ensures { IfOk result (λ e. e ≡ trees.Unary node operator operand) }
{
    Boxed::new(alloc, Expr::Unary(node, operator, operand))
}

/// Whether a name and `:=` come next.
fn sees_named(cursor: &Cursor<'_>) -> bool
    ensures { result ≡ sees_two kind.Name kind.Becomes (view cursor.now).rest }
{
    cursor.sees(TokenKind::Name) && cursor.sees_second(TokenKind::Becomes)
}

/// A number.
#[tactic(auto, unfolding(crate::specs::steps::Parse::number))]
fn number(alloc: Global, cursor: &mut Cursor<'_>) -> Result<Boxed<Expr>, ParseError>
    ensures { Reads (spec.number (view cursor.old)) result (view cursor.new) }
{
    let start = cursor.start();
    let text = word(alloc, cursor, TokenKind::Number)?;
    let node = node_at(start, cursor.last);
    Ok(Boxed::new(alloc, Expr::Number(node, false, text))?)
}

/// A typed number.
#[tactic(auto, unfolding(crate::specs::steps::Parse::typed))]
fn typed(alloc: Global, cursor: &mut Cursor<'_>) -> Result<Boxed<Expr>, ParseError>
    ensures { Reads (spec.typed (view cursor.old)) result (view cursor.new) }
{
    let start = cursor.start();
    let text = word(alloc, cursor, TokenKind::TypedNumber)?;
    let node = node_at(start, cursor.last);
    Ok(Boxed::new(alloc, Expr::Typed(node, text))?)
}

/// A time.
#[tactic(auto, unfolding(crate::specs::steps::Parse::time))]
fn time(alloc: Global, cursor: &mut Cursor<'_>) -> Result<Boxed<Expr>, ParseError>
    ensures { Reads (spec.time (view cursor.old)) result (view cursor.new) }
{
    let start = cursor.start();
    let text = word(alloc, cursor, TokenKind::Duration)?;
    let node = node_at(start, cursor.last);
    Ok(Boxed::new(alloc, Expr::Time(node, text))?)
}

/// `TRUE` or `FALSE`.
#[tactic(auto, unfolding(crate::specs::steps::Parse::truth))]
fn truth(
    alloc: Global,
    cursor: &mut Cursor<'_>,
    kind: TokenKind,
    value: bool,
) -> Result<Boxed<Expr>, ParseError>
    ensures { Reads (spec.truth kind value (view cursor.old)) result (view cursor.new) }
{
    let start = cursor.start();
    cursor.take(kind)?;
    let node = node_at(start, cursor.last);
    Ok(Boxed::new(alloc, Expr::Truth(node, value))?)
}

impl<F: Fn(Global, &mut Cursor<'_>, usize) -> Result<Boxed<Expr>, ParseError>> Grammar<F> {
    /// An expression within another form.
    pub fn expr(&self, cursor: &mut Cursor<'_>) -> Result<Boxed<Expr>, ParseError>
        requires { Nests self.now.nest (F.pre self.now.expr) (F.post self.now.expr) }
        ensures { Reads (spec.nested self.now.nest (view cursor.old)) result (view cursor.new) }
    {
        (self.expr)(self.alloc, cursor, self.nest)
    }

    /// `name ":=" expr`
    #[tactic(auto, unfolding(crate::specs::steps::Parse::named_argument))]
    fn named_argument(
        &self,
        cursor: &mut Cursor<'_>,
    ) -> Result<(Option<Identifier>, Boxed<Expr>), ParseError>
        requires { Nests self.now.nest (F.pre self.now.expr) (F.post self.now.expr) }
        ensures { Reads (spec.named_argument (spec.nested self.now.nest) (view cursor.old)) result (view cursor.new) }
    {
        let name = identifier(self.alloc, cursor)?;
        or_drop!(cursor.take(TokenKind::Becomes); name);
        let value = or_drop!(self.expr(cursor); name);
        Ok((Some(name), value))
    }

    /// `[ name ":=" ] expr`
    #[tactic(auto, unfolding(crate::specs::steps::Parse::argument))]
    fn argument(&self, cursor: &mut Cursor<'_>) -> Result<Argument, ParseError>
        requires { Nests self.now.nest (F.pre self.now.expr) (F.post self.now.expr) }
        ensures { Reads (spec.argument (spec.nested self.now.nest) (view cursor.old)) result (view cursor.new) }
    {
        let start = cursor.start();
        if sees_named(cursor) {
            let (name, value) = self.named_argument(cursor)?;
            return Ok(Argument {
                node: node_at(start, cursor.last),
                name,
                value,
            });
        }
        let value = self.expr(cursor)?;
        Ok(Argument {
            node: node_at(start, cursor.last),
            name: None,
            value,
        })
    }

    /// `"," argument`
    #[tactic(auto, unfolding(crate::specs::steps::Parse::more_arguments))]
    fn more_arguments(
        &self,
        cursor: &mut Cursor<'_>,
        found: &mut Items<Argument>,
    ) -> Result<(), ParseError>
        requires { Nests self.now.nest (F.pre self.now.expr) (F.post self.now.expr) }
        ensures { ReadsTo (spec.more_arguments (spec.nested self.now.nest) found.old (view cursor.old)) result found.new (view cursor.new) }
    {
        cursor.take(TokenKind::Comma)?;
        found.push(self.argument(cursor)?)?;
        Ok(())
    }

    /// `[ argument { "," argument } ]`
    #[tactic(auto, unfolding(crate::specs::steps::Parse::arguments))]
    fn arguments(&self, cursor: &mut Cursor<'_>) -> Result<Items<Argument>, ParseError>
        requires { Nests self.now.nest (F.pre self.now.expr) (F.post self.now.expr) }
        ensures { Reads (spec.arguments (spec.nested self.now.nest) (view cursor.old)) result (view cursor.new) }
    {
        let mut found = Items::new(self.alloc);
        if cursor.sees(TokenKind::CloseParenthesis) {
            return Ok(found);
        }
        found.push(self.argument(cursor)?)?;
        for _turn in 0..cursor.rest.len() {
            if !cursor.sees(TokenKind::Comma) {
                return Ok(found);
            }
            self.more_arguments(cursor, &mut found)?;
        }
        Ok(found)
    }

    /// `"(" arguments ")"`
    #[tactic(auto, unfolding(crate::specs::steps::Parse::called))]
    fn called(&self, cursor: &mut Cursor<'_>) -> Result<Items<Argument>, ParseError>
        requires { Nests self.now.nest (F.pre self.now.expr) (F.post self.now.expr) }
        ensures { Reads (spec.called (spec.nested self.now.nest) (view cursor.old)) result (view cursor.new) }
    {
        let depth = cursor.depth;
        cursor.enter(TokenKind::OpenParenthesis)?;
        let found = self.arguments(cursor)?;
        or_drop!(cursor.take(TokenKind::CloseParenthesis); found);
        cursor.depth = depth;
        Ok(found)
    }

    /// `name "#" name | name "(" arguments ")" | name { part }`
    #[tactic(auto, unfolding(crate::specs::steps::Parse::named, crate::specs::steps::Parse::value_ending, crate::specs::steps::Parse::call_ending, crate::specs::steps::Parse::path_ending))]
    fn named(&self, cursor: &mut Cursor<'_>) -> Result<Boxed<Expr>, ParseError>
        requires { Nests self.now.nest (F.pre self.now.expr) (F.post self.now.expr) }
        ensures { Reads (spec.named (spec.nested self.now.nest) (view cursor.old)) result (view cursor.new) }
    {
        let start = cursor.start();
        let name = identifier(self.alloc, cursor)?;
        if cursor.sees(TokenKind::Hash) {
            or_drop!(cursor.take(TokenKind::Hash); name);
            let value = or_drop!(identifier(self.alloc, cursor); name);
            let node = node_at(start, cursor.last);
            return Ok(Boxed::new(self.alloc, Expr::Value(node, name, value))?);
        }
        if cursor.sees(TokenKind::OpenParenthesis) {
            let found = or_drop!(self.called(cursor); name);
            let node = node_at(start, cursor.last);
            return Ok(Boxed::new(self.alloc, Expr::Call(node, name, found))?);
        }
        let parts = or_drop!(self.parts(cursor); name);
        let path = Path {
            node: node_at(start, cursor.last),
            root: Root::Name(name),
            parts,
        };
        Ok(Boxed::new(self.alloc, Expr::Path(path))?)
    }

    /// `"(" expr ")"`
    #[tactic(auto, unfolding(crate::specs::steps::Parse::group))]
    fn group(&self, cursor: &mut Cursor<'_>) -> Result<Boxed<Expr>, ParseError>
        requires { Nests self.now.nest (F.pre self.now.expr) (F.post self.now.expr) }
        ensures { Reads (spec.group (spec.nested self.now.nest) (view cursor.old)) result (view cursor.new) }
    {
        let start = cursor.start();
        let depth = cursor.depth;
        cursor.enter(TokenKind::OpenParenthesis)?;
        let inner = self.expr(cursor)?;
        or_drop!(cursor.take(TokenKind::CloseParenthesis); inner);
        cursor.depth = depth;
        let node = node_at(start, cursor.last);
        Ok(Boxed::new(self.alloc, Expr::Parenthesized(node, inner))?)
    }

    #[tactic(auto, unfolding(crate::specs::steps::Parse::placed))]
    fn placed(&self, cursor: &mut Cursor<'_>) -> Result<Boxed<Expr>, ParseError>
        requires { Nests self.now.nest (F.pre self.now.expr) (F.post self.now.expr) }
        ensures { Reads (spec.placed (spec.nested self.now.nest) (view cursor.old)) result (view cursor.new) }
    {
        if cursor.sees(TokenKind::Address) {
            let path = self.located(cursor)?;
            Ok(Boxed::new(self.alloc, Expr::Path(path))?)
        } else {
            self.named(cursor)
        }
    }

    #[tactic(auto, unfolding(crate::specs::steps::Parse::bracketed))]
    fn bracketed(&self, cursor: &mut Cursor<'_>) -> Result<Boxed<Expr>, ParseError>
        requires { Nests self.now.nest (F.pre self.now.expr) (F.post self.now.expr) }
        ensures { Reads (spec.bracketed (spec.nested self.now.nest) (view cursor.old)) result (view cursor.new) }
    {
        if cursor.sees(TokenKind::OpenParenthesis) {
            self.group(cursor)
        } else {
            self.placed(cursor)
        }
    }

    #[tactic(auto, unfolding(crate::specs::steps::Parse::true_or_other))]
    fn true_or_other(&self, cursor: &mut Cursor<'_>) -> Result<Boxed<Expr>, ParseError>
        requires { Nests self.now.nest (F.pre self.now.expr) (F.post self.now.expr) }
        ensures { Reads (spec.true_or_other (spec.nested self.now.nest) (view cursor.old)) result (view cursor.new) }
    {
        if cursor.sees(TokenKind::True) {
            truth(self.alloc, cursor, TokenKind::True, true)
        } else if cursor.sees(TokenKind::False) {
            truth(self.alloc, cursor, TokenKind::False, false)
        } else {
            self.bracketed(cursor)
        }
    }

    /// A primary, but for a number.
    #[tactic(auto, unfolding(crate::specs::steps::Parse::other))]
    fn other(&self, cursor: &mut Cursor<'_>) -> Result<Boxed<Expr>, ParseError>
        requires { Nests self.now.nest (F.pre self.now.expr) (F.post self.now.expr) }
        ensures { Reads (spec.other (spec.nested self.now.nest) (view cursor.old)) result (view cursor.new) }
    {
        if cursor.sees(TokenKind::TypedNumber) {
            typed(self.alloc, cursor)
        } else if cursor.sees(TokenKind::Duration) {
            time(self.alloc, cursor)
        } else {
            self.true_or_other(cursor)
        }
    }

    #[tactic(auto, unfolding(crate::specs::steps::Parse::primary))]
    fn primary(&self, cursor: &mut Cursor<'_>) -> Result<Boxed<Expr>, ParseError>
        requires { Nests self.now.nest (F.pre self.now.expr) (F.post self.now.expr) }
        ensures { Reads (spec.primary (spec.nested self.now.nest) (view cursor.old)) result (view cursor.new) }
    {
        if cursor.sees(TokenKind::Number) {
            number(self.alloc, cursor)
        } else {
            self.other(cursor)
        }
    }

    /// `"-" primary`. A minus directly before a number makes one literal.
    #[tactic(auto, unfolding(crate::specs::steps::Parse::signed, crate::specs::steps::Parse::literal_ending, crate::specs::steps::Parse::negated_ending))]
    fn signed(&self, cursor: &mut Cursor<'_>) -> Result<Boxed<Expr>, ParseError>
        requires { Nests self.now.nest (F.pre self.now.expr) (F.post self.now.expr) }
        ensures { Reads (spec.signed (spec.nested self.now.nest) (view cursor.old)) result (view cursor.new) }
    {
        let start = cursor.start();
        cursor.take(TokenKind::Minus)?;
        if cursor.sees(TokenKind::Number) {
            let text = word(self.alloc, cursor, TokenKind::Number)?;
            let node = node_at(start, cursor.last);
            return Ok(Boxed::new(self.alloc, Expr::Number(node, true, text))?);
        }
        cursor.depth += 1;
        let operand = self.other(cursor)?;
        let node = node_at(start, cursor.last);
        Ok(unary(self.alloc, node, UnaryOperator::Negate, operand)?)
    }

    /// `NOT primary`
    #[tactic(auto, unfolding(crate::specs::steps::Parse::inverted))]
    fn inverted(&self, cursor: &mut Cursor<'_>) -> Result<Boxed<Expr>, ParseError>
        requires { Nests self.now.nest (F.pre self.now.expr) (F.post self.now.expr) }
        ensures { Reads (spec.inverted (spec.nested self.now.nest) (view cursor.old)) result (view cursor.new) }
    {
        let start = cursor.start();
        cursor.operator(TokenKind::Not)?;
        let operand = self.primary(cursor)?;
        let node = node_at(start, cursor.last);
        Ok(unary(self.alloc, node, UnaryOperator::Not, operand)?)
    }

    #[tactic(auto, unfolding(crate::specs::steps::Parse::unary))]
    fn unary(&self, cursor: &mut Cursor<'_>) -> Result<Boxed<Expr>, ParseError>
        requires { Nests self.now.nest (F.pre self.now.expr) (F.post self.now.expr) }
        ensures { Reads (spec.unary (spec.nested self.now.nest) (view cursor.old)) result (view cursor.new) }
    {
        if cursor.sees(TokenKind::Minus) {
            self.signed(cursor)
        } else if cursor.sees(TokenKind::Not) {
            self.inverted(cursor)
        } else {
            self.primary(cursor)
        }
    }

    /// Operators of the ranks below the level. The first operand is read once, and not again for each
    /// rank, so that expressions may nest deep.
    #[cycle(levels)]
    #[tactic(auto, unfolding(crate::specs::steps::Parse::level))]
    fn level(&self, cursor: &mut Cursor<'_>, level: u8) -> Result<Boxed<Expr>, ParseError>
        requires { Nests self.now.nest (F.pre self.now.expr) (F.post self.now.expr) }
        ensures { Reads (spec.level (spec.nested self.now.nest) level (view cursor.old)) result (view cursor.new) }
    {
        let start = cursor.start();
        let mut left = self.unary(cursor)?;
        for rank in 0..level {
            left = self.chain(cursor, rank, start, left)?;
        }
        Ok(left)
    }

    /// `{ operator operand }` of one rank, behind a first operand.
    #[cycle(levels)]
    #[tactic(auto, unfolding(crate::specs::steps::Parse::chain))]
    fn chain(
        &self,
        cursor: &mut Cursor<'_>,
        level: u8,
        start: usize,
        first: Boxed<Expr>,
    ) -> Result<Boxed<Expr>, ParseError>
        requires { Nests self.now.nest (F.pre self.now.expr) (F.post self.now.expr) }
        ensures { Reads (spec.chain (spec.nested self.now.nest) level start first (view cursor.old)) result (view cursor.new) }
    {
        let rank = rank_of(level);
        let mut left = first;
        for _turn in 0..cursor.rest.len() {
            if !sees_operator(cursor, rank) {
                return Ok(left);
            }
            let operator = operators(cursor, rank)?;
            let right = self.level(cursor, level)?;
            left = binary(
                self.alloc,
                node_at(start, cursor.last),
                operator,
                left,
                right,
            )?;
        }
        Ok(left)
    }

    /// An expression. Its operators count in the depth up to its end.
    #[tactic(auto, unfolding(crate::specs::steps::Parse::whole))]
    pub fn whole(&self, cursor: &mut Cursor<'_>) -> Result<Boxed<Expr>, ParseError>
        requires { Nests self.now.nest (F.pre self.now.expr) (F.post self.now.expr) }
        ensures { Reads (spec.whole (spec.nested self.now.nest) (view cursor.old)) result (view cursor.new) }
    {
        let depth = cursor.depth;
        let found = self.level(cursor, 7)?;
        cursor.depth = depth;
        Ok(found)
    }
}

/// An expression in which expressions nest less deep than the number.
pub(crate) fn expression_at(
    alloc: Global,
    cursor: &mut Cursor<'_>,
    nest: usize,
) -> Result<Boxed<Expr>, ParseError>
    ensures { Reads (spec.nested nest (view cursor.old)) result (view cursor.new) }
{
    if nest == 0 {
        return Err(ParseError::TooDeep);
    }
    Grammar {
        alloc,
        nest: nest - 1,
        expr: expression_at,
    }
    .whole(cursor)
}
