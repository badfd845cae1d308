// Binary operators, by how tightly they bind.

ghost use Rattle.std.specs.Prelude.{◌≡◌};
ghost use Rattle.token_grammar.specs.steps.Parsers.{Reads, view};
ghost use Rattle.st_expr.specs.steps.Parse as spec;
ghost use Rattle.st_expr.specs.Trees as trees;

use st_tree::BinaryOperator;
use token_grammar::{Cursor, ParseError, TokenKind};

/// How tightly a binary operator binds, the tightest first.
#[derive(Clone, Copy, Debug, PartialEq, Eq)]
pub enum Rank {
    Product,
    Sum,
    Order,
    Equality,
    And,
    Xor,
    Or,
}

/// The rank of the operators at a level, from 0.
#[tactic(auto, unfolding(crate::specs::Trees::rank_of))]
pub fn rank_of(level: u8) -> Rank
    ensures { result ≡ trees.rank_of level }
{
    match level {
        0 => Rank::Product,
        1 => Rank::Sum,
        2 => Rank::Order,
        3 => Rank::Equality,
        4 => Rank::And,
        5 => Rank::Xor,
        _ => Rank::Or,
    }
}

/// Takes an operator of this kind.
#[tactic(auto, unfolding(crate::specs::steps::Parse::operator_as))]
fn operator_as(
    cursor: &mut Cursor<'_>,
    kind: TokenKind,
    operator: BinaryOperator,
) -> Result<BinaryOperator, ParseError>
    ensures { Reads (spec.operator_as kind operator (view cursor.old)) result (view cursor.new) }
{
    cursor.operator(kind)?;
    Ok(operator)
}

/// Takes an operator of this rank.
#[tactic(auto, unfolding(crate::specs::steps::Parse::operators))]
pub fn operators(cursor: &mut Cursor<'_>, rank: Rank) -> Result<BinaryOperator, ParseError>
    ensures { Reads (spec.operators rank (view cursor.old)) result (view cursor.new) }
{
    match rank {
        Rank::Product => {
            if cursor.sees(TokenKind::Star) {
                operator_as(cursor, TokenKind::Star, BinaryOperator::Multiply)
            } else if cursor.sees(TokenKind::Slash) {
                operator_as(cursor, TokenKind::Slash, BinaryOperator::Divide)
            } else {
                operator_as(cursor, TokenKind::Mod, BinaryOperator::Modulo)
            }
        },
        Rank::Sum => {
            if cursor.sees(TokenKind::Plus) {
                operator_as(cursor, TokenKind::Plus, BinaryOperator::Add)
            } else {
                operator_as(cursor, TokenKind::Minus, BinaryOperator::Subtract)
            }
        },
        Rank::Order => {
            if cursor.sees(TokenKind::Less) {
                operator_as(cursor, TokenKind::Less, BinaryOperator::Less)
            } else if cursor.sees(TokenKind::Greater) {
                operator_as(cursor, TokenKind::Greater, BinaryOperator::Greater)
            } else if cursor.sees(TokenKind::LessEqual) {
                operator_as(cursor, TokenKind::LessEqual, BinaryOperator::LessEqual)
            } else {
                operator_as(
                    cursor,
                    TokenKind::GreaterEqual,
                    BinaryOperator::GreaterEqual,
                )
            }
        },
        Rank::Equality => {
            if cursor.sees(TokenKind::Equal) {
                operator_as(cursor, TokenKind::Equal, BinaryOperator::Equal)
            } else {
                operator_as(cursor, TokenKind::NotEqual, BinaryOperator::NotEqual)
            }
        },
        Rank::And => {
            if cursor.sees(TokenKind::And) {
                operator_as(cursor, TokenKind::And, BinaryOperator::And)
            } else {
                operator_as(cursor, TokenKind::Ampersand, BinaryOperator::And)
            }
        },
        Rank::Xor => operator_as(cursor, TokenKind::Xor, BinaryOperator::Xor),
        Rank::Or => operator_as(cursor, TokenKind::Or, BinaryOperator::Or),
    }
}

/// Whether an operator of this rank comes next.
#[tactic(auto, unfolding(crate::specs::steps::Parse::sees_operator))]
pub fn sees_operator(cursor: &Cursor<'_>, rank: Rank) -> bool
    ensures { result ≡ spec.sees_operator rank (view cursor.now).rest }
{
    match rank {
        Rank::Product => {
            cursor.sees(TokenKind::Star)
                || (cursor.sees(TokenKind::Slash) || cursor.sees(TokenKind::Mod))
        },
        Rank::Sum => cursor.sees(TokenKind::Plus) || cursor.sees(TokenKind::Minus),
        Rank::Order => {
            cursor.sees(TokenKind::Less)
                || (cursor.sees(TokenKind::Greater)
                    || (cursor.sees(TokenKind::LessEqual) || cursor.sees(TokenKind::GreaterEqual)))
        },
        Rank::Equality => cursor.sees(TokenKind::Equal) || cursor.sees(TokenKind::NotEqual),
        Rank::And => cursor.sees(TokenKind::And) || cursor.sees(TokenKind::Ampersand),
        Rank::Xor => cursor.sees(TokenKind::Xor),
        Rank::Or => cursor.sees(TokenKind::Or),
    }
}
