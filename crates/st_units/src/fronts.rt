// What is read of a list of tokens from one of them on: an expression, statements or a chart, or
// the place where the tokens stop being that.

ghost use Rattle.std.specs.Prelude.{◌≡◌, ◌+◌, ◌≤◌, [], IfOk, length, drop};
ghost use Rattle.std.specs.List.{filter};
ghost use Rattle.token_grammar.specs.Grammar.{max_depth};
ghost use Rattle.token_grammar.specs.steps.Parsers.{view};
ghost use Rattle.token_grammar.specs.Kept.{is_kept as keeps};
ghost use Rattle.st_expr.specs.Grammar as expressions;
ghost use Rattle.st_statements.specs.Grammar as lists;
ghost use Rattle.sfc_text.specs.Grammar as charts;
ghost use Rattle.tree_numbers.specs.Numbers as numbers;
ghost use Rattle.tree_numbers.specs.Numbers.{numbered_expr, numbered_sfc, numbered_stmts};
ghost use Rattle.st_units.specs.Fronts as spec;
ghost use Rattle.st_units.specs.steps.Found.{FindsFront, FrontFound, kept_behind};

use crate::fault::{ParseFault, fault_at};
use sfc_text::sfc;
use st_declarations::Reader;
use st_expr::any_expression;
use st_statements::statement_list;
use st_tree::{Expr, Sfc, Stmt};
use std::alloc::{AllocError, Global};
use token_grammar::{Cursor, ParseError, Token, TokenKind, Tokens, drop_comments};
use tree_items::{Boxed, Items};
use tree_numbers::{Counting, Starts, number_expr, number_sfc, number_stmts};

/// The expression that the tokens from the number `from` on begin with, and the number of the token
/// behind it: of the next one that is neither
/// a comment nor a pragma, or the number of tokens where none is left. The expression stands
/// `outer` deep, at most 256. Its nodes are numbered
/// from 0. Where the longest front that begins an expression spells none within the depth, the
/// fault says why and where.
pub fn expression(
    alloc: Global,
    tokens: &Tokens<'_>,
    from: usize,
    outer: usize,
) -> Result<(Expr, usize), ParseFault>
    requires from { from ≤ length tokens.now.list.items }
    requires outer { outer ≤ max_depth }
    ensures { spec.ParsesFront expressions.expression (numbered_expr []) outer
        tokens.now.text.now tokens.now.list.items from result }
{
    let (tree, behind) = expression_front(alloc, tokens, from, outer)?;
    let mut tree = tree.into_inner();
    number_expr(&mut tree, &mut fresh(alloc))?;
    Ok((tree, behind))
}

/// The statements that the tokens from the number `from` on begin with, and the number of the token
/// behind them, as `expression` has it.
/// Their nodes are numbered from 0. Where the longest front that begins statements spells none
/// within the depth, the fault says why and where.
pub fn statements(
    alloc: Global,
    tokens: &Tokens<'_>,
    from: usize,
) -> Result<(Items<Stmt>, usize), ParseFault>
    requires { from ≤ length tokens.now.list.items }
    ensures { spec.ParsesFront lists.statements (numbered_stmts []) 0
        tokens.now.text.now tokens.now.list.items from result }
{
    let (mut found, behind) = statements_front(alloc, tokens, from)?;
    number_stmts(&mut found, &mut fresh(alloc))?;
    Ok((found, behind))
}

/// The chart that the tokens from the number `from` on begin with, and the number of the token
/// behind it, as `expression` has it. Its nodes
/// are numbered from 0. Where the longest front that begins a chart spells none within the depth,
/// the fault says why and where.
pub fn sfc_body(alloc: Global, tokens: &Tokens<'_>, from: usize) -> Result<(Sfc, usize), ParseFault>
    requires { from ≤ length tokens.now.list.items }
    ensures { spec.ParsesFront charts.sfc (numbered_sfc []) 0
        tokens.now.text.now tokens.now.list.items from result }
{
    let (mut chart, behind) = chart_front(alloc, tokens, from)?;
    number_sfc(&mut chart, &mut fresh(alloc))?;
    Ok((chart, behind))
}

/// Before the first node of a tree without comments.
fn fresh(alloc: Global) -> Counting<'static>
    ensures { result ≡ numbers.fresh [] }
{
    Counting::new(alloc, Starts::of(&[]))
}

/// Reads an expression.
struct ExpressionReader;

impl Reader<Boxed<Expr>> for ExpressionReader {
    ghost use Rattle.st_expr.specs.steps.Parse.{any_expression};

    ghost parser = { λ _. any_expression };

    ghost ready = { λ _. Unit {0} };

    fn read(&self, alloc: Global, cursor: &mut Cursor<'_>) -> Result<Boxed<Expr>, ParseError> {
        any_expression(alloc, cursor)
    }
}

/// Reads statements.
struct StatementsReader;

impl Reader<Items<Stmt>> for StatementsReader {
    ghost use Rattle.st_statements.specs.steps.Parse.{statements};

    ghost parser = { λ _. statements };

    ghost ready = { λ _. Unit {0} };

    fn read(&self, alloc: Global, cursor: &mut Cursor<'_>) -> Result<Items<Stmt>, ParseError> {
        statement_list(alloc, cursor)
    }
}

/// Reads a chart.
struct ChartReader;

impl Reader<Sfc> for ChartReader {
    ghost use Rattle.sfc_text.specs.steps.Parse.{sfc};

    ghost parser = { λ _. sfc };

    ghost ready = { λ _. Unit {0} };

    fn read(&self, alloc: Global, cursor: &mut Cursor<'_>) -> Result<Sfc, ParseError> {
        sfc(alloc, cursor)
    }
}

/// The expression at the front, without numbers.
fn expression_front(
    alloc: Global,
    tokens: &Tokens<'_>,
    from: usize,
    outer: usize,
) -> Result<(Boxed<Expr>, usize), ParseFault>
    requires from { from ≤ length tokens.now.list.items }
    requires outer { outer ≤ max_depth }
    ensures { FindsFront expressions.expression outer tokens.now.text.now tokens.now.list.items from
        result }
{
    front(alloc, tokens, from, outer, &ExpressionReader)
}

/// The statements at the front, without numbers.
fn statements_front(
    alloc: Global,
    tokens: &Tokens<'_>,
    from: usize,
) -> Result<(Items<Stmt>, usize), ParseFault>
    requires { from ≤ length tokens.now.list.items }
    ensures { FindsFront lists.statements 0 tokens.now.text.now tokens.now.list.items from result }
{
    front(alloc, tokens, from, 0, &StatementsReader)
}

/// The chart at the front, without numbers.
fn chart_front(alloc: Global, tokens: &Tokens<'_>, from: usize) -> Result<(Sfc, usize), ParseFault>
    requires { from ≤ length tokens.now.list.items }
    ensures { FindsFront charts.sfc 0 tokens.now.text.now tokens.now.list.items from result }
{
    front(alloc, tokens, from, 0, &ChartReader)
}

/// What the reader reads of the tokens from a number on, in a place of that depth, and the number
/// of the token behind it.
fn front<T: Drop, R: Reader<T>>(
    alloc: Global,
    tokens: &Tokens<'_>,
    from: usize,
    outer: usize,
    reader: &R,
) -> Result<(T, usize), ParseFault>
    requires from { from ≤ length tokens.now.list.items }
    requires ready { R.ready reader.now }
    ensures { FrontFound (R.parser reader.now) outer tokens.now.text.now tokens.now.list.items from result }
{
    let kept = kept_from(alloc, tokens.list.as_slice(), from)?;
    let mut cursor = Cursor {
        text: tokens.text,
        rest: kept.as_slice(),
        last: 0,
        depth: outer,
    };
    match reader.read(alloc, &mut cursor) {
        Ok(tree) => {
            let read = kept.len().saturating_sub(cursor.rest.len());
            Ok((tree, behind(tokens.list.as_slice(), from, read)))
        }
        Err(error) => Err(fault_at(error, tokens.text, &cursor)),
    }
}

/// The tokens from a number on, without comments and pragmas, which may stand anywhere.
fn kept_from(alloc: Global, tokens: &[Token], from: usize) -> Result<Vec<Token>, AllocError>
    requires { from ≤ length tokens.now }
    ensures { IfOk result (λ kept. kept.items ≡ filter keeps (drop from tokens.now)) }
{
    let mut kept = tokens[from..].to_vec(alloc)?;
    drop_comments(&mut kept);
    Ok(kept)
}

/// The number of the token behind so many that are kept, from a number on: of the next one that is
/// kept, or the number of tokens where none
/// is left.
fn behind(tokens: &[Token], from: usize, read: usize) -> usize
    requires from { from ≤ length tokens.now }
    requires read { read ≤ kept_behind tokens.now from }
    ensures later { from ≤ result }
    ensures within { result ≤ length tokens.now }
    ensures next { spec.IsAtKept (drop result tokens.now) }
    ensures left { kept_behind tokens.now from ≡ read + kept_behind tokens.now result }
{
    let mut unread = read;
    for number in from..tokens.len() {
        if is_kept(tokens[number]) {
            if unread == 0 {
                return number;
            }
            unread -= 1;
        }
    }
    tokens.len()
}

/// Whether the grammar reads the token.
fn is_kept(token: Token) -> bool
    ensures { result ≡ keeps token }
{
    !matches!(token.kind, TokenKind::Comment | TokenKind::Pragma)
}

/// What holds of expressions, statements and charts: a list of tokens begins with exactly one, or
/// has exactly one fault.
pub fn front_laws()
    ensures expressions { spec.FrontLaws expressions.expression }
    ensures lists { spec.FrontLaws lists.statements }
    ensures charts { spec.FrontLaws charts.sfc }
{}
