// The code of a body: its statements written out as instructions, each part in the order in which it is taken.

ghost use Rattle.std.specs.Prelude.{◌≡◌, ◌++◌, flat_map, IfOk, OnOk};
ghost use Rattle.st_tree.specs.Code.{reading};
ghost use Rattle.task_config.specs.Written.{place_in, kept_value, written_cell, written_value, written_stmt, written_body, written_literals, literals_of_stmt};

use first_form::{Expr, Literal, Path, Stmt};
use iec_tables::elem::Elem;
use st_tree::{Cell, Code, Number, Operation, Site};
use std::alloc::{AllocError, Global};
use std::collections::BTreeMap;
use tree_items::Items;

/// The place of the cell of each variable, by its name.
pub(crate) type Cells<'t> = BTreeMap<&'t [u8], usize>;

/// The instructions of statements. They are built from the last one on.
pub(crate) fn body_code(alloc: Global, cells: &Cells<'_>, body: &[Stmt]) -> Result<Code, AllocError>
    ensures { IfOk result (λ code. reading code ≡ written_body (place_in (λ key. key.now) cells.now) body.now) }
{
    let mut code = Code::Done;
    let mut at = body.len();
    while at > 0 {
        at -= 1;
        code = stmt_code(alloc, cells, &body[at], code)?;
    }
    Ok(code)
}

/// The instructions of a statement, before these ones.
fn stmt_code(
    alloc: Global,
    cells: &Cells<'_>,
    statement: &Stmt,
    rest: Code,
) -> Result<Code, AllocError>
    ensures { IfOk result (λ code. reading code ≡ written_stmt (place_in (λ key. key.now) cells.now) statement.now (reading rest)) }
{
    match statement {
        Stmt::Assign(_, target, value) => {
            let cell = cell_of(cells, target);
            let code = Code::Write(cell, Box::new(alloc, rest)?);
            value_code(alloc, cells, value, code)
        }
    }
}

/// The instructions that put the value of an expression on the stack, before these ones.
fn value_code(
    alloc: Global,
    cells: &Cells<'_>,
    whole: &Expr,
    rest: Code,
) -> Result<Code, AllocError>
    ensures { IfOk result (λ code. reading code ≡ written_value (place_in (λ key. key.now) cells.now) whole.now (reading rest)) }
{
    let mut code = rest;
    let mut value = whole;
    loop {
        match value {
            Expr::Number(_, literal) => {
                return Ok(Code::Literal(number_of(*literal), Box::new(alloc, code)?));
            }
            Expr::Variable(path) => {
                let cell = cell_of(cells, path);
                return Ok(Code::Read(cell, Box::new(alloc, code)?));
            }
            Expr::Binary(node, operator, left, right) => {
                let operation = Operation {
                    site: Site {
                        file: 0,
                        node: node.number,
                    },
                    elem: Elem::Int,
                    operator: *operator,
                };
                code = Code::Operate(operation, Box::new(alloc, code)?);
                code = value_code(alloc, cells, right.get(), code)?;
                value = left.get();
            }
        }
    }
}

/// The cell of a variable. No cell has the largest place, which stands for a name that no variable has.
fn cell_of(cells: &Cells<'_>, path: &Path) -> Cell
    ensures { result ≡ written_cell (place_in (λ key. key.now) cells.now) path.now }
{
    match cells.get(path.root.name.bytes()) {
        Some(place) => Cell::Own(*place),
        None => Cell::Own(usize::MAX),
    }
}

/// The value of a literal, its size kept at 2^127 - 1.
fn number_of(literal: Literal) -> Number
    ensures { result.value ≡ kept_value literal }
{
    let size = i128::try_from(literal.size).unwrap_or(i128::MAX);
    Number {
        value: if literal.negative { -size } else { size },
    }
}

/// Adds the literals of these statements.
pub(crate) fn collect_literals(body: &[Stmt], literals: &mut Items<i128>) -> Result<(), AllocError>
    ensures { OnOk result (literals.new ≡ literals.old ++ flat_map literals_of_stmt body.now) }
{
    for statement in body {
        match statement {
            Stmt::Assign(_, _, value) => collect_of_value(value, literals)?,
        }
    }
    Ok(())
}

fn collect_of_value(whole: &Expr, literals: &mut Items<i128>) -> Result<(), AllocError>
    ensures { OnOk result (literals.new ≡ literals.old ++ written_literals whole.now) }
{
    let mut value = whole;
    loop {
        match value {
            Expr::Number(_, literal) => {
                literals.push(number_of(*literal).value)?;
                return Ok(());
            }
            Expr::Variable(_) => return Ok(()),
            Expr::Binary(_, _, left, right) => {
                collect_of_value(right.get(), literals)?;
                value = left.get();
            }
        }
    }
}
