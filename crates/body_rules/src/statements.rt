// Statements.

ghost use Rattle.std.specs.Prelude.{◌≡◌, ◌∷◌, map};
ghost use Rattle.link_faults.specs.First.{after};
ghost use Rattle.body_rules.specs.Loops.{Plain, Counting};
ghost use Rattle.body_rules.specs.Surroundings.{here};
ghost use Rattle.body_rules.specs.Statements as spec;
ghost use Rattle.body_rules.specs.steps.Around.{around};

use crate::calls::call;
use crate::counters::counter;
use crate::labels::{Selector, known_selector, labels, selected};
use crate::loops::{Loops, is_in_loop};
use crate::noted::{expression, note};
use crate::outside::Bodies;
use crate::targets::assignment;
use expression_types::{Meaning, Names, Place};
use iec_tables::elem::Elem;
use link_faults::{Faults, LinkCode};
use st_tree::{Branch, Case, Counter, Expr, Label, Node, Stmt};

/// Notes the faults of a condition.
pub(crate) fn condition<B: Bodies>(outside: &B, file: u16, faults: &mut Faults, e: &Expr)
    ensures { faults.new ≡ after faults.old (spec.condition (here (B.names outside.now)
        (B.parts outside.now) (B.around outside.now) file) e.now) }
{
    expression(outside, file, faults, Place::Elem(Elem::Bool), e);
}

fn in_loop<B: Bodies>(outside: &B, file: u16, faults: &mut Faults, node: Node, loops: &Loops<'_>)
    ensures { faults.new ≡ after faults.old (spec.in_loop (here (B.names outside.now)
        (B.parts outside.now) (B.around outside.now) file) node (around loops.now)) }
{
    if !is_in_loop(loops) {
        note(outside, file, faults, node, LinkCode::WrongCall);
    }
}

/// Notes the faults of statements under the loops around them.
#[cycle(statement)]
pub(crate) fn statements<B: Bodies>(
    outside: &B,
    file: u16,
    faults: &mut Faults,
    list: &[Stmt],
    loops: &Loops<'_>,
)
    ensures { faults.new ≡ after faults.old (spec.statements (here (B.names outside.now)
        (B.parts outside.now) (B.around outside.now) file) list.now (around loops.now)) }
{
    for each in list {
        statement(outside, file, faults, each, loops);
    }
}

/// A condition, and statements under it.
#[cycle(statement)]
#[tactic(auto, using(crate::proofs::Told::after_append))]
fn conditioned<B: Bodies>(
    outside: &B,
    file: u16,
    faults: &mut Faults,
    list: &[Stmt],
    e: &Expr,
    loops: &Loops<'_>,
)
    ensures { faults.new ≡ after faults.old (spec.conditioned (here (B.names outside.now)
        (B.parts outside.now) (B.around outside.now) file) e.now (map (spec.stmt (here (B.names outside.now)
        (B.parts outside.now) (B.around outside.now) file))
        list.now) (around loops.now)) }
{
    condition(outside, file, faults, e);
    statements(outside, file, faults, list, loops);
}

/// Statements, and a condition behind them.
#[cycle(statement)]
#[tactic(auto, using(crate::proofs::Told::after_append))]
fn repeated<B: Bodies>(
    outside: &B,
    file: u16,
    faults: &mut Faults,
    list: &[Stmt],
    e: &Expr,
    loops: &Loops<'_>,
)
    ensures { faults.new ≡ after faults.old (spec.repeated (here (B.names outside.now)
        (B.parts outside.now) (B.around outside.now) file) (map (spec.stmt (here (B.names outside.now)
        (B.parts outside.now) (B.around outside.now) file)) list.now)
        e.now (around loops.now)) }
{
    statements(outside, file, faults, list, loops);
    condition(outside, file, faults, e);
}

/// WHILE.
#[cycle(statement)]
fn while_loop<B: Bodies>(
    outside: &B,
    file: u16,
    faults: &mut Faults,
    list: &[Stmt],
    e: &Expr,
    loops: &Loops<'_>,
)
    ensures { faults.new ≡ after faults.old (spec.conditioned (here (B.names outside.now)
        (B.parts outside.now) (B.around outside.now) file) e.now (map (spec.stmt (here (B.names outside.now)
        (B.parts outside.now) (B.around outside.now) file))
        list.now) (Plain ∷ around loops.now)) }
{
    let within = Loops::Within(&*loops);
    conditioned(outside, file, faults, list, e, &within);
}

/// REPEAT.
#[cycle(statement)]
fn repeat_loop<B: Bodies>(
    outside: &B,
    file: u16,
    faults: &mut Faults,
    list: &[Stmt],
    e: &Expr,
    loops: &Loops<'_>,
)
    ensures { faults.new ≡ after faults.old (spec.repeated (here (B.names outside.now)
        (B.parts outside.now) (B.around outside.now) file) (map (spec.stmt (here (B.names outside.now)
        (B.parts outside.now) (B.around outside.now) file)) list.now)
        e.now (Plain ∷ around loops.now)) }
{
    let within = Loops::Within(&*loops);
    repeated(outside, file, faults, list, e, &within);
}

#[cycle(statement)]
fn counted_body<B: Bodies>(
    outside: &B,
    file: u16,
    faults: &mut Faults,
    variable: &[u8],
    list: &[Stmt],
    loops: &Loops<'_>,
)
    ensures { faults.new ≡ after faults.old (spec.each (map (spec.stmt (here (B.names outside.now)
        (B.parts outside.now) (B.around outside.now) file)) list.now) (Counting
        variable.now ∷ around loops.now)) }
{
    let within = Loops::Counting(&*variable, &*loops);
    statements(outside, file, faults, list, &within);
}

/// FOR.
#[cycle(statement)]
#[tactic(auto, using(crate::proofs::Told::after_append))]
fn counting<B: Bodies>(
    outside: &B,
    file: u16,
    faults: &mut Faults,
    c: &Counter,
    list: &[Stmt],
    loops: &Loops<'_>,
)
    ensures { faults.new ≡ after faults.old (spec.counting (here (B.names outside.now)
        (B.parts outside.now) (B.around outside.now) file) c.now (map (spec.stmt (here (B.names outside.now)
        (B.parts outside.now) (B.around outside.now) file))
        list.now) (around loops.now)) }
{
    counter(outside, file, faults, loops, c);
    counted_body(outside, file, faults, c.variable.name.bytes(), list, loops);
}

/// IF or ELSIF.
#[cycle(statement)]
#[tactic(auto, unfolding(crate::specs::Statements::branch, crate::specs::Statements::stmt))]
fn branch_of_if<B: Bodies>(
    outside: &B,
    file: u16,
    faults: &mut Faults,
    b: &Branch,
    loops: &Loops<'_>,
)
    ensures { faults.new ≡ after faults.old (spec.branch (here (B.names outside.now)
        (B.parts outside.now) (B.around outside.now) file) b.now (around loops.now)) }
{
    conditioned(
        outside,
        file,
        faults,
        b.body.as_slice(),
        b.condition.get(),
        loops,
    );
}

#[cycle(statement)]
fn branches<B: Bodies>(
    outside: &B,
    file: u16,
    faults: &mut Faults,
    list: &[Branch],
    loops: &Loops<'_>,
)
    ensures { faults.new ≡ after faults.old (spec.each (map (spec.branch (here (B.names outside.now)
        (B.parts outside.now) (B.around outside.now) file)) list.now) (around
        loops.now)) }
{
    for each in list {
        branch_of_if(outside, file, faults, each, loops);
    }
}

#[cycle(statement)]
#[tactic(auto, using(crate::proofs::Told::after_append))]
fn labelled<B: Bodies>(
    outside: &B,
    file: u16,
    faults: &mut Faults,
    selector: Selector,
    of: &[Label],
    list: &[Stmt],
    loops: &Loops<'_>,
)
    ensures { faults.new ≡ after faults.old (spec.labelled (here (B.names outside.now)
        (B.parts outside.now) (B.around outside.now) file) selector of.now (map (spec.stmt
        (here (B.names outside.now)
        (B.parts outside.now) (B.around outside.now) file)) list.now) (around loops.now)) }
{
    labels(outside, file, faults, selector, of);
    statements(outside, file, faults, list, loops);
}

/// A branch of a CASE.
#[cycle(statement)]
#[tactic(auto, unfolding(crate::specs::Statements::case, crate::specs::Statements::stmt))]
fn branch_of_case<B: Bodies>(
    outside: &B,
    file: u16,
    faults: &mut Faults,
    selector: Selector,
    b: &Case,
    loops: &Loops<'_>,
)
    ensures { faults.new ≡ after faults.old (spec.case (here (B.names outside.now)
        (B.parts outside.now) (B.around outside.now) file) b.now selector (around loops.now)) }
{
    labelled(
        outside,
        file,
        faults,
        selector,
        b.labels.as_slice(),
        b.body.as_slice(),
        loops,
    );
}

#[cycle(statement)]
fn cases<B: Bodies>(
    outside: &B,
    file: u16,
    faults: &mut Faults,
    selector: Selector,
    list: &[Case],
    loops: &Loops<'_>,
)
    ensures { faults.new ≡ after faults.old (spec.each_case (map (spec.case (here (B.names outside.now)
        (B.parts outside.now) (B.around outside.now) file)) list.now)
        selector (around loops.now)) }
{
    for each in list {
        branch_of_case(outside, file, faults, selector, each, loops);
    }
}

#[cycle(statement)]
fn known_cases<B: Bodies>(
    outside: &B,
    file: u16,
    faults: &mut Faults,
    selector: Option<Selector>,
    list: &[Case],
    loops: &Loops<'_>,
)
    ensures { faults.new ≡ after faults.old (spec.known_cases (map (spec.case (here (B.names outside.now)
        (B.parts outside.now) (B.around outside.now) file)) list.now)
        (around loops.now) selector) }
{
    cases(outside, file, faults, known_selector(selector), list, loops);
}

/// CASE, up to ELSE.
#[cycle(statement)]
fn selection<B: Bodies>(
    outside: &B,
    file: u16,
    faults: &mut Faults,
    list: &[Case],
    e: &Expr,
    loops: &Loops<'_>,
)
    ensures { faults.new ≡ after faults.old (spec.selection (here (B.names outside.now)
        (B.parts outside.now) (B.around outside.now) file) e.now (map (spec.case (here (B.names outside.now)
        (B.parts outside.now) (B.around outside.now) file))
        list.now) (around loops.now)) }
{
    let selector = selected(outside, file, faults, e);
    known_cases(outside, file, faults, selector, list, loops);
}

/// Notes the faults of a statement.
#[cycle(statement)]
#[tactic(auto, unfolding(crate::specs::Statements::stmt, crate::specs::Statements::branch, crate::specs::Statements::case))]
fn statement<B: Bodies>(outside: &B, file: u16, faults: &mut Faults, s: &Stmt, loops: &Loops<'_>)
    ensures { faults.new ≡ after faults.old (spec.stmt (here (B.names outside.now)
        (B.parts outside.now) (B.around outside.now) file) s.now (around loops.now)) }
{
    match s {
        Stmt::Assign(node, path, e) => {
            assignment(outside, file, faults, loops, *node, path, e.get())
        },
        Stmt::Call(node, name, arguments) => {
            call(
                outside,
                file,
                faults,
                loops,
                *node,
                name,
                arguments.as_slice(),
            )
        },
        Stmt::Return(_) => (),
        Stmt::Exit(node) => in_loop(outside, file, faults, *node, loops),
        Stmt::Continue(node) => in_loop(outside, file, faults, *node, loops),
        Stmt::If(_, list, last) => match last {
            None => branches(outside, file, faults, list.as_slice(), loops),
            Some(last) => {
                branches(outside, file, faults, list.as_slice(), loops);
                statements(outside, file, faults, last.as_slice(), loops);
            },
        },
        Stmt::Case(_, e, list, others) => match others {
            None => selection(outside, file, faults, list.as_slice(), e.get(), loops),
            Some(others) => {
                selection(outside, file, faults, list.as_slice(), e.get(), loops);
                statements(outside, file, faults, others.as_slice(), loops);
            },
        },
        Stmt::For(_, c, body) => {
            counting(outside, file, faults, c.get(), body.as_slice(), loops)
        },
        Stmt::While(_, e, body) => {
            while_loop(outside, file, faults, body.as_slice(), e.get(), loops)
        },
        Stmt::Repeat(_, body, e) => {
            repeat_loop(outside, file, faults, body.as_slice(), e.get(), loops)
        },
    }
}
