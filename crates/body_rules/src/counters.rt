// The variable of a FOR, and how it counts.

ghost use Rattle.std.specs.Prelude.{◌≡◌};
ghost use Rattle.link_faults.specs.Checked.{Tells};
ghost use Rattle.link_faults.specs.First.{after};
ghost use Rattle.body_rules.specs.Surroundings.{here};
ghost use Rattle.body_rules.specs.Counters as spec;
ghost use Rattle.body_rules.specs.steps.Around.{around};

use crate::loops::{Loops, counts};
use crate::noted::{anywhere, expression, wrong};
use crate::outside::{Bodies, CounterVariable};
use expression_types::{Meaning, Names, Place, constant_number, node_of};
use iec_tables::elem::Elem;
use link_faults::{Faults, LinkCode};
use st_tree::{Counter, Expr, Identifier, Number};
use tree_items::Boxed;

fn uncounted<B: Bodies>(
    _outside: &B,
    file: u16,
    faults: &mut Faults,
    loops: &Loops<'_>,
    name: &Identifier,
    elem: Elem,
) -> Option<Elem>
    ensures { Tells (spec.uncounted (here (B.names _outside.now) (B.parts _outside.now)
        (B.around _outside.now) file) (around loops.now) name.now elem) faults.old faults.new
        result }
{
    if counts(loops, name.name.bytes()) {
        wrong(faults, anywhere(file), name.node, LinkCode::NotAssignable)
    } else {
        Some(elem)
    }
}

fn counter_of<B: Bodies>(
    outside: &B,
    file: u16,
    faults: &mut Faults,
    loops: &Loops<'_>,
    name: &Identifier,
    variable: CounterVariable,
) -> Option<Elem>
    ensures { Tells (spec.counter_of (here (B.names outside.now) (B.parts outside.now)
        (B.around outside.now) file) (around loops.now) name.now variable) faults.old faults.new
        result }
{
    match variable {
        CounterVariable::Unknown => wrong(faults, anywhere(file), name.node, LinkCode::Unknown),
        CounterVariable::Faulty => None,
        CounterVariable::NoCounter => {
            wrong(faults, anywhere(file), name.node, LinkCode::WrongType)
        },
        CounterVariable::NotAssignable => {
            wrong(faults, anywhere(file), name.node, LinkCode::NotAssignable)
        },
        CounterVariable::Is(elem) => uncounted(outside, file, faults, loops, name, elem),
    }
}

/// The type of the variable of a FOR.
fn counter_type<B: Bodies>(
    outside: &B,
    file: u16,
    faults: &mut Faults,
    loops: &Loops<'_>,
    name: &Identifier,
) -> Option<Elem>
    ensures { Tells (spec.counter_type (here (B.names outside.now) (B.parts outside.now)
        (B.around outside.now) file) (around loops.now) name.now) faults.old faults.new result }
{
    let variable = outside.counter(name.name.bytes());
    counter_of(outside, file, faults, loops, name, variable)
}

fn counter_place(elem: Option<Elem>) -> Place
    ensures { result ≡ spec.counter_place elem }
{
    match elem {
        None => Place::Any,
        Some(elem) => Place::Elem(elem),
    }
}

fn nonzero<B: Bodies>(
    outside: &B,
    file: u16,
    faults: &mut Faults,
    e: &Expr,
    number: Number,
) -> Option<Number>
    ensures { Tells (spec.nonzero (here (B.names outside.now) (B.parts outside.now)
        (B.around outside.now) file) e.now number) faults.old faults.new result }
{
    if number.value != 0 {
        Some(number)
    } else {
        let standing = anywhere(file);
        wrong(
            faults,
            standing,
            node_of(outside, standing, e),
            LinkCode::BadBound,
        )
    }
}

#[tactic(auto, using(crate::proofs::Told::bind_some, crate::proofs::Told::bind_none))]
fn step_number<B: Bodies>(
    outside: &B,
    file: u16,
    faults: &mut Faults,
    place: Place,
    e: &Expr,
) -> Option<Number>
    ensures { Tells (spec.step_number (here (B.names outside.now) (B.parts outside.now)
        (B.around outside.now) file) place e.now) faults.old faults.new result }
{
    match constant_number(outside, file, faults, place, e) {
        None => None,
        Some(number) => nonzero(outside, file, faults, e, number),
    }
}

/// Notes the faults of a step.
fn step<B: Bodies>(
    outside: &B,
    file: u16,
    faults: &mut Faults,
    place: Place,
    step: &Option<Boxed<Expr>>,
)
    ensures { faults.new ≡ after faults.old (spec.step (here (B.names outside.now)
        (B.parts outside.now) (B.around outside.now) file) place step.now) }
{
    match step {
        None => (),
        Some(e) => {
            let _also = step_number(outside, file, faults, place, e.get());
        },
    }
}

#[tactic(auto, using(crate::proofs::Told::after_append))]
fn counted<B: Bodies>(outside: &B, file: u16, faults: &mut Faults, counter: &Counter, place: Place)
    ensures { faults.new ≡ after faults.old (spec.counted (here (B.names outside.now)
        (B.parts outside.now) (B.around outside.now) file) counter.now place) }
{
    expression(outside, file, faults, place, counter.first.get());
    expression(outside, file, faults, place, counter.last.get());
    step(outside, file, faults, place, &counter.step);
}

fn counted_at<B: Bodies>(
    outside: &B,
    file: u16,
    faults: &mut Faults,
    counter: &Counter,
    elem: Option<Elem>,
)
    ensures { faults.new ≡ after faults.old (spec.counted_at (here (B.names outside.now)
        (B.parts outside.now) (B.around outside.now) file) counter.now elem) }
{
    counted(outside, file, faults, counter, counter_place(elem));
}

/// Notes the faults of how a FOR counts.
pub(crate) fn counter<B: Bodies>(
    outside: &B,
    file: u16,
    faults: &mut Faults,
    loops: &Loops<'_>,
    counter: &Counter,
)
    ensures { faults.new ≡ after faults.old (spec.counter (here (B.names outside.now)
        (B.parts outside.now) (B.around outside.now) file) (around loops.now) counter.now) }
{
    let elem = counter_type(outside, file, faults, loops, &counter.variable);
    counted_at(outside, file, faults, counter, elem);
}
