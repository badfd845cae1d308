// Charts, and bodies of units.

ghost use Rattle.std.specs.Prelude.{◌≡◌, [], flat_map};
ghost use Rattle.link_faults.specs.First.{after};
ghost use Rattle.body_rules.specs.Surroundings.{here};
ghost use Rattle.body_rules.specs.Statements.{statements as statements_at};
ghost use Rattle.body_rules.specs.Charts as spec;

use crate::loops::Loops;
use crate::noted::note;
use crate::outside::Bodies;
use crate::statements::{condition, statements};
use expression_types::{Meaning, Names};
use link_faults::{Faults, LinkCode};
use scope_names::is_same_name;
use st_tree::{Association, Body, Identifier, Sfc, SfcPart, Step, StepNames, Stmt, Transition};

// ---- steps with their actions

fn no_action<B: Bodies>(outside: &B, file: u16, faults: &mut Faults, of: &Association)
    ensures { faults.new ≡ after faults.old (spec.no_action (here (B.names outside.now) (B.parts outside.now)
        (B.around outside.now) file) of.now) }
{
    if outside.is_truth(of.action.name.bytes()) {
        note(outside, file, faults, of.node, LinkCode::OutOfProfile);
    } else {
        note(outside, file, faults, of.action.node, LinkCode::Unknown);
    }
}

fn action<B: Bodies>(outside: &B, file: u16, faults: &mut Faults, of: &Association)
    ensures { faults.new ≡ after faults.old (spec.action (here (B.names outside.now) (B.parts outside.now)
        (B.around outside.now) file) of.now) }
{
    if !outside.has_action(of.action.name.bytes()) {
        no_action(outside, file, faults, of);
    }
}

fn is_qualifier(name: &[u8]) -> bool
    ensures { result ≡ spec.is_qualifier name.now }
{
    is_same_name(name, b"N")
        || (is_same_name(name, b"S") || (is_same_name(name, b"R") || is_same_name(name, b"P")))
}

fn qualified<B: Bodies>(outside: &B, file: u16, faults: &mut Faults, qualifier: &Option<Identifier>)
    ensures { faults.new ≡ after faults.old (spec.qualified (here (B.names outside.now) (B.parts outside.now)
        (B.around outside.now) file) qualifier.now) }
{
    match qualifier {
        None => (),
        Some(qualifier) => {
            if !is_qualifier(qualifier.name.bytes()) {
                note(
                    outside,
                    file,
                    faults,
                    qualifier.node,
                    LinkCode::OutOfProfile,
                );
            }
        },
    }
}

#[tactic(auto, using(crate::proofs::Told::after_append))]
fn association<B: Bodies>(outside: &B, file: u16, faults: &mut Faults, of: &Association)
    ensures { faults.new ≡ after faults.old (spec.association (here (B.names outside.now) (B.parts outside.now)
        (B.around outside.now) file) of.now) }
{
    action(outside, file, faults, of);
    qualified(outside, file, faults, &of.qualifier);
}

fn associations<B: Bodies>(outside: &B, file: u16, faults: &mut Faults, list: &[Association])
    ensures { faults.new ≡ after faults.old (flat_map (spec.association (here (B.names outside.now) (B.parts outside.now)
        (B.around outside.now) file)) list.now) }
{
    for each in list {
        association(outside, file, faults, each);
    }
}

fn step<B: Bodies>(outside: &B, file: u16, faults: &mut Faults, s: &Step)
    ensures { faults.new ≡ after faults.old (spec.step (here (B.names outside.now) (B.parts outside.now)
        (B.around outside.now) file) s.now) }
{
    associations(outside, file, faults, s.associations.as_slice());
}

// ---- transitions

fn step_named<B: Bodies>(outside: &B, file: u16, faults: &mut Faults, name: &Identifier)
    ensures { faults.new ≡ after faults.old (spec.step_named (here (B.names outside.now) (B.parts outside.now)
        (B.around outside.now) file) name.now) }
{
    if !outside.has_step(name.name.bytes()) {
        note(outside, file, faults, name.node, LinkCode::Unknown);
    }
}

fn all_named<B: Bodies>(outside: &B, file: u16, faults: &mut Faults, list: &[Identifier])
    ensures { faults.new ≡ after faults.old (flat_map (spec.step_named (here (B.names outside.now) (B.parts outside.now)
        (B.around outside.now) file)) list.now) }
{
    for each in list {
        step_named(outside, file, faults, each);
    }
}

fn steps_named<B: Bodies>(outside: &B, file: u16, faults: &mut Faults, names: &StepNames)
    ensures { faults.new ≡ after faults.old (spec.steps_named (here (B.names outside.now) (B.parts outside.now)
        (B.around outside.now) file) names.now) }
{
    match names {
        StepNames::One(name) => step_named(outside, file, faults, name),
        StepNames::Several(_, list) => all_named(outside, file, faults, list.as_slice()),
    }
}

fn again<B: Bodies>(
    outside: &B,
    file: u16,
    faults: &mut Faults,
    name: &Identifier,
    later: &Identifier,
)
    ensures { faults.new ≡ after faults.old (spec.again (here (B.names outside.now) (B.parts outside.now)
        (B.around outside.now) file) name.now later.now) }
{
    if is_same_name(name.name.bytes(), later.name.bytes()) {
        note(outside, file, faults, later.node, LinkCode::Twice);
    }
}

fn each_again<B: Bodies>(
    outside: &B,
    file: u16,
    faults: &mut Faults,
    name: &Identifier,
    later: &[Identifier],
)
    ensures { faults.new ≡ after faults.old (flat_map (spec.again (here (B.names outside.now) (B.parts outside.now)
        (B.around outside.now) file) name.now) later.now) }
{
    for each in later {
        again(outside, file, faults, name, each);
    }
}

fn all_again<B: Bodies>(outside: &B, file: u16, faults: &mut Faults, list: &[Identifier])
    ensures { faults.new ≡ after faults.old (spec.all_again (here (B.names outside.now) (B.parts outside.now)
        (B.around outside.now) file) list.now) }
{
    for i in 0..list.len() {
        each_again(outside, file, faults, &list[i], &list[i + 1..]);
    }
}

fn named_twice<B: Bodies>(outside: &B, file: u16, faults: &mut Faults, names: &StepNames)
    ensures { faults.new ≡ after faults.old (spec.named_twice (here (B.names outside.now) (B.parts outside.now)
        (B.around outside.now) file) names.now) }
{
    match names {
        StepNames::One(_) => (),
        StepNames::Several(_, list) => all_again(outside, file, faults, list.as_slice()),
    }
}

#[tactic(auto, using(crate::proofs::Told::after_append))]
fn transition<B: Bodies>(outside: &B, file: u16, faults: &mut Faults, t: &Transition)
    ensures { faults.new ≡ after faults.old (spec.transition (here (B.names outside.now) (B.parts outside.now)
        (B.around outside.now) file) t.now) }
{
    steps_named(outside, file, faults, &t.from);
    named_twice(outside, file, faults, &t.from);
    steps_named(outside, file, faults, &t.to);
    condition(outside, file, faults, t.condition.get());
}

// ---- charts and bodies

fn outermost<B: Bodies>(outside: &B, file: u16, faults: &mut Faults, list: &[Stmt])
    ensures { faults.new ≡ after faults.old (statements_at (here (B.names outside.now) (B.parts outside.now)
        (B.around outside.now) file) list.now []) }
{
    let around = Loops::Outermost;
    statements(outside, file, faults, list, &around);
}

fn chart_part<B: Bodies>(outside: &B, file: u16, faults: &mut Faults, part: &SfcPart)
    ensures { faults.new ≡ after faults.old (spec.chart_part (here (B.names outside.now) (B.parts outside.now)
        (B.around outside.now) file) part.now) }
{
    match part {
        SfcPart::Step(s) => step(outside, file, faults, s),
        SfcPart::Transition(t) => transition(outside, file, faults, t),
        SfcPart::Action(a) => outermost(outside, file, faults, a.body.as_slice()),
    }
}

fn chart_parts<B: Bodies>(outside: &B, file: u16, faults: &mut Faults, list: &[SfcPart])
    ensures { faults.new ≡ after faults.old (flat_map (spec.chart_part (here (B.names outside.now) (B.parts outside.now)
        (B.around outside.now) file)) list.now) }
{
    for each in list {
        chart_part(outside, file, faults, each);
    }
}

#[tactic(auto, using(crate::proofs::Told::after_append))]
fn chart<B: Bodies>(outside: &B, file: u16, faults: &mut Faults, c: &Sfc)
    ensures { faults.new ≡ after faults.old (spec.chart (here (B.names outside.now) (B.parts outside.now)
        (B.around outside.now) file) c.now) }
{
    step(outside, file, faults, &c.initial);
    chart_parts(outside, file, faults, c.parts.as_slice());
}

/// Notes the first fault of a unit's body, statements or a chart, in a file by its place among the
/// project's files. What is around the body says what its names mean. Takes time linear in the body, but
/// for calls of instances and lists of steps, whose names are compared pair by pair, and for the targets
/// within loops, whose names are compared with the variables of the loops around.
pub fn body<B: Bodies>(outside: &B, file: u16, faults: &mut Faults, body: &Body)
    ensures { faults.new ≡ after faults.old (spec.body (here (B.names outside.now) (B.parts outside.now)
        (B.around outside.now) file) body.now) }
{
    match body {
        Body::Statements(list) => outermost(outside, file, faults, list.as_slice()),
        Body::Chart(c) => chart(outside, file, faults, c),
    }
}
