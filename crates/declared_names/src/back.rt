// Which expressions and initial values of a declaration lead back to it.

ghost use Rattle.std.specs.Prelude.{◌≡◌, map};
ghost use Rattle.declared_names.specs.Meaning as spec;
ghost use Rattle.declared_names.specs.Tables.{known_at, here_of};

use crate::at::At;
use crate::base::variable_number;
use st_tree::{Argument, Expr, FieldInit, Init, Item, Part, Path, Root};

fn root_leads(at: &At<'_, '_>, root: &Root) -> bool
    ensures { result ≡ spec.root_leads (known_at at.now).project (here_of at.now) root.now }
{
    match root {
        Root::Name(name) => match variable_number(at, name.name.bytes()) {
            None => false,
            Some(number) => at.project.components.lead_together(at.number, number),
        },
        Root::Address(_) => false,
    }
}

/// Whether an expression names a variable that leads back to the declaration.
#[cycle(expression)]
#[tactic(auto, unfolding(crate::specs::Meaning::expr_leads_back, crate::specs::Meaning::part_leads_back, crate::specs::Meaning::argument_leads_back, crate::specs::Meaning::path_leads_back))]
pub fn expr_leads_back(at: &At<'_, '_>, e: &Expr) -> bool
    ensures { result ≡ spec.expr_leads_back (known_at at.now).project (here_of at.now) e.now }
{
    match e {
        Expr::Path(path) => path_leads_back(at, path),
        Expr::Parenthesized(_, inner) => expr_leads_back(at, inner.get()),
        Expr::Unary(_, _, operand) => expr_leads_back(at, operand.get()),
        Expr::Binary(_, _, left, right) => {
            expr_leads_back(at, left.get()) || expr_leads_back(at, right.get())
        },
        Expr::Call(_, _, arguments) => some_argument(at, arguments.as_slice()),
        Expr::Number(_, _, _) => false,
        Expr::Typed(_, _) => false,
        Expr::Time(_, _) => false,
        Expr::Truth(_, _) => false,
        Expr::Value(_, _, _) => false,
    }
}

#[cycle(expression)]
#[tactic(auto, unfolding(crate::specs::Meaning::expr_leads_back, crate::specs::Meaning::part_leads_back, crate::specs::Meaning::argument_leads_back, crate::specs::Meaning::path_leads_back))]
fn some_argument(at: &At<'_, '_>, arguments: &[Argument]) -> bool
    ensures { result ≡ spec.some_lead (map (spec.argument_leads_back (known_at at.now).project
        (here_of at.now)) arguments.now) }
{
    for argument in arguments {
        if expr_leads_back(at, argument.value.get()) {
            return true;
        }
    }
    false
}

#[cycle(expression)]
fn some_expr(at: &At<'_, '_>, list: &[Expr]) -> bool
    ensures { result ≡ spec.some_lead (map (spec.expr_leads_back (known_at at.now).project
        (here_of at.now)) list.now) }
{
    for e in list {
        if expr_leads_back(at, e) {
            return true;
        }
    }
    false
}

#[cycle(expression)]
#[tactic(auto, unfolding(crate::specs::Meaning::expr_leads_back, crate::specs::Meaning::part_leads_back, crate::specs::Meaning::argument_leads_back, crate::specs::Meaning::path_leads_back))]
fn part_leads_back(at: &At<'_, '_>, part: &Part) -> bool
    ensures { result ≡ spec.part_leads_back (known_at at.now).project (here_of at.now) part.now }
{
    match part {
        Part::Field(_) => false,
        Part::Index(_, indices) => some_expr(at, indices.as_slice()),
    }
}

#[cycle(expression)]
fn some_part(at: &At<'_, '_>, parts: &[Part]) -> bool
    ensures { result ≡ spec.some_lead (map (spec.part_leads_back (known_at at.now).project
        (here_of at.now)) parts.now) }
{
    for part in parts {
        if part_leads_back(at, part) {
            return true;
        }
    }
    false
}

#[cycle(expression)]
#[tactic(auto, unfolding(crate::specs::Meaning::expr_leads_back, crate::specs::Meaning::part_leads_back, crate::specs::Meaning::argument_leads_back, crate::specs::Meaning::path_leads_back))]
fn path_leads_back(at: &At<'_, '_>, path: &Path) -> bool
    ensures { result ≡ spec.path_leads_back (known_at at.now).project (here_of at.now) path.now }
{
    root_leads(at, &path.root) || some_part(at, path.parts.as_slice())
}

/// Whether an initial value names a variable that leads back to the declaration.
#[cycle(init)]
#[tactic(auto, unfolding(crate::specs::Meaning::init_leads_back, crate::specs::Meaning::item_leads_back, crate::specs::Meaning::field_leads_back))]
pub fn init_leads_back(at: &At<'_, '_>, init: &Init) -> bool
    ensures { result ≡ spec.init_leads_back (known_at at.now).project (here_of at.now) init.now }
{
    match init {
        Init::Value(e) => expr_leads_back(at, e.get()),
        Init::Array(_, items) => some_item(at, items.as_slice()),
        Init::Structure(_, fields) => some_field(at, fields.as_slice()),
    }
}

#[cycle(init)]
#[tactic(auto, unfolding(crate::specs::Meaning::init_leads_back, crate::specs::Meaning::item_leads_back, crate::specs::Meaning::field_leads_back))]
fn item_leads_back(at: &At<'_, '_>, item: &Item) -> bool
    ensures { result ≡ spec.item_leads_back (known_at at.now).project (here_of at.now) item.now }
{
    match item {
        Item::One(init) => init_leads_back(at, init),
        Item::Repeated(_, _, init) => init_leads_back(at, init),
    }
}

#[cycle(init)]
fn some_item(at: &At<'_, '_>, items: &[Item]) -> bool
    ensures { result ≡ spec.some_lead (map (spec.item_leads_back (known_at at.now).project
        (here_of at.now)) items.now) }
{
    for item in items {
        if item_leads_back(at, item) {
            return true;
        }
    }
    false
}

#[cycle(init)]
#[tactic(auto, unfolding(crate::specs::Meaning::init_leads_back, crate::specs::Meaning::item_leads_back, crate::specs::Meaning::field_leads_back))]
fn some_field(at: &At<'_, '_>, fields: &[FieldInit]) -> bool
    ensures { result ≡ spec.some_lead (map (spec.field_leads_back (known_at at.now).project
        (here_of at.now)) fields.now) }
{
    for field in fields {
        if init_leads_back(at, &field.value) {
            return true;
        }
    }
    false
}
