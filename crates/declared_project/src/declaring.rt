// What declarations give.

ghost use Rattle.std.specs.Prelude.{◌≡◌, length, map, IfOk};
ghost use Rattle.link_faults.specs.Checked.{Tells};
ghost use Rattle.expression_types.specs.Lists.{TellsAll};
ghost use Rattle.expression_types.specs.steps.Several as several;
ghost use Rattle.project_declarations.specs.Rows.{bare_decl};
ghost use Rattle.declared_types.specs.BareForms.{bare_forms};
ghost use Rattle.declaration_rules.specs.steps.Telling.{Gives, around_of};
ghost use Rattle.declared_types.specs.Ranges.{wrong_at};
ghost use Rattle.declared_names.specs.Tables.{known_at};
ghost use Rattle.declared_project.specs.Declaring as spec;

use crate::same_types::same_types;
use declaration_rules::{Declares, data_type, result_type, variables};
use declared_names::{At, given_at, global_number, is_constant, is_external, is_own_variable};
use declared_types::{Form, Given, Outside};
use initial_values::{Counts, Written};
use link_faults::{Faults, LinkCode};
use project_declarations::{DeclRow, Local, Owner, Source};
use st_tree::{Decl, Identifier, Node, Site, TypeName};
use station_ports::outside::NoMemory;
use std::alloc::Global;

fn wrong<D: Declares>(outside: &D, faults: &mut Faults, node: Node, code: LinkCode) -> Option<Given>
    ensures { Tells (wrong_at {A = Given} (D.around outside.now) node code) faults.old faults.new result }
{
    faults.note(
        Site {
            file: outside.file(),
            node: node.number,
        },
        code,
    );
    None
}

fn same_type<D: Declares>(
    outside: &D,
    forms: &[Form<'_>],
    faults: &mut Faults,
    name: &Identifier,
    written: Given,
    given: Given,
) -> Option<Given>
    ensures { Tells (spec.same_type (around_of (D.around outside.now) (D.repeats outside.now)
        (D.leads outside.now) (D.twice outside.now) (D.holds outside.now)) (bare_forms forms.now)
        name.now written given) faults.old faults.new result }
{
    if same_types(forms, written.ty, given.ty) {
        Some(given)
    } else {
        wrong(outside, faults, name.node, LinkCode::WrongType)
    }
}

fn external_name<D: Declares>(
    at: &At<'_, '_>,
    outside: &D,
    forms: &[Form<'_>],
    faults: &mut Faults,
    written: Option<Given>,
    name: &Identifier,
) -> Option<Given>
    ensures { Tells (spec.external_name (known_at at.now) (around_of (D.around outside.now)
        (D.repeats outside.now) (D.leads outside.now) (D.twice outside.now) (D.holds outside.now))
        (bare_forms forms.now) written name.now) faults.old faults.new result }
{
    match global_number(at.project(), name.name.bytes()) {
        None => wrong(outside, faults, name.node, LinkCode::Unknown),
        Some(number) => match given_at(at, number) {
            None => None,
            Some(given) => match written {
                None => None,
                Some(written) => same_type(outside, forms, faults, name, written, given),
            },
        },
    }
}

fn still_good(all: bool, next: Option<Given>) -> bool
    ensures { result ≡ several.still_good all next }
{
    match next {
        Some(_) => all,
        None => false,
    }
}

fn where_all(all: bool, given: Option<Given>) -> Option<Given>
    ensures { result ≡ several.where_all all given }
{
    match all {
        true => given,
        false => None,
    }
}

// Whether all names are those of globals of the type that is written.
#[tactic(auto, using(crate::proofs::Names::name_step, crate::proofs::Names::names_end))]
fn external_names<D: Declares>(
    at: &At<'_, '_>,
    outside: &D,
    forms: &[Form<'_>],
    faults: &mut Faults,
    written: Option<Given>,
    names: &[Identifier],
) -> bool
    ensures { TellsAll (map (spec.external_name (known_at at.now) (around_of (D.around outside.now)
        (D.repeats outside.now) (D.leads outside.now) (D.twice outside.now) (D.holds outside.now))
        (bare_forms forms.now) written) names.now) faults.old faults.new result }
{
    let mut all = true;
    for i in 0..names.len() {
        all = still_good(
            all,
            external_name(at, outside, forms, faults, written, &names[i]),
        );
    }
    all
}

// What a VAR_EXTERNAL gives: neither an instance nor an address may stand there.
fn external<'t, D: Declares>(
    alloc: Global,
    at: &At<'_, 't>,
    outside: &D,
    forms: &mut Vec<Form<'t>>,
    rows: &mut Vec<Written>,
    faults: &mut Faults,
    decl: &'t Decl,
) -> Result<Option<Given>, NoMemory>
    ensures { IfOk result (λ it. Gives (spec.external (known_at at.now) (around_of
        (D.around outside.now) (D.repeats outside.now) (D.leads outside.now) (D.twice outside.now)
        (D.holds outside.now)) (bare_forms forms.old.items) (length rows.old.items) decl.now)
        forms.old.items forms.new.items rows.old.items rows.new.items faults.old faults.new it) }
{
    let given = variables(alloc, outside, forms, rows, faults, false, false, decl)?;
    let all = external_names(at, outside, forms, faults, given, decl.names.as_slice());
    Ok(where_all(all, given))
}

fn local_variables<'t, D: Declares>(
    alloc: Global,
    at: &At<'_, 't>,
    outside: &D,
    forms: &mut Vec<Form<'t>>,
    rows: &mut Vec<Written>,
    faults: &mut Faults,
    local: Local,
    decl: &'t Decl,
) -> Result<Option<Given>, NoMemory>
    ensures { IfOk result (λ it. Gives (spec.local_variables (known_at at.now) (around_of
        (D.around outside.now) (D.repeats outside.now) (D.leads outside.now) (D.twice outside.now)
        (D.holds outside.now)) local (bare_forms forms.old.items) (length rows.old.items) decl.now)
        forms.old.items forms.new.items rows.old.items rows.new.items faults.old faults.new it) }
{
    if is_external(Some(Owner::Local(local))) {
        external(alloc, at, outside, forms, rows, faults, decl)
    } else {
        let own = is_own_variable(at.project(), local);
        variables(alloc, outside, forms, rows, faults, own, own, decl)
    }
}

fn owned_variables<'t, D: Declares>(
    alloc: Global,
    at: &At<'_, 't>,
    outside: &D,
    forms: &mut Vec<Form<'t>>,
    rows: &mut Vec<Written>,
    faults: &mut Faults,
    owner: Owner,
    decl: &'t Decl,
) -> Result<Option<Given>, NoMemory>
    ensures { IfOk result (λ it. Gives (spec.variables (known_at at.now) (around_of
        (D.around outside.now) (D.repeats outside.now) (D.leads outside.now) (D.twice outside.now)
        (D.holds outside.now)) owner (bare_forms forms.old.items) (length rows.old.items) decl.now)
        forms.old.items forms.new.items rows.old.items rows.new.items faults.old faults.new it) }
{
    match owner {
        Owner::Global(keep) => {
            let may_stand = !is_constant(Some(Owner::Global(keep)));
            variables(alloc, outside, forms, rows, faults, false, may_stand, decl)
        },
        Owner::Local(local) => {
            local_variables(alloc, at, outside, forms, rows, faults, local, decl)
        },
        Owner::Type => Ok(None),
        Owner::Result(_) => Ok(None),
    }
}

fn name_node(name: &TypeName) -> Node
    ensures { result ≡ spec.name_node name.now }
{
    match name {
        TypeName::Elementary(node, _) => *node,
        TypeName::Named(name) => name.node,
    }
}

/// What a declaration gives, or None where it holds a fault. Notes its faults and adds its rows to both
/// tables.
pub fn declare<'t, D: Declares>(
    alloc: Global,
    at: &At<'_, 't>,
    outside: &D,
    forms: &mut Vec<Form<'t>>,
    rows: &mut Vec<Written>,
    faults: &mut Faults,
    row: &DeclRow<'t>,
) -> Result<Option<Given>, NoMemory>
    ensures { IfOk result (λ it. Gives (spec.declare (known_at at.now) (around_of (D.around outside.now)
        (D.repeats outside.now) (D.leads outside.now) (D.twice outside.now) (D.holds outside.now))
        (bare_forms forms.old.items) (length rows.old.items) (bare_decl row.now))
        forms.old.items forms.new.items rows.old.items rows.new.items faults.old faults.new it) }
{
    match row.source {
        Source::Type(decl) => data_type(alloc, outside, forms, rows, faults, decl),
        Source::Variables(decl) => {
            owned_variables(alloc, at, outside, forms, rows, faults, row.owner, decl)
        },
        Source::Result(name) => Ok(result_type(outside, faults, name_node(name), name)),
    }
}
