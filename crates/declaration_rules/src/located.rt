// Variables at addresses, and results of functions.

ghost use Rattle.std.specs.Prelude.{◌≡◌, length, IfOk};
ghost use Rattle.link_faults.specs.Checked.{Tells};
ghost use Rattle.declared_types.specs.BareForms.{bare_forms};
ghost use Rattle.declaration_rules.specs.Declarations as gives;
ghost use Rattle.declaration_rules.specs.steps.Telling.{Gives, around_of, known_at};

use crate::initialised::{variable, wrong};
use crate::outside::Declares;
use declared_types::{DeclType, Form, Given, Outside, type_named};
use initial_values::{Counts, Written};
use link_faults::{Faults, LinkCode};
use st_tree::{Address, Decl, Identifier, Node, TypeName};
use station_ports::outside::NoMemory;
use std::alloc::Global;

fn is_held<D: Declares>(outside: &D, address: &Address, ty: DeclType) -> bool
    ensures { result ≡ gives.is_held (around_of (D.around outside.now) (D.repeats outside.now)
        (D.leads outside.now) (D.twice outside.now) (D.holds outside.now)) address.now ty }
{
    match ty {
        DeclType::Scalar(bounds) => outside.address_holds(address.name.bytes(), bounds.elem),
        _ => false,
    }
}

fn wrong_size<D: Declares>(outside: &D, faults: &mut Faults, names: &[Identifier]) -> Option<Given>
    ensures { Tells (gives.wrong_size (around_of (D.around outside.now) (D.repeats outside.now)
        (D.leads outside.now) (D.twice outside.now) (D.holds outside.now)) names.now)
        faults.old faults.new result }
{
    match names.first() {
        None => None,
        Some(name) => wrong(outside, faults, name.node, LinkCode::WrongType),
    }
}

fn held<D: Declares>(
    outside: &D,
    faults: &mut Faults,
    address: &Address,
    names: &[Identifier],
    given: Given,
) -> Option<Given>
    ensures { Tells (gives.held (around_of (D.around outside.now) (D.repeats outside.now)
        (D.leads outside.now) (D.twice outside.now) (D.holds outside.now)) address.now names.now given)
        faults.old faults.new result }
{
    if is_held(outside, address, given.ty) {
        Some(given)
    } else {
        wrong_size(outside, faults, names)
    }
}

fn at_address<D: Declares>(
    outside: &D,
    faults: &mut Faults,
    may_stand: bool,
    decl: &Decl,
    given: Option<Given>,
) -> Option<Given>
    ensures { Tells (known_at (around_of (D.around outside.now) (D.repeats outside.now)
        (D.leads outside.now) (D.twice outside.now) (D.holds outside.now)) may_stand decl.now
        decl.now.address given) faults.old faults.new result }
{
    match &decl.address {
        None => given,
        Some(address) => {
            if may_stand {
                match given {
                    None => None,
                    Some(given) => held(outside, faults, address, decl.names.as_slice(), given),
                }
            } else {
                wrong(outside, faults, decl.node, LinkCode::OutOfProfile)
            }
        },
    }
}

/// What variables give that are declared together, or None where a fault stands in their declaration.
/// `may_be` tells whether an instance may stand there, `may_stand` whether an address may. Adds rows to
/// the tables of forms and of written values.
pub fn variables<'t, D: Declares>(
    alloc: Global,
    outside: &D,
    forms: &mut Vec<Form<'t>>,
    rows: &mut Vec<Written>,
    faults: &mut Faults,
    may_be: bool,
    may_stand: bool,
    decl: &Decl,
) -> Result<Option<Given>, NoMemory>
    ensures { IfOk result (λ it. Gives (gives.variables (around_of (D.around outside.now) (D.repeats outside.now)
        (D.leads outside.now) (D.twice outside.now) (D.holds outside.now)) may_be may_stand (bare_forms forms.old.items)
        (length rows.old.items) decl.now) forms.old.items forms.new.items rows.old.items
        rows.new.items faults.old faults.new it) }
{
    let given = variable(
        alloc, outside, forms, rows, faults, may_be, &decl.spec, &decl.init,
    )?;
    Ok(at_address(outside, faults, may_stand, decl, given))
}

fn is_single(ty: DeclType) -> bool
    ensures { result ≡ gives.is_single ty }
{
    match ty {
        DeclType::Scalar(_) => true,
        DeclType::Enumeration(_) => true,
        _ => false,
    }
}

fn single_result<D: Declares>(
    outside: &D,
    faults: &mut Faults,
    node: Node,
    given: Given,
) -> Option<Given>
    ensures { Tells (gives.single_result (around_of (D.around outside.now) (D.repeats outside.now)
        (D.leads outside.now) (D.twice outside.now) (D.holds outside.now)) node given)
        faults.old faults.new result }
{
    if is_single(given.ty) {
        Some(given)
    } else {
        wrong(outside, faults, node, LinkCode::OutOfProfile)
    }
}

/// What the result of a function gives: neither an array nor a structure nor an instance.
#[tactic(auto, using(crate::proofs::Told::bind_some, crate::proofs::Told::bind_none))]
pub fn result_type<D: Declares>(
    outside: &D,
    faults: &mut Faults,
    node: Node,
    name: &TypeName,
) -> Option<Given>
    ensures { Tells (gives.result (around_of (D.around outside.now) (D.repeats outside.now)
        (D.leads outside.now) (D.twice outside.now) (D.holds outside.now)) node name.now)
        faults.old faults.new result }
{
    match type_named(outside, faults, false, node, name) {
        None => None,
        Some(given) => single_result(outside, faults, node, given),
    }
}
