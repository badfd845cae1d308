// Types with initial values.

ghost use Rattle.std.specs.Prelude.{◌≡◌, length, IfOk};
ghost use Rattle.link_faults.specs.Checked.{Tells};
ghost use Rattle.declared_types.specs.Ranges.{wrong_at};
ghost use Rattle.initial_values.specs.steps.Telling.{Writes};
ghost use Rattle.declared_types.specs.BareForms.{bare_forms};
ghost use Rattle.declaration_rules.specs.Declarations as gives;
ghost use Rattle.declaration_rules.specs.steps.Telling.{Gives, around_of, known_value, known_written, known_if};

use crate::outside::Declares;
use declared_types::{Form, Given, Outside, specification};
use initial_values::{Counts, Written, alone, init_node, initial_value};
use link_faults::{Faults, LinkCode};
use st_tree::{Init, Node, Site, Spec};
use station_ports::outside::NoMemory;
use std::alloc::Global;

/// Notes a fault at a node of the file.
pub(crate) fn wrong<D: Declares, A: Drop>(
    outside: &D,
    faults: &mut Faults,
    node: Node,
    code: LinkCode,
) -> Option<A>
    ensures { Tells (wrong_at {A = A} (D.around outside.now) node code) faults.old faults.new result }
{
    faults.note(
        Site {
            file: outside.file(),
            node: node.number,
        },
        code,
    );
    None
}

// An initial value for what has a type, or none.
fn with_value<D: Declares>(
    alloc: Global,
    outside: &D,
    forms: &[Form<'_>],
    rows: &mut Vec<Written>,
    faults: &mut Faults,
    given: Option<Given>,
    init: &Init,
) -> Result<Option<Given>, NoMemory>
    ensures { IfOk result (λ it. Writes (known_value (around_of (D.around outside.now) (D.repeats outside.now)
        (D.leads outside.now) (D.twice outside.now) (D.holds outside.now)) (bare_forms forms.now)
        (length rows.old.items) init.now given) rows.old.items rows.new.items faults.old faults.new it) }
{
    match given {
        None => {
            alone(outside, faults, init);
            Ok(None)
        },
        Some(given) => {
            let value = initial_value(alloc, outside, forms, rows, faults, given, init)?;
            match value {
                None => Ok(None),
                Some(value) => Ok(Some(Given {
                    ty: given.ty,
                    value,
                    size: given.size,
                })),
            }
        },
    }
}

fn written<D: Declares>(
    alloc: Global,
    outside: &D,
    forms: &[Form<'_>],
    rows: &mut Vec<Written>,
    faults: &mut Faults,
    given: Option<Given>,
    init: &Init,
) -> Result<Option<Given>, NoMemory>
    ensures { IfOk result (λ it. Writes (known_written (around_of (D.around outside.now) (D.repeats outside.now)
        (D.leads outside.now) (D.twice outside.now) (D.holds outside.now)) (bare_forms forms.now)
        (length rows.old.items) init.now given) rows.old.items rows.new.items faults.old faults.new it) }
{
    if outside.leads_back(init) {
        Ok(wrong(outside, faults, init_node(init), LinkCode::NotConstant))
    } else {
        with_value(alloc, outside, forms, rows, faults, given, init)
    }
}

pub(crate) fn if_written<D: Declares>(
    alloc: Global,
    outside: &D,
    forms: &[Form<'_>],
    rows: &mut Vec<Written>,
    faults: &mut Faults,
    given: Option<Given>,
    init: &Option<Init>,
) -> Result<Option<Given>, NoMemory>
    ensures { IfOk result (λ it. Writes (known_if (around_of (D.around outside.now) (D.repeats outside.now)
        (D.leads outside.now) (D.twice outside.now) (D.holds outside.now)) (bare_forms forms.now)
        (length rows.old.items) init.now given) rows.old.items rows.new.items faults.old faults.new it) }
{
    match init {
        None => Ok(given),
        Some(init) => written(alloc, outside, forms, rows, faults, given, init),
    }
}

/// A specification with its initial value. `may_be` tells whether an instance may stand there.
pub(crate) fn variable<'t, D: Declares>(
    alloc: Global,
    outside: &D,
    forms: &mut Vec<Form<'t>>,
    rows: &mut Vec<Written>,
    faults: &mut Faults,
    may_be: bool,
    spec: &Spec,
    init: &Option<Init>,
) -> Result<Option<Given>, NoMemory>
    ensures { IfOk result (λ it. Gives (gives.variable (around_of (D.around outside.now) (D.repeats outside.now)
        (D.leads outside.now) (D.twice outside.now) (D.holds outside.now)) may_be (bare_forms forms.old.items)
        (length rows.old.items) spec.now init.now) forms.old.items forms.new.items rows.old.items
        rows.new.items faults.old faults.new it) }
{
    let given = specification(alloc, outside, forms, faults, may_be, spec)?;
    if_written(alloc, outside, forms, rows, faults, given, init)
}
