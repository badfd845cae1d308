// The enumerations of declarations, in the order of the text.

ghost use Rattle.std.specs.Prelude.{◌≡◌, ◌∷◌, [], map, flat_map, IfOk, OnOk};
ghost use Rattle.project_declarations.specs.Rows.{bare_decl};
ghost use Rattle.type_parts.specs.Parts as parts;
ghost use Rattle.type_parts.specs.Tables.{AddsListed, enumerations_in};

use crate::listed::Listed;
use project_declarations::{DeclRow, Source};
use st_tree::{Fields, Shape, Site, Spec};
use std::alloc::{AllocError, Global};

/// The enumeration that a specification lists.
#[tactic(auto, unfolding(crate::specs::Parts::in_spec), using(crate::proofs::Adding::nothing_listed))]
fn add_spec<'t>(rows: &mut Vec<Listed<'t>>, file: u16, spec: &'t Spec) -> Result<(), AllocError>
    ensures { OnOk result (AddsListed rows.old.items rows.new.items (parts.in_spec file spec.now)) }
{
    match spec {
        Spec::Type(_, _, _) => Ok(()),
        Spec::Enumeration(node, values) => {
            let site = Site {
                file,
                node: node.number,
            };
            rows.push(Listed {
                site,
                values: values.as_slice(),
            })?;
            Ok(())
        },
        Spec::Array(_, _, element) => add_spec(rows, file, element.get()),
    }
}

fn add_fields<'t>(
    rows: &mut Vec<Listed<'t>>,
    file: u16,
    fields: &'t [Fields],
) -> Result<(), AllocError>
    ensures { OnOk result (AddsListed rows.old.items rows.new.items
        (flat_map (parts.in_fields file) fields.now)) }
{
    for group in fields {
        add_spec(rows, file, &group.spec)?;
    }
    Ok(())
}

fn add_shape<'t>(rows: &mut Vec<Listed<'t>>, file: u16, shape: &'t Shape) -> Result<(), AllocError>
    ensures { OnOk result (AddsListed rows.old.items rows.new.items
        (parts.in_shape file shape.now)) }
{
    match shape {
        Shape::Spec(spec) => add_spec(rows, file, spec),
        Shape::Structure(_, fields) => add_fields(rows, file, fields.as_slice()),
    }
}

#[tactic(auto, using(crate::proofs::Adding::nothing_listed))]
fn add_decl<'t>(rows: &mut Vec<Listed<'t>>, decl: &DeclRow<'t>) -> Result<(), AllocError>
    ensures { OnOk result (AddsListed rows.old.items rows.new.items
        (parts.in_declaration (bare_decl decl.now))) }
{
    match decl.source {
        Source::Type(written) => add_shape(rows, decl.file, &written.shape),
        Source::Variables(written) => add_spec(rows, decl.file, &written.spec),
        Source::Result(_) => Ok(()),
    }
}

/// The enumerations that declarations list.
pub(crate) fn listed<'t>(
    alloc: Global,
    decls: &[DeclRow<'t>],
) -> Result<Vec<Listed<'t>>, AllocError>
    ensures { IfOk result (λ rows. enumerations_in rows.items
        ≡ parts.enumerations_of (map bare_decl decls.now)) }
{
    let mut rows = Vec::new(alloc);
    for decl in decls {
        add_decl(&mut rows, decl)?;
    }
    Ok(rows)
}
