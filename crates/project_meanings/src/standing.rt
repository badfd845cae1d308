// Where expressions stand.

ghost use Rattle.std.specs.Prelude.{◌≡◌, slice_get, IfOk};
ghost use Rattle.std.specs.Option.{option_map};
ghost use Rattle.project_declarations.specs.Scopes as scopes;
ghost use Rattle.project_declarations.specs.Rows.{bare_decl, bare_unit};
ghost use Rattle.declared_types.specs.BareForms.{bare_form, bare_forms};
ghost use Rattle.declared_names.specs.Tables.{known_at, here_of, project_in};
ghost use Rattle.project_meanings.specs.Whole as spec;
ghost use Rattle.project_meanings.specs.Tables.{body_in, whole_in};

use crate::table::Signatures;
use crate::whole::{Body, Whole};
use declared_names::At;
use declared_types::{Form, Given};
use expression_types::ShapeNo;
use project_declarations::{DeclRow, UnitNo, UnitRow, locals};
use station_ports::outside::NoMemory;

/// The scope of the steps of a unit's body.
fn steps_of(unit: UnitNo) -> Result<u32, NoMemory>
    ensures { IfOk result (λ scope. scope ≡ scopes.steps unit.0) }
{
    locals(unit.0)?.checked_add(1).ok_or(NoMemory)
}

fn body_of(forms: &[Form<'_>], unit: UnitNo) -> Result<Body, NoMemory>
    ensures { IfOk result (λ body. body_in body ≡ spec.body_of (bare_forms forms.now) unit) }
{
    let scope = steps_of(unit)?;
    match u32::try_from(forms.len()) {
        Ok(count) => Ok(Body {
            unit,
            step: ShapeNo(count),
            scope,
        }),
        Err(_) => Err(NoMemory),
    }
}

impl<'a, 't> Whole<'a, 't> {
    /// In configurations: outside all units, in no declaration.
    pub fn outside(
        signatures: &'a Signatures<'a, 't>,
        given: &'a [Option<Given>],
        forms: &'a [Form<'t>],
    ) -> Whole<'a, 't>
        ensures { whole_in result ≡ spec.outside (project_in signatures.now.project.now) given.now
            (bare_forms forms.now) }
    {
        Whole {
            at: At::outside(signatures.project, given),
            forms,
            signatures,
            body: None,
        }
    }

    /// In the declaration of a number. NoMemory where scopes have no room for its unit.
    pub fn in_declaration(
        signatures: &'a Signatures<'a, 't>,
        given: &'a [Option<Given>],
        forms: &'a [Form<'t>],
        number: usize,
        row: &DeclRow<'t>,
    ) -> Result<Whole<'a, 't>, NoMemory>
        ensures { IfOk result (λ whole. whole_in whole ≡ spec.in_declaration
            (project_in signatures.now.project.now) given.now (bare_forms forms.now) number
            (bare_decl row.now)) }
    {
        let at = At::of(signatures.project, given, row, number)?;
        Ok(Whole {
            at,
            forms,
            signatures,
            body: None,
        })
    }

    /// In the body of a unit. NoMemory where scopes have no room for the unit, or types for that of its
    /// steps.
    pub fn in_body(
        signatures: &'a Signatures<'a, 't>,
        given: &'a [Option<Given>],
        forms: &'a [Form<'t>],
        unit: UnitNo,
        row: &UnitRow<'t>,
    ) -> Result<Whole<'a, 't>, NoMemory>
        ensures { IfOk result (λ whole. whole_in whole ≡ spec.in_body
            (project_in signatures.now.project.now) given.now (bare_forms forms.now) unit
            (bare_unit row.now)) }
    {
        let at = At::in_unit(signatures.project, given, unit, row)?;
        let body = body_of(forms, unit)?;
        Ok(Whole {
            at,
            forms,
            signatures,
            body: Some(body),
        })
    }

    /// Where the expression stands, and what is known of all declarations.
    pub fn at(&self) -> At<'a, 't>
        ensures known { known_at result ≡ (whole_in self.now).known }
        ensures here { here_of result ≡ (whole_in self.now).here }
    {
        self.at
    }

    /// What the type of a number is, or None where no type has it.
    pub fn form_at(&self, shape: ShapeNo) -> Option<&'a Form<'t>>
        ensures { option_map (λ form. bare_form form.now) result
            ≡ slice_get (whole_in self.now).forms shape.0 }
    {
        self.forms.get(shape.0 as usize)
    }
}
