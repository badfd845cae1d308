// Where declarations stand.

ghost use Rattle.std.specs.Prelude.{◌≡◌, IfOk};
ghost use Rattle.project_declarations.specs.Rows.{bare_decl, bare_unit};
ghost use Rattle.declared_names.specs.Project as spec;
ghost use Rattle.declared_names.specs.Tables.{known_at, here_of, project_in};

use crate::at::At;
use crate::project::Project;
use declared_types::Given;
use project_declarations::{DeclRow, Local, Owner, UnitNo, UnitRow, locals};
use st_tree::SectionKind;
use station_ports::outside::NoMemory;

fn own_scope(owner: Owner) -> Result<Option<u32>, NoMemory>
    ensures { IfOk result (λ scope. scope ≡ spec.own_scope owner) }
{
    match owner {
        Owner::Local(local) => Ok(Some(locals(local.unit.0)?)),
        Owner::Result(unit) => Ok(Some(locals(unit.0)?)),
        Owner::Global(_) => Ok(None),
        Owner::Type => Ok(None),
    }
}

impl<'a, 't> At<'a, 't> {
    /// Where a declaration with its number stands, and what is known of all. NoMemory where scopes have no
    /// room for its unit.
    pub fn of(
        project: &'a Project<'t>,
        given: &'a [Option<Given>],
        row: &DeclRow<'t>,
        number: usize,
    ) -> Result<At<'a, 't>, NoMemory>
        ensures known { IfOk result (λ at. known_at at ≡
            spec.known (project_in project.now) given.now) }
        ensures here { IfOk result (λ at. here_of at ≡ spec.here number (bare_decl row.now)) }
    {
        let own = own_scope(row.owner)?;
        Ok(At {
            project,
            given,
            number,
            file: row.file,
            owner: row.owner,
            own,
        })
    }

    /// Where expressions of configurations stand: outside all units, in no declaration.
    pub fn outside(project: &'a Project<'t>, given: &'a [Option<Given>]) -> At<'a, 't>
        ensures known { known_at result ≡ spec.known (project_in project.now) given.now }
        ensures here { here_of result ≡ spec.outside (project_in project.now) }
    {
        At {
            project,
            given,
            number: project.table.rows().len(),
            file: 0,
            owner: Owner::Global(None),
            own: None,
        }
    }

    /// Where expressions of a unit's body stand: in no declaration, and with the unit's own variables.
    /// NoMemory where scopes have no room for the unit.
    pub fn in_unit(
        project: &'a Project<'t>,
        given: &'a [Option<Given>],
        unit: UnitNo,
        row: &UnitRow<'t>,
    ) -> Result<At<'a, 't>, NoMemory>
        ensures known { IfOk result (λ at. known_at at ≡
            spec.known (project_in project.now) given.now) }
        ensures here { IfOk result (λ at. here_of at ≡
            spec.in_unit (project_in project.now) unit (bare_unit row.now)) }
    {
        let owner = Owner::Local(Local {
            unit,
            kind: SectionKind::Var,
            keep: None,
        });
        let own = own_scope(owner)?;
        Ok(At {
            project,
            given,
            number: project.table.rows().len(),
            file: row.file,
            owner,
            own,
        })
    }

    /// The place of the declaration's file among the project's files.
    pub fn file(&self) -> u16
        ensures { result ≡ (here_of self.now).file }
    {
        self.file
    }

    /// The project in which it stands.
    pub fn project(&self) -> &'a Project<'t>
        ensures { project_in result.now ≡ (known_at self.now).project }
    {
        self.project
    }

    /// What the declaration belongs to.
    pub fn owner(&self) -> Owner
        ensures { result ≡ (here_of self.now).owner }
    {
        self.owner
    }
}
