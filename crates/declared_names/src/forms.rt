// The forms that are known before any declaration is computed.

ghost use Rattle.std.specs.Prelude.{◌≡◌, ◌++◌, map, IfOk, OnOk};
ghost use Rattle.project_declarations.specs.Rows.{bare_unit};
ghost use Rattle.declared_types.specs.BareForms.{bare_form, bare_forms};
ghost use Rattle.type_parts.specs.Tables.{bare_listed, enumerations_in};
ghost use Rattle.declared_names.specs.Shapes as spec;
ghost use Rattle.declared_names.specs.Tables.{project_in};

use crate::project::Project;
use declared_types::Form;
use project_declarations::{UnitNo, UnitRow};
use standard_names::StandardBlock;
use station_ports::outside::NoMemory;
use std::alloc::Global;
use type_parts::Listed;

fn block_forms<'t>(alloc: Global) -> Result<Vec<Form<'t>>, NoMemory>
    ensures { IfOk result (λ forms. bare_forms forms.items ≡ spec.block_forms) }
{
    Ok(vec![in alloc;
        Form::Standard(StandardBlock::Ctd),
        Form::Standard(StandardBlock::Ctu),
        Form::Standard(StandardBlock::FTrig),
        Form::Standard(StandardBlock::Rs),
        Form::Standard(StandardBlock::RTrig),
        Form::Standard(StandardBlock::Sr),
        Form::Standard(StandardBlock::Tof),
        Form::Standard(StandardBlock::Ton),
        Form::Standard(StandardBlock::Tp),
    ]?)
}

fn unit_no(number: usize) -> Result<UnitNo, NoMemory>
    ensures { IfOk result (λ unit. unit.0 ≡ number) }
{
    match u32::try_from(number) {
        Ok(number) => Ok(UnitNo(number)),
        Err(_) => Err(NoMemory),
    }
}

fn add_units(forms: &mut Vec<Form<'_>>, units: &[UnitRow<'_>]) -> Result<(), NoMemory>
    ensures { OnOk result (bare_forms forms.new.items
        ≡ bare_forms forms.old.items ++ spec.unit_forms (map bare_unit units.now)) }
{
    for (number, _unit) in units.iter().enumerate() {
        forms.push(Form::Block(unit_no(number)?))?;
    }
    Ok(())
}

fn listed_form<'t>(row: &Listed<'_>) -> Result<Form<'t>, NoMemory>
    ensures { IfOk result (λ form. bare_form form ≡ spec.listed_form (bare_listed row.now)) }
{
    match u32::try_from(row.count()) {
        Ok(count) => Ok(Form::Enumeration(count)),
        Err(_) => Err(NoMemory),
    }
}

fn add_enumerations(forms: &mut Vec<Form<'_>>, rows: &[Listed<'_>]) -> Result<(), NoMemory>
    ensures { OnOk result (bare_forms forms.new.items
        ≡ bare_forms forms.old.items ++ map spec.listed_form (enumerations_in rows.now)) }
{
    for row in rows {
        forms.push(listed_form(row)?)?;
    }
    Ok(())
}

impl<'t> Project<'t> {
    /// The forms of the standard's blocks, of the project's units and of its enumerations, by their numbers.
    pub fn first_forms(&self, alloc: Global) -> Result<Vec<Form<'t>>, NoMemory>
        ensures { IfOk result (λ forms. bare_forms forms.items
            ≡ spec.first_forms (project_in self.now)) }
    {
        let mut forms = block_forms(alloc)?;
        add_units(&mut forms, &self.units)?;
        add_enumerations(&mut forms, self.enumerations.rows())?;
        Ok(forms)
    }
}
