// The steps and actions of charts.

ghost use Rattle.std.specs.Prelude.{◌≡◌, [], ◌∷◌, flat_map, OnOk};
ghost use Rattle.project_declarations.specs.Named as names;
ghost use Rattle.project_declarations.specs.Rows.{Adds};

use crate::collected::{Collected, site_of};
use crate::rows::What;
use crate::scopes::{actions, steps};
use st_tree::{Action, Body, Sfc, SfcPart, Step};
use station_ports::outside::NoMemory;

impl<'t> Collected<'t> {
    fn step(&mut self, file: u16, unit: u32, step: &'t Step) -> Result<(), NoMemory>
        ensures { OnOk result (Adds self.old self.new [] [] (names.step_name file unit step.now ∷ [])) }
    {
        let scope = steps(unit)?;
        self.name(
            file,
            scope,
            &step.name,
            What::Step(site_of(file, step.node)),
        )?;
        Ok(())
    }

    fn action(&mut self, file: u16, unit: u32, action: &'t Action) -> Result<(), NoMemory>
        ensures { OnOk result (Adds self.old self.new [] [] (names.action_names file unit action.now)) }
    {
        let scope = actions(unit)?;
        self.name(
            file,
            scope,
            &action.name,
            What::Action(site_of(file, action.node)),
        )?;
        Ok(())
    }

    fn chart_part(&mut self, file: u16, unit: u32, part: &'t SfcPart) -> Result<(), NoMemory>
        ensures { OnOk result (Adds self.old self.new [] [] (names.chart_part_names file unit part.now)) }
    {
        match part {
            SfcPart::Step(step) => self.step(file, unit, step),
            SfcPart::Transition(_) => Ok(()),
            SfcPart::Action(action) => self.action(file, unit, action),
        }
    }

    fn chart(&mut self, file: u16, unit: u32, chart: &'t Sfc) -> Result<(), NoMemory>
        ensures { OnOk result (Adds self.old self.new [] [] (names.chart_names file unit chart.now)) }
    {
        self.step(file, unit, &chart.initial)?;
        for part in chart.parts.as_slice() {
            self.chart_part(file, unit, part)?;
        }
        Ok(())
    }

    /// The steps and actions of a unit's body.
    pub(crate) fn body(&mut self, file: u16, unit: u32, body: &'t Body) -> Result<(), NoMemory>
        ensures { OnOk result (Adds self.old self.new [] [] (names.body_names file unit body.now)) }
    {
        match body {
            Body::Statements(_) => Ok(()),
            Body::Chart(chart) => self.chart(file, unit, chart),
        }
    }
}
