// The nodes of sequential function charts.

use crate::expressions::number_in_expr;
use crate::numbered::{Numbered, number_each, number_option, number_two};
use crate::numbers::Counting;
use crate::statements::number_in_stmts;
use st_tree::{Action, Association, Sfc, SfcPart, Step, StepNames, Transition};
use station_ports::outside::NoMemory;

impl Numbered for Association {
    ghost use Rattle.tree_numbers.specs.steps.Counted.{counted_association};

    ghost counted = { counted_association };

    fn number(&mut self, counting: &mut Counting<'_>) -> Result<(), NoMemory> {
        number_two(&mut self.node, &mut self.action, counting)?;
        number_option(&mut self.qualifier, counting)
    }
}

impl Numbered for Step {
    ghost use Rattle.tree_numbers.specs.steps.Counted.{counted_step};

    ghost counted = { counted_step };

    fn number(&mut self, counting: &mut Counting<'_>) -> Result<(), NoMemory> {
        number_two(&mut self.node, &mut self.name, counting)?;
        number_each(&mut self.associations, counting)
    }
}

impl Numbered for StepNames {
    ghost use Rattle.tree_numbers.specs.steps.Counted.{counted_step_names};

    ghost counted = { counted_step_names };

    fn number(&mut self, counting: &mut Counting<'_>) -> Result<(), NoMemory> {
        match self {
            StepNames::One(name) => name.number(counting),
            StepNames::Several(node, names) => {
                counting.number(node)?;
                number_each(names, counting)
            }
        }
    }
}

impl Numbered for Transition {
    ghost use Rattle.tree_numbers.specs.steps.Counted.{counted_transition};

    ghost counted = { counted_transition };

    fn number(&mut self, counting: &mut Counting<'_>) -> Result<(), NoMemory> {
        counting.number(&mut self.node)?;
        number_option(&mut self.name, counting)?;
        self.from.number(counting)?;
        self.to.number(counting)?;
        self.condition.number(counting)
    }
}

impl Numbered for Action {
    ghost use Rattle.tree_numbers.specs.steps.Counted.{counted_action};

    ghost counted = { counted_action };

    fn number(&mut self, counting: &mut Counting<'_>) -> Result<(), NoMemory> {
        number_two(&mut self.node, &mut self.name, counting)?;
        number_in_stmts(&mut self.body, counting)
    }
}

impl Numbered for SfcPart {
    ghost use Rattle.tree_numbers.specs.steps.Counted.{counted_sfc_part};

    ghost counted = { counted_sfc_part };

    fn number(&mut self, counting: &mut Counting<'_>) -> Result<(), NoMemory> {
        match self {
            SfcPart::Step(step) => step.number(counting),
            SfcPart::Transition(transition) => transition.number(counting),
            SfcPart::Action(action) => action.number(counting),
        }
    }
}

impl Numbered for Sfc {
    ghost use Rattle.tree_numbers.specs.steps.Counted.{counted_sfc};

    ghost counted = { counted_sfc };

    fn number(&mut self, counting: &mut Counting<'_>) -> Result<(), NoMemory> {
        number_two(&mut self.node, &mut self.initial, counting)?;
        number_each(&mut self.parts, counting)
    }
}
