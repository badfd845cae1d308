// Copies of sequential function charts.

use crate::copied::Copied;
use crate::results::{both, four};
use st_tree::{Action, Association, Sfc, SfcPart, Step, StepNames, Transition};
use station_ports::outside::NoMemory;
use std::alloc::Global;

impl Copied for Association {
    fn copy(&self, alloc: Global) -> Result<Self, NoMemory> {
        let (action, qualifier) = both(self.action.copy(alloc), self.qualifier.copy(alloc))?;
        Ok(Association {
            node: self.node,
            action,
            qualifier,
        })
    }
}

impl Copied for Step {
    fn copy(&self, alloc: Global) -> Result<Self, NoMemory> {
        let (name, associations) = both(self.name.copy(alloc), self.associations.copy(alloc))?;
        Ok(Step {
            node: self.node,
            name,
            associations,
        })
    }
}

impl Copied for StepNames {
    fn copy(&self, alloc: Global) -> Result<Self, NoMemory> {
        match self {
            StepNames::One(name) => Ok(StepNames::One(name.copy(alloc)?)),
            StepNames::Several(node, names) => Ok(StepNames::Several(*node, names.copy(alloc)?)),
        }
    }
}

impl Copied for Transition {
    fn copy(&self, alloc: Global) -> Result<Self, NoMemory> {
        let (name, from, to, condition) = four(
            self.name.copy(alloc),
            self.from.copy(alloc),
            self.to.copy(alloc),
            self.condition.copy(alloc),
        )?;
        Ok(Transition {
            node: self.node,
            name,
            from,
            to,
            condition,
        })
    }
}

impl Copied for Action {
    fn copy(&self, alloc: Global) -> Result<Self, NoMemory> {
        let (name, body) = both(self.name.copy(alloc), self.body.copy(alloc))?;
        Ok(Action {
            node: self.node,
            name,
            body,
        })
    }
}

impl Copied for SfcPart {
    fn copy(&self, alloc: Global) -> Result<Self, NoMemory> {
        match self {
            SfcPart::Step(step) => Ok(SfcPart::Step(step.copy(alloc)?)),
            SfcPart::Transition(transition) => Ok(SfcPart::Transition(transition.copy(alloc)?)),
            SfcPart::Action(action) => Ok(SfcPart::Action(action.copy(alloc)?)),
        }
    }
}

impl Copied for Sfc {
    fn copy(&self, alloc: Global) -> Result<Self, NoMemory> {
        let (initial, parts) = both(self.initial.copy(alloc), self.parts.copy(alloc))?;
        Ok(Sfc {
            node: self.node,
            initial,
            parts,
        })
    }
}
