// Tasks.

ghost use Rattle.std.specs.Prelude.{◌≡◌, flat_map, codes};
ghost use Rattle.link_faults.specs.First.{after};
ghost use Rattle.expression_types.specs.Meanings.{meant};
ghost use Rattle.unit_rules.specs.Noted.{fault_where, fault_at};
ghost use Rattle.unit_rules.specs.Parameters as spec;

use crate::noted::note_at;
use crate::parameters::note_parameters;
use expression_types::{Meaning, Names};
use link_faults::{Faults, LinkCode};
use st_tree::Task;

#[tactic(auto, using(crate::proofs::Noting::after_append))]
fn note_task<M: Meaning>(meaning: &M, file: u16, task: &Task, faults: &mut Faults)
    ensures { faults.new ≡ after faults.old (spec.task_faults (meant (M.names meaning.now)
        (M.parts meaning.now)) file task.now) }
{
    let given = note_parameters(meaning, file, task.parameters.as_slice(), faults);
    if !given.priority {
        note_at(file, task.node, LinkCode::WrongCall, faults);
    }
}

/// Notes what is wrong with tasks.
pub(crate) fn note_tasks<M: Meaning>(meaning: &M, file: u16, tasks: &[Task], faults: &mut Faults)
    ensures { faults.new ≡ after faults.old (flat_map (spec.task_faults (meant
        (M.names meaning.now) (M.parts meaning.now)) file) tasks.now) }
{
    for task in tasks {
        note_task(meaning, file, task, faults);
    }
}
