// What the edits of a project leave: its files, and the waivers in force.
ghost use Rattle.std.specs.Prelude.{◌≡◌, ◌≤◌, ◌<◌, ◌+◌, length, take, IfOk, OnOk};
ghost use Rattle.project_keeper.specs.Projects.{state_at, after};
ghost use Rattle.project_keeper.specs.Keeping.{max_edits};

use crate::edit::{Edit, copy_text, copy_waiver};
use station_ports::lists::{FileList, WaiverList};
use station_ports::outside::NoMemory;
use std::alloc::Global;

/// The files and the waivers at a revision: what the first so many edits leave.
pub fn state_at(
    alloc: Global,
    edits: &[Edit],
    revision: u32,
) -> Result<(FileList, WaiverList), NoMemory>
    requires revision { revision ≤ length edits.now }
    requires edits { length edits.now ≤ max_edits }
    ensures { IfOk result (λ state. (state.0 ≡ (state_at edits.now revision).files) × (state.1 ≡ (state_at edits.now revision).waivers)) }
{
    let mut files = FileList::new(alloc);
    let mut waivers = WaiverList::new(alloc);
    for edit in &edits[..revision as usize] {
        if apply(alloc, &mut files, &mut waivers, edit).is_err() {
            return Err(NoMemory);
        }
    }
    Ok((files, waivers))
}

/// Changes files and waivers as the edit does. NoMemory leaves them as they are.
#[tactic(auto, using(crate::proofs::States::one_more_put, crate::proofs::States::none_more_dropped))]
fn apply(
    alloc: Global,
    files: &mut FileList,
    waivers: &mut WaiverList,
    edit: &Edit,
) -> Result<(), NoMemory>
    requires { length files.old < max_edits }
    ensures files { OnOk result (files.new ≡ (after (record { files = files.old; waivers = waivers.old }) edit.now).files) }
    ensures waivers { OnOk result (waivers.new ≡ (after (record { files = files.old; waivers = waivers.old }) edit.now).waivers) }
    ensures one { OnOk result (length files.new ≤ length files.old + 1) }
{
    match edit {
        Edit::PutFile { name, text } => {
            let text = copy_text(alloc, text)?;
            let name = name.copy(alloc)?;
            files.set(name, text)
        }
        Edit::DropFile { name } => {
            files.remove(name);
            Ok(())
        }
        Edit::Waive { waiver } => waivers.set(copy_waiver(alloc, waiver)?),
        Edit::Unwaive { key } => {
            waivers.remove(key);
            Ok(())
        }
    }
}
