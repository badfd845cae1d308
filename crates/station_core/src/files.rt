// The files of a project, and what requests on them ask.
ghost use Rattle.std.specs.Prelude.{◌≡◌, ◌≤◌, ◌+◌, ◌-◌, ◌^◌, ℕ, min, length, map, unwrap_or, [], List, IfOk};
ghost use Rattle.std.specs.List.{sum_by};
ghost use Rattle.project_keeper.specs.Projects.{state_of as state_after};
ghost use Rattle.project_keeper.specs.Keeping.{max_edits};
ghost use Rattle.station_ports.specs.Lists.{with_file};
ghost use Rattle.station_core.specs.Answer as rule;

use project_keeper::{Edit, FileEntry, FileList, FileText, Name, Reply, WaiverList, state_at};
use station_ports::outside::NoMemory;
use std::alloc::Global;
use tree_items::Items;

/// How many edits there are: the revision of their project.
pub(crate) fn count_of(edits: &[Edit]) -> u32
    requires { length edits.now ≤ max_edits }
    ensures { result ≡ length edits.now }
{
    edits.len() as u32
}

/// The files and the waivers in force that these edits leave.
pub(crate) fn state_of(alloc: Global, edits: &[Edit]) -> Result<(FileList, WaiverList), NoMemory>
    requires { length edits.now ≤ max_edits }
    ensures { IfOk result (λ state. (state.0 ≡ (state_after edits.now).files) × (state.1 ≡ (state_after edits.now).waivers)) }
{
    state_at(alloc, edits, count_of(edits))
}

/// The names of files.
pub(crate) fn names_of(alloc: Global, files: &[FileEntry]) -> Result<Items<Name>, NoMemory>
    ensures { IfOk result (λ names. names ≡ map (λ file. file.name) files.now) }
{
    let mut names = Items::new(alloc);
    for file in files {
        names.push(file.name.copy(alloc)?)?;
    }
    Ok(names)
}

/// The text of the file of that name, none where it isn't there.
pub(crate) fn text_of(alloc: Global, files: &[FileEntry], name: &Name) -> Result<FileText, NoMemory>
    ensures { IfOk result (λ text. text ≡ unwrap_or (rule.text_of name.now files.now) []) }
{
    for file in files {
        if name.bytes() == file.name.bytes() {
            return Ok(FileText::of(file.text.bytes().to_vec(alloc)?));
        }
    }
    Ok(FileText::of(Vec::new(alloc)))
}

/// The bytes of all files with so many under that name, as far as a u64 goes.
pub(crate) fn bytes_with(files: &[FileEntry], name: &Name, text: &[u8]) -> u64
    ensures { result ≡ min (rule.bytes_of (with_file name.now text.now files.now)) (2 ^ 64 - 1) }
{
    let mut total = 0u64;
    let mut placed = false;
    for file in files {
        if !placed && name.bytes() == file.name.bytes() {
            placed = true;
            total = total.saturating_add(text.len() as u64);
        } else {
            total = total.saturating_add(file.text.bytes().len() as u64);
        }
    }
    if placed {
        total
    } else {
        total.saturating_add(text.len() as u64)
    }
}

/// The reply to Show.
pub(crate) fn shown(alloc: Global, edits: &[Edit]) -> Result<Reply, NoMemory>
    requires { length edits.now ≤ max_edits }
    ensures { IfOk result (λ reply. reply ≡ Reply.Shown (map (λ file. file.name) (state_after edits.now).files) (length edits.now)) }
{
    let (files, _) = state_of(alloc, edits)?;
    let names = names_of(alloc, files.entries())?;
    Ok(Reply::Shown {
        files: names,
        revision: count_of(edits),
    })
}

/// The reply to ReadFile of a file that is there.
pub(crate) fn text_read(alloc: Global, edits: &[Edit], file: &Name) -> Result<Reply, NoMemory>
    requires { length edits.now ≤ max_edits }
    ensures { IfOk result (λ reply. reply ≡ Reply.Text (unwrap_or (rule.text_of file.now (state_after edits.now).files) [])) }
{
    let (files, _) = state_of(alloc, edits)?;
    Ok(Reply::Text(text_of(alloc, files.entries(), file)?))
}
