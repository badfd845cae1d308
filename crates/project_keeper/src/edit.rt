// Edits of projects.
ghost use Rattle.std.specs.Prelude.{◌≡◌, IfOk};
ghost use Rattle.project_keeper.specs.Projects as projects;

use crate::names::{is_lawful_key, is_lawful_waiver, is_name};
use station_ports::lists::{Waiver, WaiverKey};
use station_ports::outside::NoMemory;
use station_ports::texts::{FileText, Name};
use std::alloc::Global;

/// A change of a project. The revision of a project is the number of its edits.
#[derive(Drop)]
pub enum Edit {
    /// The text stands under that name from here on.
    PutFile { name: Name, text: FileText },
    /// The file is taken out.
    DropFile { name: Name },
    /// The waiver is in force, in the place of one of its key.
    Waive { waiver: Waiver },
    /// The waiver of that key is no longer in force.
    Unwaive { key: WaiverKey },
}

impl Edit {
    /// What it costs in stored bytes: 64, and the bytes of its text. Takes no memory.
    pub fn cost(&self) -> u64
        ensures { result ≡ projects.cost_of self.now }
    {
        match self {
            Edit::PutFile { text, .. } => 64 + text.bytes().len() as u64,
            _ => 64,
        }
    }

    /// Whether its names are lawful and its waiver or key is valid and raised. Takes no memory.
    pub fn is_lawful(&self) -> bool
        ensures { result ≡ projects.is_lawful self.now }
    {
        match self {
            Edit::PutFile { name, .. } | Edit::DropFile { name } => is_name(name.bytes()),
            Edit::Waive { waiver } => is_lawful_waiver(waiver),
            Edit::Unwaive { key } => is_lawful_key(key),
        }
    }

    /// The same edit. NoMemory where there is none for the copy.
    pub fn copy(&self, alloc: Global) -> Result<Edit, NoMemory>
        ensures { IfOk result (λ copy. copy ≡ self.now) }
    {
        match self {
            Edit::PutFile { name, text } => copy_put(alloc, name, text),
            Edit::DropFile { name } => Ok(Edit::DropFile {
                name: name.copy(alloc)?,
            }),
            Edit::Waive { waiver } => Ok(Edit::Waive {
                waiver: copy_waiver(alloc, waiver)?,
            }),
            Edit::Unwaive { key } => Ok(Edit::Unwaive {
                key: copy_key(alloc, key)?,
            }),
        }
    }
}

fn copy_put(alloc: Global, name: &Name, text: &FileText) -> Result<Edit, NoMemory>
    ensures { IfOk result (λ copy. copy ≡ Edit.PutFile name.now text.now) }
{
    let text = copy_text(alloc, text)?;
    let name = name.copy(alloc)?;
    Ok(Edit::PutFile { name, text })
}

/// The same text. NoMemory where there is none for the copy.
pub(crate) fn copy_text(alloc: Global, text: &FileText) -> Result<FileText, NoMemory>
    ensures { IfOk result (λ copy. copy ≡ text.now) }
{
    Ok(FileText::of(text.bytes().to_vec(alloc)?))
}

/// The same key. NoMemory where there is none for the copy.
pub(crate) fn copy_key(alloc: Global, key: &WaiverKey) -> Result<WaiverKey, NoMemory>
    ensures { IfOk result (λ copy. copy ≡ key.now) }
{
    let code = key.code.copy(alloc)?;
    let unit = key.unit.copy(alloc)?;
    let subject = key.subject.copy(alloc)?;
    Ok(WaiverKey {
        code,
        unit,
        subject,
    })
}

/// The same waiver. NoMemory where there is none for the copy.
pub(crate) fn copy_waiver(alloc: Global, waiver: &Waiver) -> Result<Waiver, NoMemory>
    ensures { IfOk result (λ copy. copy ≡ waiver.now) }
{
    let code = waiver.code.copy(alloc)?;
    let unit = waiver.unit.copy(alloc)?;
    let subject = waiver.subject.copy(alloc)?;
    let reason = waiver.reason.copy(alloc)?;
    Ok(Waiver {
        code,
        unit,
        subject,
        reason,
    })
}
