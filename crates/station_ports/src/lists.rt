// Files by their names, and waivers by their keys. Each name and each key stands once.
ghost use Rattle.std.specs.Prelude.{◌≡◌, ◌≤◌, ◌<◌, ◌⊎◌, ◌↔◌, true, [], length, IsTrue, OnOk, OnErr};
ghost use Rattle.std.specs.List.{position_or_len};
ghost use Rattle.station_ports.specs.Lists.{has_name, is_file_in, with_file, without_file, has_key, key_of, is_waived_in, with_waiver, without_waiver, NamesApart, KeysApart};

use crate::outside::NoMemory;
use crate::texts::{FileText, Name};
use std::alloc::Global;
use std::marker::Model;

/// The most files of a list.
pub const MAX_FILES: usize = 10_000;

/// A text under a name.
#[derive(Debug, Drop)]
pub struct FileEntry {
    pub name: Name,
    pub text: FileText,
}

/// What a waiver speaks of: the code of a rule or of a kind of alarm, and the unit and subject of what is reported.
#[derive(Debug, Drop)]
pub struct WaiverKey {
    pub code: Name,
    pub unit: Name,
    pub subject: Name,
}

/// A waiver: its key, and the reason for which it is given.
#[derive(Debug, Drop)]
pub struct Waiver {
    pub code: Name,
    pub unit: Name,
    pub subject: Name,
    pub reason: Name,
}

/// Texts under names that differ, at most `MAX_FILES` of them. To contracts it is their list.
#[derive(Debug, Drop)]
pub struct FileList {
    entries: Vec<FileEntry>,
}

impl Model for FileList {
    ghost use Rattle.std.specs.Prelude.{◌≤◌, List, length};
    ghost use Rattle.station_ports.specs.Lists.{NamesApart};
    ghost use Rattle.station_ports.specs.declared.lists.FileEntry.{FileEntry as Entry};
    ghost use Rattle.station_ports.specs.declared.lists.TheConstants.{MAX_FILES};

    ghost Value = { List Entry };

    ghost view = { λ l. l.entries.items };

    ghost invariant = { λ l. NamesApart l.entries.items × (length l.entries.items ≤ MAX_FILES) };
}

impl FileList {
    /// No files. Takes no memory.
    pub fn new(alloc: Global) -> Self
        ensures { result ≡ [] }
    {
        FileList {
            entries: Vec::new(alloc),
        }
    }

    /// The files, in the order in which their names came.
    pub fn entries(&self) -> &[FileEntry]
        ensures value { result.now ≡ self.now }
        ensures names { NamesApart self.now }
        ensures bound { length self.now ≤ MAX_FILES }
    {
        &self.entries
    }

    /// Whether there is a file of that name.
    pub fn has(&self, name: &Name) -> bool
        ensures { result ≡ is_file_in name.now self.now }
    {
        has_file(&self.entries, name)
    }

    /// Puts the text under that name, in the place of the text that stands there, or as a new last one. After NoMemory
    /// the files are as before.
    pub fn set(&mut self, name: Name, text: FileText) -> Result<(), NoMemory>
        requires { (is_file_in name self.old ≡ true) ⊎ (length self.old < MAX_FILES) }
        ensures set { OnOk result (self.new ≡ with_file name text self.old) }
        ensures refused { OnErr result (self.new ≡ self.old) }
    {
        set_file(&mut self.entries, FileEntry { name, text })
    }

    /// Takes the file of that name out, where there is one.
    pub fn remove(&mut self, name: &Name)
        ensures { self.new ≡ without_file name.now self.old }
    {
        remove_file(&mut self.entries, name);
    }
}

/// The place of the file of that name, or how many there are.
fn file_place(entries: &[FileEntry], name: &Name) -> usize
    ensures { result ≡ position_or_len (has_name name.now) entries.now }
{
    let mut at = 0;
    for entry in entries {
        if name.bytes() == entry.name.bytes() {
            return at;
        }
        at += 1;
    }
    at
}

fn has_file(entries: &[FileEntry], name: &Name) -> bool
    ensures { result ≡ is_file_in name.now entries.now }
{
    file_place(entries, name) < entries.len()
}

fn set_file(entries: &mut Vec<FileEntry>, entry: FileEntry) -> Result<(), NoMemory>
    ensures set { OnOk result (entries.new.items ≡ with_file entry.name entry.text entries.old.items) }
    ensures refused { OnErr result (entries.new.items ≡ entries.old.items) }
{
    let at = file_place(entries, &entry.name);
    if at < entries.len() {
        entries[at] = entry;
    } else {
        entries.push(entry)?;
    }
    Ok(())
}

fn remove_file(entries: &mut Vec<FileEntry>, name: &Name)
    ensures { entries.new.items ≡ without_file name.now entries.old.items }
{
    let at = file_place(entries, name);
    if at < entries.len() {
        drop(entries.remove(at));
    }
}

/// Waivers whose keys differ. To contracts it is their list.
#[derive(Debug, Drop)]
pub struct WaiverList {
    entries: Vec<Waiver>,
}

impl Model for WaiverList {
    ghost use Rattle.std.specs.Prelude.{List};
    ghost use Rattle.station_ports.specs.Lists.{KeysApart};
    ghost use Rattle.station_ports.specs.declared.lists.Waiver.{Waiver as Entry};

    ghost Value = { List Entry };

    ghost view = { λ l. l.entries.items };

    ghost invariant = { λ l. KeysApart l.entries.items };
}

impl WaiverList {
    /// No waivers. Takes no memory.
    pub fn new(alloc: Global) -> Self
        ensures { result ≡ [] }
    {
        WaiverList {
            entries: Vec::new(alloc),
        }
    }

    /// The waivers, in the order in which their keys came.
    pub fn entries(&self) -> &[Waiver]
        ensures value { result.now ≡ self.now }
        ensures keys { KeysApart self.now }
    {
        &self.entries
    }

    /// Whether there is a waiver of that key.
    pub fn has(&self, key: &WaiverKey) -> bool
        ensures { result ≡ is_waived_in key.now self.now }
    {
        has_waiver(&self.entries, key)
    }

    /// Adds the waiver, in the place of the one of its key, or as a new last one. After NoMemory the waivers are as before.
    pub fn set(&mut self, waiver: Waiver) -> Result<(), NoMemory>
        ensures set { OnOk result (self.new ≡ with_waiver waiver self.old) }
        ensures refused { OnErr result (self.new ≡ self.old) }
    {
        set_waiver(&mut self.entries, waiver)
    }

    /// Takes the waiver of that key out, where there is one.
    pub fn remove(&mut self, key: &WaiverKey)
        ensures { self.new ≡ without_waiver key.now self.old }
    {
        remove_waiver(&mut self.entries, key);
    }
}

/// Whether the three are the waiver's key. Takes no memory.
pub fn matches(waiver: &Waiver, code: &[u8], unit: &[u8], subject: &[u8]) -> bool
    ensures test { result ≡ has_key (record { code = code.now; unit = unit.now; subject = subject.now }) waiver.now }
    ensures key { IsTrue result ↔ (key_of waiver.now ≡ record { code = code.now; unit = unit.now; subject = subject.now }) }
{
    code == waiver.code.bytes() && unit == waiver.unit.bytes() && subject == waiver.subject.bytes()
}

/// The place of the first waiver of that key, or how many there are.
fn waiver_place(entries: &[Waiver], code: &Name, unit: &Name, subject: &Name) -> usize
    ensures { result ≡ position_or_len (has_key (record { code = code.now; unit = unit.now; subject = subject.now })) entries.now }
{
    let mut at = 0;
    for entry in entries {
        if matches(entry, code.bytes(), unit.bytes(), subject.bytes()) {
            return at;
        }
        at += 1;
    }
    at
}

fn has_waiver(entries: &[Waiver], key: &WaiverKey) -> bool
    ensures { result ≡ is_waived_in key.now entries.now }
{
    waiver_place(entries, &key.code, &key.unit, &key.subject) < entries.len()
}

fn set_waiver(entries: &mut Vec<Waiver>, waiver: Waiver) -> Result<(), NoMemory>
    ensures set { OnOk result (entries.new.items ≡ with_waiver waiver entries.old.items) }
    ensures refused { OnErr result (entries.new.items ≡ entries.old.items) }
{
    let at = waiver_place(entries, &waiver.code, &waiver.unit, &waiver.subject);
    if at < entries.len() {
        entries[at] = waiver;
    } else {
        entries.push(waiver)?;
    }
    Ok(())
}

fn remove_waiver(entries: &mut Vec<Waiver>, key: &WaiverKey)
    ensures { entries.new.items ≡ without_waiver key.now entries.old.items }
{
    let at = waiver_place(entries, &key.code, &key.unit, &key.subject);
    if at < entries.len() {
        drop(entries.remove(at));
    }
}
