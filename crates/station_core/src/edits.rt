// What a request does with the keeper.
ghost use Rattle.std.specs.Prelude.{◌≡◌, ◌≤◌, ◌<◌, ◌+◌, ℕ, true, false, Some, None, option_map, map, length, IfOk, OnErr, IsErrOf, List, Option};
ghost use Rattle.std.specs.List.{list_all, list_any};
ghost use Rattle.std.specs.Str.{bytes_eq};
ghost use Rattle.project_keeper.specs.declared.edit.Edit.{Edit as EditOf};
ghost use Rattle.project_keeper.specs.Names.{is_name};
ghost use Rattle.project_keeper.specs.Projects.{Rows, is_lawful, edits_of, stored};
ghost use Rattle.project_keeper.specs.Keeping.{IsFaultRisen, max_edits};
ghost use Rattle.station_core.specs.Answer as rule;
ghost use Rattle.project_keeper.specs.declared.edit.Edit.TheVariants as EditVariants;
ghost use Rattle.station_core.specs.steps.Deciding.{added, IsDecision};
ghost use Rattle.station_core.specs.Commands.{IsSaidAndHeld, IsOwn, IsRefusal};

use crate::causes::cause_of;
use crate::files::{count_of, state_of};
use project_keeper::{
    Edit, FileText, Keeper, KeeperRefusal, Name, Refused, Reply, Request, StationCode, raised_key,
    raised_waiver,
};
use station_ports::outside::NoMemory;
use station_ports::texts::MAX_TEXT;
use std::alloc::Global;

/// The most projects of a caller.
pub const MAX_PROJECTS: usize = 200;

/// The most stored bytes of a caller.
pub const MAX_STORED: u64 = 33_554_432;

/// ListProjects.
pub(crate) fn list<K: Keeper>(keeper: &mut K, caller: &Name) -> Result<Reply, KeeperRefusal>
    requires { K.is_open keeper.old }
    ensures answer { (m : Rows) → K.holds keeper.old m → K.tells keeper.new → IfOk result (λ reply.
        IsSaidAndHeld caller.now (K.holds keeper.new) (rule.own_outcome (m caller.now) Request.ListProjects) m reply) }
    ensures own { IfOk result IsOwn }
    ensures kept { (m : Rows) → K.holds keeper.old m → OnErr result (K.holds keeper.new m) }
    ensures refused { (m : Rows) → K.holds keeper.old m →
        IfOk result (λ reply. IsRefusal reply → K.holds keeper.new m) }
    ensures open { K.is_open keeper.new }
    ensures told { K.tells keeper.new → K.tells keeper.old }
    ensures cause { IsFaultRisen (K.faults keeper.old) (K.faults keeper.new)
        (IsErrOf result KeeperRefusal.Failed) }
{
    match keeper.projects(caller) {
        Ok(names) => Ok(Reply::Projects(names)),
        Err(refusal) => Err(refusal),
    }
}

/// Create.
pub(crate) fn create<K: Keeper>(
    keeper: &mut K,
    caller: &Name,
    project: &Name,
) -> Result<Reply, KeeperRefusal>
    requires open { K.is_open keeper.old }
    requires caller { is_name caller.now ≡ true }
    requires project { is_name project.now ≡ true }
    ensures answer { (m : Rows) → K.holds keeper.old m → K.tells keeper.new → IfOk result (λ reply.
        IsSaidAndHeld caller.now (K.holds keeper.new)
        (rule.own_outcome (m caller.now) (Request.Create project.now)) m reply) }
    ensures own { IfOk result IsOwn }
    ensures kept { (m : Rows) → K.holds keeper.old m → OnErr result (K.holds keeper.new m) }
    ensures refused { (m : Rows) → K.holds keeper.old m →
        IfOk result (λ reply. IsRefusal reply → K.holds keeper.new m) }
    ensures open { K.is_open keeper.new }
    ensures told { K.tells keeper.new → K.tells keeper.old }
    ensures cause { IsFaultRisen (K.faults keeper.old) (K.faults keeper.new)
        (IsErrOf result KeeperRefusal.Failed) }
{
    let names = match keeper.projects(caller) {
        Ok(names) => names,
        Err(refusal) => return Err(refusal),
    };
    if contains(names.as_slice(), project) {
        return Ok(refused(StationCode::ProjectExists, 0));
    }
    if names.len() >= MAX_PROJECTS {
        return Ok(refused(StationCode::ProjectsFull, 0));
    }
    match keeper.create(caller, project) {
        Ok(()) => Ok(Reply::Created),
        Err(refusal) => Err(refusal),
    }
}

/// Whether the name is among these.
fn contains(names: &[Name], name: &Name) -> bool
    ensures { result ≡ list_any (bytes_eq name.now) names.now }
{
    names.iter().any(|other| name.bytes() == other.bytes())
}

/// A refusal, with the current revision where its code gives it.
pub(crate) fn refused(code: StationCode, current: u32) -> Reply
    ensures { result ≡ Reply.Refused (record { code = code; current = rule.given_with code current }) }
{
    let current = match code {
        StationCode::Stale | StationCode::NoSuchRevision => Some(current),
        _ => None,
    };
    Reply::Refused(Refused { code, current })
}

/// The edit that a request asks for. None where it asks for none.
pub(crate) fn made(alloc: Global, request: &Request) -> Result<Option<Edit>, NoMemory>
    ensures { (edits : List EditOf) → rule.first_cause (rule.edits_causes edits request.now) ≡ None →
        IfOk result (λ made. made ≡ option_map (λ edit. edit.1) (rule.edit_of request.now)) }
{
    match request {
        Request::PutFile { file, text, .. } => put(alloc, file, text),
        Request::DropFile { file, .. } => Ok(Some(Edit::DropFile {
            name: file.copy(alloc)?,
        })),
        Request::Waive { waiver, .. } => Ok(Some(Edit::Waive {
            waiver: raised_waiver(alloc, waiver)?,
        })),
        Request::Unwaive { key, .. } => Ok(Some(Edit::Unwaive {
            key: raised_key(alloc, key)?,
        })),
        Request::ListProjects
        | Request::Create { .. }
        | Request::Show { .. }
        | Request::ReadFile { .. }
        | Request::Report { .. } => Ok(None),
    }
}

/// The edit that puts a text, None where that is too long.
fn put(alloc: Global, file: &Name, text: &Name) -> Result<Option<Edit>, NoMemory>
    ensures { length text.now ≤ rule.max_text → IfOk result (λ made. made ≡ Some (EditVariants.PutFile file.now text.now)) }
{
    if text.bytes().len() > MAX_TEXT {
        return Ok(None);
    }
    let text = FileText::of(text.bytes().to_vec(alloc)?);
    let name = file.copy(alloc)?;
    Ok(Some(Edit::PutFile { name, text }))
}

/// Adds an edit to a project of so many edits, unless the caller's store is full.
pub(crate) fn add<K: Keeper>(
    keeper: &mut K,
    caller: &Name,
    project: &Name,
    edit: Edit,
    count: u32,
) -> Result<Reply, KeeperRefusal>
    requires open { K.is_open keeper.old }
    requires lawful { is_lawful edit ≡ true }
    requires room { count < rule.max_revision }
    ensures answer { (m : Rows) (edits : List EditOf) → K.holds keeper.old m → K.tells keeper.new →
        edits_of project.now (m caller.now) ≡ Some edits → count ≡ length edits → IfOk result (λ reply.
        IsSaidAndHeld caller.now (K.holds keeper.new) (added (m caller.now) edits project.now edit) m reply) }
    ensures own { IfOk result IsOwn }
    ensures kept { (m : Rows) → K.holds keeper.old m → OnErr result (K.holds keeper.new m) }
    ensures refused { (m : Rows) → K.holds keeper.old m →
        IfOk result (λ reply. IsRefusal reply → K.holds keeper.new m) }
    ensures open { K.is_open keeper.new }
    ensures told { K.tells keeper.new → K.tells keeper.old }
    ensures cause { IsFaultRisen (K.faults keeper.old) (K.faults keeper.new)
        (IsErrOf result KeeperRefusal.Failed) }
{
    let stored = match keeper.stored_bytes(caller) {
        Ok(stored) => stored,
        Err(refusal) => return Err(refusal),
    };
    if stored.saturating_add(edit.cost()) > MAX_STORED {
        return Ok(refused(StationCode::StoreFull, count));
    }
    match keeper.append(caller, project, edit) {
        Ok(()) => Ok(Reply::Accepted {
            revision: count + 1,
        }),
        Err(refusal) => Err(refusal),
    }
}

/// What is to be done with a request on a project, by the project's edits.
#[derive(Drop)]
pub(crate) enum Decision {
    /// It is refused.
    Refused(StationCode),
    /// It appends this edit, where the store has room.
    Appends(Edit),
    /// It changes nothing.
    Reads,
}

/// What is to be done with a request on a project that has these edits.
pub(crate) fn decided(
    alloc: Global,
    edits: &[Edit],
    request: &Request,
) -> Result<Decision, NoMemory>
    requires { length edits.now ≤ max_edits }
    ensures { IfOk result (IsDecision edits.now request.now) }
{
    let (files, waivers) = state_of(alloc, edits)?;
    let cause = cause_of(alloc, &files, &waivers, count_of(edits), request)?;
    drop(files);
    drop(waivers);
    weighed(alloc, cause, request)
}

fn weighed(
    alloc: Global,
    cause: Option<StationCode>,
    request: &Request,
) -> Result<Decision, NoMemory>
    ensures { (edits : List EditOf) → cause ≡ rule.first_cause (rule.edits_causes edits request.now) →
        IfOk result (IsDecision edits request.now) }
{
    if let Some(code) = cause {
        return Ok(Decision::Refused(code));
    }
    match made(alloc, request) {
        Ok(Some(edit)) => Ok(Decision::Appends(edit)),
        Ok(None) => Ok(Decision::Reads),
        Err(NoMemory) => Err(NoMemory),
    }
}
