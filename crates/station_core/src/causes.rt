// Causes for which requests are refused.
ghost use Rattle.std.specs.Prelude.{◌≡◌, ℕ, [], ◌∷◌, option_map, not, length, nat_le, IfOk, List};
ghost use Rattle.std.specs.List.{list_any};
ghost use Rattle.station_ports.specs.Lists.{is_file_in};
ghost use Rattle.project_keeper.specs.declared.edit.Edit.{Edit as EditOf};
ghost use Rattle.std.specs.Str.{bytes_eq};
ghost use Rattle.project_keeper.specs.Projects.{state_of};
ghost use Rattle.station_core.specs.Answer as rule;

use crate::files::bytes_with;
use project_keeper::{
    FileList, MAX_EDITS, Name, Request, StationCode, Waiver, WaiverKey, WaiverList, is_name,
    is_utf8, is_valid_waiver, raised_key,
};
use st_tree::{CallerKey, Settings};
use station_ports::outside::NoMemory;
use station_ports::texts::MAX_TEXT;
use std::alloc::Global;

/// The most files of a project.
pub const MAX_PROJECT_FILES: usize = 512;

/// The most bytes of all files of a project.
pub const MAX_PROJECT_BYTES: u64 = 8_388_608;

/// Whether the caller is in the settings.
pub(crate) fn is_known(settings: &Settings, caller: &Name) -> bool
    ensures { result ≡ not (rule.is_unknown settings.now caller.now) }
{
    has_caller(settings.callers.as_slice(), caller)
}

fn has_caller(callers: &[CallerKey], caller: &Name) -> bool
    ensures { result ≡ list_any (λ known. bytes_eq known.name caller.now) callers.now }
{
    callers
        .iter()
        .any(|known| known.name.bytes() == caller.bytes())
}

/// The project that has to be there, of a request other than ListProjects and Create.
pub(crate) fn project_of(request: &Request) -> Option<&Name>
    ensures { option_map (λ name. name.now) result ≡ rule.project_of request.now }
{
    match request {
        Request::ListProjects | Request::Create { .. } => None,
        Request::Show { project }
        | Request::ReadFile { project, .. }
        | Request::PutFile { project, .. }
        | Request::DropFile { project, .. }
        | Request::Waive { project, .. }
        | Request::Unwaive { project, .. }
        | Request::Report { project, .. } => Some(project),
    }
}

/// Whether the request has a project or file name that isn't lawful.
pub(crate) fn has_bad_name(request: &Request) -> bool
    ensures { result ≡ rule.has_bad_name request.now }
{
    match request {
        Request::ListProjects => false,
        Request::ReadFile { project, file }
        | Request::PutFile { project, file, .. }
        | Request::DropFile { project, file, .. } => {
            !(is_name(project.bytes()) && is_name(file.bytes()))
        }
        Request::Create { project }
        | Request::Show { project }
        | Request::Waive { project, .. }
        | Request::Unwaive { project, .. }
        | Request::Report { project, .. } => !is_name(project.bytes()),
    }
}

/// The cause for which a request on a project is refused that only the project's edits decide: what they leave, and how many
/// there are.
pub(crate) fn cause_of(
    alloc: Global,
    files: &FileList,
    waivers: &WaiverList,
    count: u32,
    request: &Request,
) -> Result<Option<StationCode>, NoMemory>
    ensures { (edits : List EditOf) → files.now ≡ (state_of edits).files → waivers.now ≡ (state_of edits).waivers → count ≡ length edits →
        IfOk result (λ cause. cause ≡ rule.first_cause (rule.edits_causes edits request.now)) }
{
    match request {
        Request::ListProjects | Request::Create { .. } | Request::Show { .. } => Ok(None),
        Request::ReadFile { file, .. } => Ok(unread(files, file)),
        Request::PutFile {
            base,
            file,
            text,
            ..
        } => Ok(unput(files, count, *base, file, text.bytes())),
        Request::DropFile { base, file, .. } => Ok(undropped(files, count, *base, file)),
        Request::Waive { base, waiver, .. } => Ok(unwaived(count, *base, waiver)),
        Request::Unwaive { base, key, .. } => kept_waived(alloc, waivers, count, *base, key),
        Request::Report { revision, .. } => Ok(unreported(count, *revision)),
    }
}

fn unread(files: &FileList, file: &Name) -> Option<StationCode>
    ensures { result ≡ rule.first_cause ((not (is_file_in file.now files.now), StationCode.NoSuchFile) ∷ []) }
{
    if files.has(file) {
        None
    } else {
        Some(StationCode::NoSuchFile)
    }
}

fn unreported(count: u32, revision: Option<u32>) -> Option<StationCode>
    ensures { (edits : List EditOf) (project : List ℕ) → count ≡ length edits →
        result ≡ rule.first_cause (rule.edits_causes edits (Request.Report project revision)) }
{
    match revision {
        Some(revision) if revision > count => Some(StationCode::NoSuchRevision),
        _ => None,
    }
}

fn unput(files: &FileList, count: u32, base: u32, file: &Name, text: &[u8]) -> Option<StationCode>
    ensures { (edits : List EditOf) (project : List ℕ) → files.now ≡ (state_of edits).files → count ≡ length edits →
        result ≡ rule.first_cause (rule.edits_causes edits (Request.PutFile project base file.now text.now)) }
{
    if base != count {
        return Some(StationCode::Stale);
    }
    if !is_utf8(text) {
        return Some(StationCode::NotUtf8);
    }
    if text.len() > MAX_TEXT || bytes_with(files.entries(), file, text) > MAX_PROJECT_BYTES {
        return Some(StationCode::TextTooLong);
    }
    if !files.has(file) && files.entries().len() >= MAX_PROJECT_FILES {
        return Some(StationCode::FilesFull);
    }
    full(count)
}

fn undropped(files: &FileList, count: u32, base: u32, file: &Name) -> Option<StationCode>
    ensures { (edits : List EditOf) (project : List ℕ) → files.now ≡ (state_of edits).files → count ≡ length edits →
        result ≡ rule.first_cause (rule.edits_causes edits (Request.DropFile project base file.now)) }
{
    if base != count {
        return Some(StationCode::Stale);
    }
    if !files.has(file) {
        return Some(StationCode::NoSuchFile);
    }
    full(count)
}

fn unwaived(count: u32, base: u32, waiver: &Waiver) -> Option<StationCode>
    ensures { (edits : List EditOf) (project : List ℕ) → count ≡ length edits →
        result ≡ rule.first_cause (rule.edits_causes edits (Request.Waive project base waiver.now)) }
{
    if base != count {
        return Some(StationCode::Stale);
    }
    if !is_valid_waiver(waiver) {
        return Some(StationCode::BadWaiver);
    }
    full(count)
}

fn kept_waived(
    alloc: Global,
    waivers: &WaiverList,
    count: u32,
    base: u32,
    key: &WaiverKey,
) -> Result<Option<StationCode>, NoMemory>
    ensures { (edits : List EditOf) (project : List ℕ) → waivers.now ≡ (state_of edits).waivers → count ≡ length edits →
        IfOk result (λ cause. cause ≡ rule.first_cause (rule.edits_causes edits (Request.Unwaive project base key.now))) }
{
    let raised = raised_key(alloc, key)?;
    if base != count {
        return Ok(Some(StationCode::Stale));
    }
    if !waivers.has(&raised) {
        return Ok(Some(StationCode::BadWaiver));
    }
    Ok(full(count))
}

/// The refusal of an edit at the last revision.
fn full(count: u32) -> Option<StationCode>
    ensures { result ≡ rule.first_cause ((nat_le rule.max_revision count, StationCode.RevisionsFull) ∷ []) }
{
    if count as usize >= MAX_EDITS {
        Some(StationCode::RevisionsFull)
    } else {
        None
    }
}
