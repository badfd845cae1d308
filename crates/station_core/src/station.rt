// The station: it answers one command at a time.
ghost use Rattle.std.specs.Prelude.{◌≡◌, ◌≤◌, ◌⊎◌, ℕ, true, false, List, Some, length, IfOk, IfSome, IsSome, OnErr, IsErrOf};
ghost use Rattle.std.specs.List.{list_all};
ghost use Rattle.project_keeper.specs.Names.{is_name};
ghost use Rattle.project_keeper.specs.declared.rows.ProjectRow.{ProjectRow as ProjectRowOf};
ghost use Rattle.project_keeper.specs.Projects.{Rows as RowsOf, edits_of};
ghost use Rattle.project_keeper.specs.Keeping.{IsFaultRisen, are_lawful_edits, max_edits};
ghost use Rattle.station_core.specs.Answer.{outcome, own_outcome, project_of as project_named, done, rows_after, has_bad_name as has_bad_name_of};
ghost use Rattle.station_core.specs.steps.Deciding.{IsDecision};
ghost use Rattle.station_core.specs.Commands.{IsReply, IsAnswered, IsGivenUp, IsOwn, IsRefusal, refusal as refusal_of};

use crate::causes::{has_bad_name, is_known};
use crate::edits::{Decision, add, create, decided, list, refused};
use crate::files::{count_of, shown, text_read};
use crate::reviewer::Reviewer;
use project_keeper::{
    Edit, Keeper, KeeperRefusal, Name, Refused, Reply, Request, StationCode, state_at,
};
use st_tree::Settings;
use station_ports::outside::NoMemory;
use station_ports::steps::Steps;
use std::alloc::Global;
use std::sync::ledger::Ledger;

/// The station: its settings, and what makes its reports.
#[derive(Drop)]
pub struct Station<R> {
    alloc: Global,
    settings: Settings,
    reviewer: R,
    ghost callers: { list_all (λ known. is_name known.name) settings.callers ≡ true },
}

impl<R: Reviewer> Station<R> {
    /// A station with these settings. Takes no memory.
    pub fn new(alloc: Global, settings: Settings, reviewer: R) -> Self
        requires { list_all (λ known. is_name known.name) settings.callers ≡ true }
        ensures settings { result.settings ≡ settings }
        ensures reviewer { result.reviewer ≡ reviewer }
    {
        Station {
            alloc,
            settings,
            reviewer,
        }
    }

    /// Its settings.
    pub fn settings(&self) -> &Settings
        ensures { result.now ≡ self.now.settings }
    {
        &self.settings
    }

    /// Answers the request of a caller. Where the keeper tells its rows, the reply is the one that the caller's own rows define,
    /// and they change as is said there; or the keeper failed or there was no memory, and nothing has changed.
    pub fn command<K: Keeper, L: Ledger>(
        &mut self,
        keeper: &mut K,
        caller: &Name,
        request: &Request,
        steps: &mut Steps<L>,
    ) -> Reply
        requires { K.is_open keeper.old }
        ensures answer { (m : RowsOf) → K.holds keeper.old m → K.tells keeper.new →
            IsAnswered R.reports self.old.settings caller.now (K.holds keeper.new)
            (outcome self.old.settings caller.now (m caller.now) request.now) m result
            ⊎ (IsGivenUp result × K.holds keeper.new m) }
        ensures refused { (m : RowsOf) → K.holds keeper.old m → IsRefusal result → K.holds keeper.new m }
        ensures unchanged { IsRefusal result → self.new ≡ self.old }
        ensures open { K.is_open keeper.new }
        ensures told { K.tells keeper.new → K.tells keeper.old }
        ensures cause { IsFaultRisen (K.faults keeper.old) (K.faults keeper.new)
            (result ≡ refusal_of StationCode.KeeperFailed) }
        ensures settings { self.new.settings ≡ self.old.settings }
    {
        if !is_known(&self.settings, caller) {
            return refusal(StationCode::Unauthorised);
        }
        if has_bad_name(request) {
            return refusal(StationCode::BadName);
        }
        match self.answered(keeper, caller, request, steps) {
            Ok(reply) => reply,
            Err(KeeperRefusal::Failed) => refusal(StationCode::KeeperFailed),
            Err(KeeperRefusal::NoMemory) => refusal(StationCode::NoMemory),
        }
    }
}

/// A refusal without a revision.
fn refusal(code: StationCode) -> Reply
    ensures { result ≡ refusal_of code }
{
    Reply::Refused(Refused {
        code,
        current: None,
    })
}

impl<R: Reviewer> Station<R> {
    /// Answers a request of lawful names of a known caller.
    fn answered<K: Keeper, L: Ledger>(
        &mut self,
        keeper: &mut K,
        caller: &Name,
        request: &Request,
        steps: &mut Steps<L>,
    ) -> Result<Reply, KeeperRefusal>
        requires open { K.is_open keeper.old }
        requires caller { is_name caller.now ≡ true }
        requires names { has_bad_name_of request.now ≡ false }
        ensures answer { (m : RowsOf) → K.holds keeper.old m → K.tells keeper.new →
            IfOk result (IsAnswered R.reports self.old.settings caller.now (K.holds keeper.new)
            (own_outcome (m caller.now) request.now) m) }
        ensures own { IfOk result IsOwn }
        ensures kept { (m : RowsOf) → K.holds keeper.old m → OnErr result (K.holds keeper.new m) }
        ensures refused { (m : RowsOf) → K.holds keeper.old m →
            IfOk result (λ reply. IsRefusal reply → K.holds keeper.new m) }
        ensures failed { OnErr result (self.new ≡ self.old) }
        ensures unchanged { IfOk result (λ reply. IsRefusal reply → self.new ≡ self.old) }
        ensures open { K.is_open keeper.new }
        ensures told { K.tells keeper.new → K.tells keeper.old }
        ensures cause { IsFaultRisen (K.faults keeper.old) (K.faults keeper.new)
            (IsErrOf result KeeperRefusal.Failed) }
        ensures settings { self.new.settings ≡ self.old.settings }
    {
        match request {
            Request::ListProjects => list(keeper, caller),
            Request::Create { project } => create(keeper, caller, project),
            Request::Show { project }
            | Request::ReadFile { project, .. }
            | Request::PutFile { project, .. }
            | Request::DropFile { project, .. }
            | Request::Waive { project, .. }
            | Request::Unwaive { project, .. }
            | Request::Report { project, .. } => {
                self.on_project(keeper, caller, project, request, steps)
            }
        }
    }

    /// Answers a request on a project.
    fn on_project<K: Keeper, L: Ledger>(
        &mut self,
        keeper: &mut K,
        caller: &Name,
        project: &Name,
        request: &Request,
        steps: &mut Steps<L>,
    ) -> Result<Reply, KeeperRefusal>
        requires open { K.is_open keeper.old }
        requires named { project_named request.now ≡ Some project.now }
        requires names { has_bad_name_of request.now ≡ false }
        ensures answer { (m : RowsOf) → K.holds keeper.old m → K.tells keeper.new →
            IfOk result (IsAnswered R.reports self.old.settings caller.now (K.holds keeper.new)
            (own_outcome (m caller.now) request.now) m) }
        ensures own { IfOk result IsOwn }
        ensures kept { (m : RowsOf) → K.holds keeper.old m → OnErr result (K.holds keeper.new m) }
        ensures refused { (m : RowsOf) → K.holds keeper.old m →
            IfOk result (λ reply. IsRefusal reply → K.holds keeper.new m) }
        ensures failed { OnErr result (self.new ≡ self.old) }
        ensures unchanged { IfOk result (λ reply. IsRefusal reply → self.new ≡ self.old) }
        ensures open { K.is_open keeper.new }
        ensures told { K.tells keeper.new → K.tells keeper.old }
        ensures cause { IsFaultRisen (K.faults keeper.old) (K.faults keeper.new)
            (IsErrOf result KeeperRefusal.Failed) }
        ensures settings { self.new.settings ≡ self.old.settings }
    {
        let edits = match keeper.edits(caller, project) {
            Ok(Some(edits)) => edits,
            Ok(None) => return Ok(refused(StationCode::NoSuchProject, 0)),
            Err(refusal) => return Err(refusal),
        };
        self.on_edits(keeper, caller, project, edits.as_slice(), request, steps)
    }

    /// Answers a request on a project that has these edits.
    fn on_edits<K: Keeper, L: Ledger>(
        &mut self,
        keeper: &mut K,
        caller: &Name,
        project: &Name,
        edits: &[Edit],
        request: &Request,
        steps: &mut Steps<L>,
    ) -> Result<Reply, KeeperRefusal>
        requires open { K.is_open keeper.old }
        requires named { project_named request.now ≡ Some project.now }
        requires names { has_bad_name_of request.now ≡ false }
        requires edits { are_lawful_edits edits.now ≡ true }
        ensures answer { (m : RowsOf) → K.holds keeper.old m → K.tells keeper.new →
            edits_of project.now (m caller.now) ≡ Some edits.now →
            IfOk result (IsAnswered R.reports self.old.settings caller.now (K.holds keeper.new)
            (own_outcome (m caller.now) request.now) m) }
        ensures own { IfOk result IsOwn }
        ensures kept { (m : RowsOf) → K.holds keeper.old m → OnErr result (K.holds keeper.new m) }
        ensures refused { (m : RowsOf) → K.holds keeper.old m →
            IfOk result (λ reply. IsRefusal reply → K.holds keeper.new m) }
        ensures failed { OnErr result (self.new ≡ self.old) }
        ensures unchanged { IfOk result (λ reply. IsRefusal reply → self.new ≡ self.old) }
        ensures open { K.is_open keeper.new }
        ensures told { K.tells keeper.new → K.tells keeper.old }
        ensures cause { IsFaultRisen (K.faults keeper.old) (K.faults keeper.new)
            (IsErrOf result KeeperRefusal.Failed) }
        ensures settings { self.new.settings ≡ self.old.settings }
    {
        match decided(self.alloc, edits, request) {
            Err(NoMemory) => Err(KeeperRefusal::NoMemory),
            Ok(Decision::Refused(code)) => Ok(refused(code, count_of(edits))),
            Ok(Decision::Appends(edit)) => { add(keeper, caller, project, edit, count_of(edits)) }
            Ok(Decision::Reads) => match self.read(edits, request, steps) {
                Ok(reply) => Ok(reply),
                Err(NoMemory) => Err(KeeperRefusal::NoMemory),
            },
        }
    }
}

impl<R: Reviewer> Station<R> {
    /// Answers a request that changes nothing, on a project that has these edits, which don't refuse it.
    fn read<L: Ledger>(
        &mut self,
        edits: &[Edit],
        request: &Request,
        steps: &mut Steps<L>,
    ) -> Result<Reply, NoMemory>
        requires edits { length edits.now ≤ max_edits }
        requires named { IsSome (project_named request.now) }
        requires passed { IsDecision edits.now request.now Decision.Reads }
        ensures answer { (own : List ProjectRowOf) → IfOk result (λ reply.
            IsReply R.reports self.old.settings (done own edits.now request.now).answer reply) }
        ensures own { IfOk result IsOwn }
        ensures given { IfOk result (λ reply. IsRefusal reply → ⊥) }
        ensures failed { OnErr result (self.new ≡ self.old) }
        ensures settings { self.new.settings ≡ self.old.settings }
    {
        match request {
            Request::Show { .. } => shown(self.alloc, edits),
            Request::ReadFile { file, .. } => text_read(self.alloc, edits, file),
            Request::Report { revision, .. } => self.report_at(edits, *revision, steps),
            Request::ListProjects
            | Request::Create { .. }
            | Request::PutFile { .. }
            | Request::DropFile { .. }
            | Request::Waive { .. }
            | Request::Unwaive { .. } => unreachable!(),
        }
    }

    /// The report of a revision, or of the current one.
    fn report_at<L: Ledger>(
        &mut self,
        edits: &[Edit],
        revision: Option<u32>,
        steps: &mut Steps<L>,
    ) -> Result<Reply, NoMemory>
        requires edits { length edits.now ≤ max_edits }
        requires revision { IfSome revision (λ at. at ≤ length edits.now) }
        ensures answer { (own : List ProjectRowOf) (project : List ℕ) → IfOk result (λ reply.
            IsReply R.reports self.old.settings
            (done own edits.now (Request.Report project revision)).answer reply) }
        ensures own { IfOk result IsOwn }
        ensures given { IfOk result (λ reply. IsRefusal reply → ⊥) }
        ensures failed { OnErr result (self.new ≡ self.old) }
        ensures settings { self.new.settings ≡ self.old.settings }
    {
        let at = revision.unwrap_or(count_of(edits));
        let (files, waivers) = state_at(self.alloc, edits, at)?;
        let report = self
            .reviewer
            .report(&files, &waivers, &self.settings, steps)?;
        Ok(Reply::Report(report))
    }
}
