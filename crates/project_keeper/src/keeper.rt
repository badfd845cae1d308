// The trait of what keeps projects.
ghost use Rattle.std.specs.Prelude.{◌≡◌, ◌≤◌, ℕ, ◌^◌, ◌-◌, true, min, length, map, IfOk, OnOk, OnErr, IfSome, IsErrOf};
ghost use Rattle.std.specs.List.{list_all};
ghost use Rattle.project_keeper.specs.Names.{is_name};
ghost use Rattle.project_keeper.specs.Projects.{Rows, is_lawful, edits_of, stored, with_project, with_edit, changed_for};
ghost use Rattle.project_keeper.specs.Keeping.{IsFaultRisen, IsAbsent, HasRoom, are_lawful_edits};

use crate::edit::Edit;
use station_ports::texts::Name;
use tree_items::Items;

/// Why a keeper refuses. A refused call leaves what it holds as it was.
#[derive(Clone, Copy, Debug, PartialEq, Eq)]
pub enum KeeperRefusal {
    /// A fault, which the keeper has counted.
    Failed,
    /// There was no memory for the call.
    NoMemory,
}

/// Keeps the projects of callers, each a list of edits.
///
/// A keeper is open from the Ok of `open` on, which is the condition of the other calls. Contracts say what a call does to
/// each model that it `holds` before the call, as far as the keeper tells after the call that it stands for one: memory
/// always tells, a file does while its disk returns what was written.
pub trait Keeper {
    /// How often a call has failed.
    ghost faults: { Self → ℕ };

    ghost is_open: { Self → Type 0 };

    ghost tells: { Self → Type 0 };

    /// These are its rows, where it tells.
    ghost holds: { Self → Rows → Type 0 };

    /// Opens the keeper that is known by this name. One that is open already stays as it is.
    fn open(&mut self, name: &str) -> Result<(), KeeperRefusal>
        ensures opened { OnOk result (is_open self.new) }
        ensures stays { is_open self.old → is_open self.new }
        ensures told { is_open self.old → tells self.new → tells self.old }
        ensures kept { is_open self.old → (m : Rows) → holds self.old m → holds self.new m }
        ensures cause { IsFaultRisen (faults self.old) (faults self.new) (IsErrOf result KeeperRefusal.Failed) };

    /// The names of the caller's projects, in order of creation.
    fn projects(&mut self, caller: &Name) -> Result<Items<Name>, KeeperRefusal>
        requires open { is_open self.old }
        ensures names { (m : Rows) → holds self.old m → tells self.new →
            IfOk result (λ names. names ≡ map (λ project. project.name) (m caller.now)) }
        ensures lawful { IfOk result (λ names. list_all is_name names ≡ true) }
        ensures kept { (m : Rows) → holds self.old m → holds self.new m }
        ensures open { is_open self.new }
        ensures told { tells self.new → tells self.old }
        ensures cause { IsFaultRisen (faults self.old) (faults self.new) (IsErrOf result KeeperRefusal.Failed) };

    /// The edits of the caller's project, at most 10,000; None exactly where the caller has no such project.
    fn edits(&mut self, caller: &Name, project: &Name) -> Result<Option<Items<Edit>>, KeeperRefusal>
        requires open { is_open self.old }
        ensures edits { (m : Rows) → holds self.old m → tells self.new →
            IfOk result (λ found. found ≡ edits_of project.now (m caller.now)) }
        ensures lawful { IfOk result (λ found. IfSome found (λ edits. are_lawful_edits edits ≡ true)) }
        ensures kept { (m : Rows) → holds self.old m → holds self.new m }
        ensures open { is_open self.new }
        ensures told { tells self.new → tells self.old }
        ensures cause { IsFaultRisen (faults self.old) (faults self.new) (IsErrOf result KeeperRefusal.Failed) };

    /// The sum of the costs of the caller's edits, as far as a u64 goes.
    fn stored_bytes(&mut self, caller: &Name) -> Result<u64, KeeperRefusal>
        requires open { is_open self.old }
        ensures bytes { (m : Rows) → holds self.old m → tells self.new →
            IfOk result (λ bytes. bytes ≡ min (stored (m caller.now)) (2 ^ 64 - 1)) }
        ensures kept { (m : Rows) → holds self.old m → holds self.new m }
        ensures open { is_open self.new }
        ensures told { tells self.new → tells self.old }
        ensures cause { IsFaultRisen (faults self.old) (faults self.new) (IsErrOf result KeeperRefusal.Failed) };

    /// Adds a project with no edits as the caller's last one, where the caller has none of that name.
    fn create(&mut self, caller: &Name, project: &Name) -> Result<(), KeeperRefusal>
        requires open { is_open self.old }
        requires caller { is_name caller.now ≡ true }
        requires project { is_name project.now ≡ true }
        ensures created { (m : Rows) → holds self.old m → tells self.new → IsAbsent project.now (m caller.now) →
            OnOk result (holds self.new (changed_for caller.now (with_project project.now) m)) }
        ensures refused { (m : Rows) → holds self.old m → OnErr result (holds self.new m) }
        ensures open { is_open self.new }
        ensures told { tells self.new → tells self.old }
        ensures cause { IsFaultRisen (faults self.old) (faults self.new) (IsErrOf result KeeperRefusal.Failed) };

    /// Adds the edit as the last one of the caller's project, where that has fewer than 10,000.
    fn append(&mut self, caller: &Name, project: &Name, edit: Edit) -> Result<(), KeeperRefusal>
        requires open { is_open self.old }
        requires edit { is_lawful edit ≡ true }
        ensures appended { (m : Rows) → holds self.old m → tells self.new → HasRoom project.now (m caller.now) →
            OnOk result (holds self.new (changed_for caller.now (with_edit project.now edit) m)) }
        ensures refused { (m : Rows) → holds self.old m → OnErr result (holds self.new m) }
        ensures open { is_open self.new }
        ensures told { tells self.new → tells self.old }
        ensures cause { IsFaultRisen (faults self.old) (faults self.new) (IsErrOf result KeeperRefusal.Failed) };
}
