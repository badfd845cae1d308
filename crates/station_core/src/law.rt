// What holds of every list of commands.
ghost use Rattle.std.specs.Prelude.{◌≡◌, ℕ, List, []};
ghost use Rattle.st_tree.specs.declared.settings.Settings.{Settings};
ghost use Rattle.project_keeper.specs.declared.request.Reply.{Reply};
ghost use Rattle.project_keeper.specs.Projects.{Rows};
ghost use Rattle.station_core.specs.Commands.{Sent, answers, answers_to, requests_of, own_answers, own_after_all, rows_after_all, AreReplies};

use crate::reviewer::Reviewer;

/// To each caller the answers are those that it would get if nobody else used the station, and its rows are those that its own
/// requests leave, whatever others ask in between. So the rows of a caller that asks nothing stay as they are.
pub fn callers_apart()
    ensures answers { (settings : Settings) (rows : Rows) (commands : List Sent) (caller : List ℕ) →
        answers_to caller (answers settings rows commands) ≡ own_answers settings caller (rows caller) (requests_of caller commands) }
    ensures rows { (settings : Settings) (rows : Rows) (commands : List Sent) (caller : List ℕ) →
        rows_after_all settings rows commands caller ≡ own_after_all settings caller (rows caller) (requests_of caller commands) }
    ensures kept { (settings : Settings) (rows : Rows) (commands : List Sent) (caller : List ℕ) →
        requests_of caller commands ≡ [] → rows_after_all settings rows commands caller ≡ rows caller }
{}

/// Stores that agree for a caller give it equal replies to equal requests, whatever else is in them and whatever others ask.
pub fn replies_agree<R: Reviewer>()
    ensures { (settings : Settings) (rows other : Rows) (commands others : List Sent) (caller : List ℕ) (got given : List Reply) →
        rows caller ≡ other caller → requests_of caller commands ≡ requests_of caller others →
        AreReplies R.reports settings (answers_to caller (answers settings rows commands)) got →
        AreReplies R.reports settings (answers_to caller (answers settings other others)) given → got ≡ given }
{}
