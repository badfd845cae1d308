//! Projects of callers as lists of edits, the requests on them, and the trait of what keeps them.
#![tactic(auto)]

mod edit;
mod keeper;
mod memory_keeper;
mod names;
mod request;
mod rows;
mod state;
mod sure_keeper;
mod table;

pub use edit::Edit;
pub use keeper::{Keeper, KeeperRefusal};
pub use memory_keeper::MemoryKeeper;
pub use names::{is_name, is_utf8, is_valid_key, is_valid_waiver, raised_key, raised_waiver};
pub use request::{Refused, Reply, Request, StationCode};
pub use rows::{CallerRows, ProjectRow, Rows};
pub use state::state_at;
pub use station_ports::lists::{FileEntry, FileList, Waiver, WaiverKey, WaiverList, matches};
pub use station_ports::texts::{FileText, Name};
pub use sure_keeper::SureKeeper;
pub use table::MAX_EDITS;
