// Alarms as the analysis tells them.

use crate::node::Site;
use iec_tables::kind::Kind;

/// A possible run-time fault: its kind, its node, and the hull of the values that may bring it about.
#[derive(Clone, Copy, Debug, PartialEq, Eq)]
pub struct Hit {
    pub site: Site,
    pub kind: Kind,
    pub low: i128,
    pub high: i128,
}
