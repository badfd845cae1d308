// Requests to the station, and its replies.
ghost use Rattle.std.specs.Prelude.{◌≡◌};
ghost use Rattle.project_keeper.specs.Codes as codes_of;

use finding_spans::Report;
use station_ports::lists::{Waiver, WaiverKey};
use station_ports::texts::{FileText, Name};
use tree_items::Items;

/// What a caller asks of the station. `base` is the revision that an edit is meant for.
#[derive(Drop)]
pub enum Request {
    ListProjects,
    Create {
        project: Name,
    },
    Show {
        project: Name,
    },
    ReadFile {
        project: Name,
        file: Name,
    },
    PutFile {
        project: Name,
        base: u32,
        file: Name,
        text: Name,
    },
    DropFile {
        project: Name,
        base: u32,
        file: Name,
    },
    Waive {
        project: Name,
        base: u32,
        waiver: Waiver,
    },
    Unwaive {
        project: Name,
        base: u32,
        key: WaiverKey,
    },
    /// The report of a revision, or of the current one.
    Report {
        project: Name,
        revision: Option<u32>,
    },
}

/// Why the station refuses a request, by the numbers that replies give.
#[derive(Clone, Copy, Debug, PartialEq, Eq)]
pub enum StationCode {
    Unauthorised,
    NoSuchProject,
    ProjectExists,
    Stale,
    NoSuchFile,
    TextTooLong,
    NotUtf8,
    FilesFull,
    RevisionsFull,
    StoreFull,
    ProjectsFull,
    BadName,
    BadWaiver,
    KeeperFailed,
    NoMemory,
    NoSuchRevision,
}

impl StationCode {
    /// Its number, from 1 to 16.
    pub fn code(self) -> u8
        ensures { result ≡ codes_of.number_of self }
    {
        match self {
            StationCode::Unauthorised => 1,
            StationCode::NoSuchProject => 2,
            StationCode::ProjectExists => 3,
            StationCode::Stale => 4,
            StationCode::NoSuchFile => 5,
            StationCode::TextTooLong => 6,
            StationCode::NotUtf8 => 7,
            StationCode::FilesFull => 8,
            StationCode::RevisionsFull => 9,
            StationCode::StoreFull => 10,
            StationCode::ProjectsFull => 11,
            StationCode::BadName => 12,
            StationCode::BadWaiver => 13,
            StationCode::KeeperFailed => 14,
            StationCode::NoMemory => 15,
            StationCode::NoSuchRevision => 16,
        }
    }

    /// Its name.
    pub fn name(self) -> &'static str
        ensures { result.now ≡ codes_of.name_of self }
    {
        match self {
            StationCode::Unauthorised => "Unauthorised",
            StationCode::NoSuchProject => "NoSuchProject",
            StationCode::ProjectExists => "ProjectExists",
            StationCode::Stale => "Stale",
            StationCode::NoSuchFile => "NoSuchFile",
            StationCode::TextTooLong => "TextTooLong",
            StationCode::NotUtf8 => "NotUtf8",
            StationCode::FilesFull => "FilesFull",
            StationCode::RevisionsFull => "RevisionsFull",
            StationCode::StoreFull => "StoreFull",
            StationCode::ProjectsFull => "ProjectsFull",
            StationCode::BadName => "BadName",
            StationCode::BadWaiver => "BadWaiver",
            StationCode::KeeperFailed => "KeeperFailed",
            StationCode::NoMemory => "NoMemory",
            StationCode::NoSuchRevision => "NoSuchRevision",
        }
    }
}

/// A refusal, with the current revision where it is Stale or NoSuchRevision.
#[derive(Clone, Copy, Debug, PartialEq, Eq)]
pub struct Refused {
    pub code: StationCode,
    pub current: Option<u32>,
}

/// What the station replies.
#[derive(Drop)]
pub enum Reply {
    Projects(Items<Name>),
    Created,
    Shown { files: Items<Name>, revision: u32 },
    Text(FileText),
    Accepted { revision: u32 },
    Report(Report),
    Refused(Refused),
}
