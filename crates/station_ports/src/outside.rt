// The traits of the outside. Each object counts its faults: a call that answers Failed counts one, and no other call counts any.
// Clauses on what an object holds say something only where it tells that. What a call isn't said to change stays as it was.
ghost use Rattle.std.specs.Prelude.{◌≡◌, ◌⊎◌, IfOk, IsErrOf};
ghost use Rattle.station_ports.specs.Views.{FilesView, PortView};
ghost use Rattle.station_ports.specs.Calls.{IsFaultCounted, IsContent, IsTooLong, IsMissing, IsTaken, IsPut, IsCalled};

use std::alloc::{AllocError, AllocFailed};

/// A call failed for a cause of the outside, which its object has counted.
#[derive(Clone, Copy, Debug, PartialEq, Eq)]
pub struct Failed;

/// There was no memory for it. No object counts this as a fault.
#[derive(Clone, Copy, Debug, PartialEq, Eq)]
pub struct NoMemory;

/// Why a file isn't given.
#[derive(Clone, Copy, Debug, PartialEq, Eq)]
pub enum FileRefusal {
    /// A fault, which the files have counted. A name that isn't there is one.
    Failed,
    /// The content has more bytes than the limit.
    TooLong,
    /// There was no memory for the content.
    NoMemory,
}

/// Why bytes weren't all put.
#[derive(Clone, Copy, Debug, PartialEq, Eq)]
pub enum PutRefusal {
    /// A fault, which the sink has counted.
    Failed,
    /// There was no memory for the bytes.
    NoMemory,
}

/// Files by their names.
pub trait Files {
    ghost view: { Self → FilesView };

    /// The whole content under that name, of at most `limit` bytes; TooLong exactly where it is longer. A name that isn't
    /// there is a counted fault. The contents stay as they are.
    fn read(&mut self, name: &str, limit: usize) -> Result<Vec<u8>, FileRefusal>
        ensures content { IfOk result (λ bytes. IsContent (view self.old) name.now limit bytes.items) }
        ensures too_long { IsErrOf result FileRefusal.TooLong → IsTooLong (view self.old) name.now limit }
        ensures missing { IsMissing (view self.old) name.now →
            IsErrOf result FileRefusal.Failed ⊎ IsErrOf result FileRefusal.NoMemory }
        ensures same { (view self.new).contents ≡ (view self.old).contents }
        ensures called { IsCalled (view self.old).calls (view self.new).calls }
        ensures cause { IsFaultCounted (view self.old).faults (view self.new).faults
            (IsErrOf result FileRefusal.Failed) };
}

/// What a source and a sink have in common: one count of faults, the bytes left to take and the bytes put.
pub trait Port {
    ghost view: { Self → PortView };
}

/// Bytes that come in.
pub trait Source: Port {
    /// Fills the first places with the next bytes and gives their number, which for a slice with room is 0 exactly where
    /// no byte is left. After Failed the bytes left are as before. The bytes put stay as they are.
    fn take(&mut self, into: &mut [u8]) -> Result<usize, Failed>
        ensures { IsTaken (Self.view self.old) (Self.view self.new) into.new result };
}

/// Bytes that go out.
pub trait Sink: Port {
    /// Appends all bytes to those put, or after a refusal a first part of them, which after NoMemory isn't the whole, unless
    /// there are none. The bytes left stay as they are.
    fn put(&mut self, bytes: &[u8]) -> Result<(), PutRefusal>
        ensures { IsPut (Self.view self.old) (Self.view self.new) bytes.now result };
}

impl From<AllocError> for NoMemory {
    fn from(_: AllocError) -> Self {
        NoMemory
    }
}

impl<T: Drop> From<AllocFailed<T>> for NoMemory {
    fn from(_: AllocFailed<T>) -> Self {
        NoMemory
    }
}
