// Forms in memory, which tell what they hold. They fail in the calls whose numbers are listed, counted from 1 over all calls of
// the object, and where a name isn't there.
ghost use Rattle.std.specs.Prelude.{◌≡◌, ◌≤◌, ◌<◌, ◌⊎◌, ◌↔◌, Some, None, IfOk, IsErr, IsErrOf, MatchOption, [], length};
ghost use Rattle.station_ports.specs.Calls.{IsFaultCounted, IsContent, IsTooLong, IsMissing, IsTaken, IsPut, IsCalled};
ghost use Rattle.station_ports.specs.Faults.{IsListed, IsCallCounted};
ghost use Rattle.station_ports.specs.Memory.{NamesDiffer, content_of};

use crate::faults::FailingCalls;
use crate::outside::{Failed, FileRefusal, Files, Port, PutRefusal, Sink, Source};
use crate::texts::Name;
use std::alloc::Global;
use std::io::{Cursor, Read};

/// A content under a name.
#[derive(Debug, Drop)]
pub struct FileBytes {
    pub name: Name,
    pub bytes: Vec<u8>,
}

/// Files in memory. A name that isn't listed isn't there.
#[derive(Drop)]
pub struct MemoryFiles {
    alloc: Global,
    entries: Vec<FileBytes>,
    failing: FailingCalls,
}

impl MemoryFiles {
    /// Files of these contents. Takes no memory.
    pub fn of(alloc: Global, list: Vec<FileBytes>, failing: Vec<u64>) -> Self
        requires { NamesDiffer list.items }
        ensures view { ⟦<MemoryFiles as Files>⟧.view result ≡
            record { calls = Some 0; faults = 0; contents = Some (content_of list.items) } }
        ensures failing { result.failing.numbers.items ≡ failing.items }
        ensures calls { result.failing.calls ≡ 0 }
    {
        MemoryFiles {
            alloc,
            entries: list,
            failing: FailingCalls::of(failing),
        }
    }
}

impl Files for MemoryFiles {
    ghost view = { λ m. record {
      calls = Some m.failing.calls;
      faults = m.failing.count.faults;
      contents = Some (content_of m.entries.items);
    } };

    fn read(&mut self, name: &str, limit: usize) -> Result<Vec<u8>, FileRefusal>
        ensures content { IfOk result (λ bytes.
            IsContent (⟦<MemoryFiles as Files>⟧.view self.old) name.now limit bytes.items) }
        ensures too_long { IsErrOf result FileRefusal.TooLong →
            IsTooLong (⟦<MemoryFiles as Files>⟧.view self.old) name.now limit }
        ensures missing { IsMissing (⟦<MemoryFiles as Files>⟧.view self.old) name.now →
            IsErrOf result FileRefusal.Failed ⊎ IsErrOf result FileRefusal.NoMemory }
        ensures same { (⟦<MemoryFiles as Files>⟧.view self.new).contents ≡
            (⟦<MemoryFiles as Files>⟧.view self.old).contents }
        ensures called { IsCalled (⟦<MemoryFiles as Files>⟧.view self.old).calls (⟦<MemoryFiles as Files>⟧.view self.new).calls }
        ensures cause { IsFaultCounted (⟦<MemoryFiles as Files>⟧.view self.old).faults
            (⟦<MemoryFiles as Files>⟧.view self.new).faults (IsErrOf result FileRefusal.Failed) }

        // It fails exactly in the listed calls and where the name isn't there.
        ensures fails { IsErrOf result FileRefusal.Failed ↔
            (IsListed self.old.failing ⊎ (content_of self.old.entries.items name.now ≡ None)) }
        ensures counted { IsCallCounted self.old.failing self.new.failing
            (IsErrOf result FileRefusal.Failed) }
    {
        if self.failing.next_fails() {
            return Err(FileRefusal::Failed);
        }
        match find(&self.entries, name) {
            None => {
                self.failing.raise();
                Err(FileRefusal::Failed)
            }
            Some(content) => copy_within(self.alloc, content, limit),
        }
    }
}

/// The content of the first entry of that name.
pub(crate) fn find<'a>(entries: &'a [FileBytes], name: &str) -> Option<&'a Vec<u8>>
    ensures { MatchOption result (content_of entries.now name.now ≡ None)
        (λ content. content_of entries.now name.now ≡ Some content.now.items) }
{
    for entry in entries {
        if entry.name.bytes() == name.as_bytes() {
            return Some(&entry.bytes);
        }
    }
    None
}

/// A copy of these bytes, unless there are more than the limit.
pub(crate) fn copy_within(alloc: Global, bytes: &[u8], limit: usize) -> Result<Vec<u8>, FileRefusal>
    ensures copy { IfOk result (λ copy. copy.items ≡ bytes.now) }
    ensures within { IfOk result (λ copy. length copy.items ≤ limit) }
    ensures too_long { IsErrOf result FileRefusal.TooLong → limit < length bytes.now }
    ensures unfailing { IsErrOf result FileRefusal.Failed → ⊥ }
{
    if bytes.len() > limit {
        return Err(FileRefusal::TooLong);
    }
    match bytes.to_vec(alloc) {
        Ok(copy) => Ok(copy),
        Err(_) => Err(FileRefusal::NoMemory),
    }
}

/// A source of bytes in memory.
#[derive(Drop)]
pub struct MemorySource {
    bytes: Cursor<Vec<u8>>,
    failing: FailingCalls,
}

impl MemorySource {
    /// A source of these bytes. Takes no memory.
    pub fn of(bytes: Vec<u8>, failing: Vec<u64>) -> Self
        ensures view { ⟦<MemorySource as Port>⟧.view result ≡
            record { calls = Some 0; faults = 0; left = Some bytes.items; sent = None } }
        ensures failing { result.failing.numbers.items ≡ failing.items }
        ensures calls { result.failing.calls ≡ 0 }
    {
        MemorySource {
            bytes: Cursor::new(bytes),
            failing: FailingCalls::of(failing),
        }
    }
}

impl Port for MemorySource {
    ghost view = { λ m. record {
      calls = Some m.failing.calls;
      faults = m.failing.count.faults;
      left = ⟦<Cursor<Vec<u8>> as Read>⟧.remaining m.bytes;
      sent = None;
    } };
}

impl Source for MemorySource {
    fn take(&mut self, into: &mut [u8]) -> Result<usize, Failed>
        ensures taken { IsTaken (⟦<MemorySource as Port>⟧.view self.old)
            (⟦<MemorySource as Port>⟧.view self.new) into.new result }

        // It fails exactly in the listed calls.
        ensures fails { IsErr result ↔ IsListed self.old.failing }
        ensures counted { IsCallCounted self.old.failing self.new.failing (IsErr result) }
    {
        if self.failing.next_fails() {
            return Err(Failed);
        }
        match self.bytes.read(into) {
            Ok(count) => Ok(count),
            Err(_) => unreachable!(),
        }
    }
}

/// A sink that keeps what is put.
#[derive(Drop)]
pub struct MemorySink {
    bytes: Vec<u8>,
    failing: FailingCalls,
}

impl MemorySink {
    /// A sink on which nothing was put. Takes no memory.
    pub fn of(alloc: Global, failing: Vec<u64>) -> Self
        ensures view { ⟦<MemorySink as Port>⟧.view result ≡
            record { calls = Some 0; faults = 0; left = None; sent = Some [] } }
        ensures failing { result.failing.numbers.items ≡ failing.items }
        ensures calls { result.failing.calls ≡ 0 }
    {
        MemorySink {
            bytes: Vec::new(alloc),
            failing: FailingCalls::of(failing),
        }
    }

    /// What was put.
    pub fn bytes(&self) -> &[u8]
        ensures { (⟦<MemorySink as Port>⟧.view self.now).sent ≡ Some result.now }
    {
        &self.bytes
    }
}

impl Port for MemorySink {
    ghost view = { λ m. record { calls = Some m.failing.calls; faults = m.failing.count.faults; left = None; sent = Some m.bytes.items } };
}

impl Sink for MemorySink {
    fn put(&mut self, bytes: &[u8]) -> Result<(), PutRefusal>
        ensures put { IsPut (⟦<MemorySink as Port>⟧.view self.old)
            (⟦<MemorySink as Port>⟧.view self.new) bytes.now result }

        // It fails exactly in the listed calls.
        ensures fails { IsErrOf result PutRefusal.Failed ↔ IsListed self.old.failing }
        ensures counted { IsCallCounted self.old.failing self.new.failing
            (IsErrOf result PutRefusal.Failed) }
    {
        if self.failing.next_fails() {
            return Err(PutRefusal::Failed);
        }
        match self.bytes.extend_from_slice(bytes) {
            Ok(()) => Ok(()),
            Err(_) => Err(PutRefusal::NoMemory),
        }
    }
}
