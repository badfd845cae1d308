// Forms in memory that never fail: their count of faults is the constant 0. They don't tell how often they were called.
ghost use Rattle.std.specs.Prelude.{◌≡◌, Some, None, []};
ghost use Rattle.station_ports.specs.Memory.{NamesDiffer, content_or_empty};

use crate::memory::{FileBytes, copy_within, find};
use crate::outside::{Failed, FileRefusal, Files, Port, PutRefusal, Sink, Source};
use std::alloc::Global;
use std::io::{Cursor, Read};

/// Files that never fail. Each name that isn't listed has an empty content.
#[derive(Drop)]
pub struct SureFiles {
    alloc: Global,
    entries: Vec<FileBytes>,
}

impl SureFiles {
    /// Files of these contents. Takes no memory.
    pub fn of(alloc: Global, list: Vec<FileBytes>) -> Self
        requires { NamesDiffer list.items }
        ensures { ⟦<SureFiles as Files>⟧.view result ≡
            record { calls = None; faults = 0; contents = Some (content_or_empty list.items) } }
    {
        SureFiles {
            alloc,
            entries: list,
        }
    }
}

impl Files for SureFiles {
    ghost view = { λ m. record { calls = None; faults = 0; contents = Some (content_or_empty m.entries.items) } };

    fn read(&mut self, name: &str, limit: usize) -> Result<Vec<u8>, FileRefusal> {
        copy_within(self.alloc, find_or_empty(&self.entries, name), limit)
    }
}

/// The content of the first entry of that name, empty where there is none.
fn find_or_empty<'a>(entries: &'a [FileBytes], name: &str) -> &'a [u8]
    ensures { content_or_empty entries.now name.now ≡ Some result.now }
{
    match find(entries, name) {
        Some(content) => content,
        None => &[],
    }
}

/// A source that never fails.
#[derive(Drop)]
pub struct SureSource {
    bytes: Cursor<Vec<u8>>,
}

impl SureSource {
    /// A source of these bytes. Takes no memory.
    pub fn of(bytes: Vec<u8>) -> Self
        ensures { ⟦<SureSource as Port>⟧.view result ≡
            record { calls = None; faults = 0; left = Some bytes.items; sent = None } }
    {
        SureSource {
            bytes: Cursor::new(bytes),
        }
    }
}

impl Port for SureSource {
    ghost view = { λ m. record {
      calls = None;
      faults = 0;
      left = ⟦<Cursor<Vec<u8>> as Read>⟧.remaining m.bytes;
      sent = None;
    } };
}

impl Source for SureSource {
    fn take(&mut self, into: &mut [u8]) -> Result<usize, Failed> {
        match self.bytes.read(into) {
            Ok(count) => Ok(count),
            Err(_) => unreachable!(),
        }
    }
}

/// A sink that never fails and keeps what is put.
#[derive(Drop)]
pub struct SureSink {
    bytes: Vec<u8>,
}

impl SureSink {
    /// A sink on which nothing was put. Takes no memory.
    pub fn of(alloc: Global) -> Self
        ensures { ⟦<SureSink as Port>⟧.view result ≡
            record { calls = None; faults = 0; left = None; sent = Some [] } }
    {
        SureSink {
            bytes: Vec::new(alloc),
        }
    }

    /// What was put.
    pub fn bytes(&self) -> &[u8]
        ensures { (⟦<SureSink as Port>⟧.view self.now).sent ≡ Some result.now }
    {
        &self.bytes
    }
}

impl Port for SureSink {
    ghost view = { λ m. record { calls = None; faults = 0; left = None; sent = Some m.bytes.items } };
}

impl Sink for SureSink {
    fn put(&mut self, bytes: &[u8]) -> Result<(), PutRefusal> {
        match self.bytes.extend_from_slice(bytes) {
            Ok(()) => Ok(()),
            Err(_) => Err(PutRefusal::NoMemory),
        }
    }
}
