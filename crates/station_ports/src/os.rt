// The real files and standard output. They don't tell what they hold. This is the trusted edge: nothing is proved of what the
// system gives and takes.
ghost use Rattle.std.specs.Prelude.{◌≡◌, ◌⊎◌, IfOk, IsErrOf};
ghost use Rattle.station_ports.specs.Views.{untold_files, untold_port};
ghost use Rattle.station_ports.specs.Calls.{IsFaultCounted, IsContent, IsTooLong, IsMissing, IsPut, IsCalled};

use crate::faults::FaultCount;
use crate::outside::{FileRefusal, Files, Port, PutRefusal, Sink};
use std::io::{ErrorKind, Read, Write};
use std::{fs, io, rt};

/// The files of the system, by their paths. Each refusal of the system but want of memory is a counted fault.
#[derive(Drop)]
pub struct OsFiles<'a, R> {
    runtime: &'a R,
    count: FaultCount,
}

impl<'a, R> OsFiles<'a, R> {
    /// The files that this runtime reaches, with no fault so far.
    pub fn new(runtime: &'a R) -> Self
        ensures { result.count.faults ≡ 0 }
    {
        OsFiles {
            runtime,
            count: FaultCount::new(),
        }
    }
}

impl<R: rt::Files + AllocGlobal> Files for OsFiles<'_, R> {
    ghost view = { λ m. untold_files m.count.faults };

    fn read(&mut self, name: &str, limit: usize) -> Result<Vec<u8>, FileRefusal>
        ensures content { IfOk result (λ bytes.
            IsContent (untold_files self.old.count.faults) name.now limit bytes.items) }
        ensures too_long { IsErrOf result FileRefusal.TooLong →
            IsTooLong (untold_files self.old.count.faults) name.now limit }
        ensures missing { IsMissing (untold_files self.old.count.faults) name.now →
            IsErrOf result FileRefusal.Failed ⊎ IsErrOf result FileRefusal.NoMemory }
        ensures same { (untold_files self.new.count.faults).contents ≡
            (untold_files self.old.count.faults).contents }
        ensures called { IsCalled (untold_files self.old.count.faults).calls (untold_files self.new.count.faults).calls }
        ensures cause { IsFaultCounted self.old.count.faults self.new.count.faults
            (IsErrOf result FileRefusal.Failed) }
    {
        match read_at_most(self.runtime, name, limit) {
            Ok(bytes) if bytes.len() > limit => Err(FileRefusal::TooLong),
            Ok(bytes) => Ok(bytes),
            Err(error) if error.kind() == ErrorKind::OutOfMemory => Err(FileRefusal::NoMemory),
            Err(_) => {
                self.count.raise();
                Err(FileRefusal::Failed)
            }
        }
    }
}

/// The content, or of a longer one the first bytes, one more than the limit.
fn read_at_most<R: rt::Files + AllocGlobal>(
    runtime: &R,
    name: &str,
    limit: usize,
) -> io::Result<Vec<u8>> {
    let file = fs::open(runtime, name)?;
    let mut bytes = Vec::new(runtime.alloc());
    file.take((limit as u64).saturating_add(1))
        .read_to_end(&mut bytes)?;
    Ok(bytes)
}

/// Standard output. Each refusal of the system but want of memory is a counted fault.
#[derive(Drop)]
pub struct OsOut<'a, R> {
    runtime: &'a R,
    count: FaultCount,
}

impl<'a, R> OsOut<'a, R> {
    /// The standard output of this runtime, with no fault so far.
    pub fn new(runtime: &'a R) -> Self
        ensures { result.count.faults ≡ 0 }
    {
        OsOut {
            runtime,
            count: FaultCount::new(),
        }
    }
}

impl<R> Port for OsOut<'_, R> {
    ghost view = { λ m. untold_port m.count.faults };
}

impl<R: Print> Sink for OsOut<'_, R> {
    fn put(&mut self, bytes: &[u8]) -> Result<(), PutRefusal>
        ensures put { IsPut (untold_port self.old.count.faults) (untold_port self.new.count.faults)
            bytes.now result }
    {
        match io::writer(self.runtime).write_all(bytes) {
            Ok(()) => Ok(()),
            Err(error) if error.kind() == ErrorKind::OutOfMemory => Err(PutRefusal::NoMemory),
            Err(_) => {
                self.count.raise();
                Err(PutRefusal::Failed)
            }
        }
    }
}
