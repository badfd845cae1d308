// Names and texts of files.
ghost use Rattle.std.specs.Prelude.{◌≡◌, ℕ, ◌≤◌, List, length, IfOk};

use crate::outside::NoMemory;
use std::alloc::Global;
use std::marker::Model;

/// The most bytes of a file's text.
pub const MAX_TEXT: usize = 1_048_576;

/// Any bytes that name something. To contracts it is their list.
#[derive(Debug, Drop)]
pub struct Name {
    bytes: Vec<u8>,
}

impl Model for Name {
    ghost Value = { List ℕ };

    ghost view = { λ n. n.bytes.items };
}

impl Name {
    /// The name of these bytes. NoMemory where there is none for the copy.
    pub fn of(alloc: Global, bytes: &[u8]) -> Result<Self, NoMemory>
        ensures { IfOk result (λ name. name ≡ bytes.now) }
    {
        Ok(Name {
            bytes: bytes.to_vec(alloc)?,
        })
    }

    /// The name of these bytes. Takes no memory.
    pub fn from_vec(bytes: Vec<u8>) -> Self
        ensures { result ≡ bytes.items }
    {
        Name { bytes }
    }

    /// The name's bytes.
    pub fn bytes(&self) -> &[u8]
        ensures { result.now ≡ self.now }
    {
        &self.bytes
    }

    /// The same name. NoMemory where there is none for the copy.
    pub fn copy(&self, alloc: Global) -> Result<Self, NoMemory>
        ensures { IfOk result (λ copy. copy ≡ self.now) }
    {
        Name::of(alloc, &self.bytes)
    }
}

/// The text of a file, of at most `MAX_TEXT` bytes. To contracts it is their list.
#[derive(Debug, Drop)]
pub struct FileText {
    bytes: Vec<u8>,
}

impl Model for FileText {
    ghost use Rattle.std.specs.Prelude.{ℕ, ◌≤◌, List, length};
    ghost use Rattle.station_ports.specs.declared.texts.TheConstants.{MAX_TEXT};

    ghost Value = { List ℕ };

    ghost view = { λ t. t.bytes.items };

    ghost invariant = { λ t. length t.bytes.items ≤ MAX_TEXT };
}

impl FileText {
    /// The text of these bytes. Takes no memory.
    pub fn of(bytes: Vec<u8>) -> Self
        requires { length bytes.items ≤ MAX_TEXT }
        ensures { result ≡ bytes.items }
    {
        FileText { bytes }
    }

    /// The text's bytes.
    pub fn bytes(&self) -> &[u8]
        ensures value { result.now ≡ self.now }
        ensures bound { length self.now ≤ MAX_TEXT }
    {
        &self.bytes
    }
}
