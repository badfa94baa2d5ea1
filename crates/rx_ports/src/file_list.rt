//! Files in memory.
ghost use Rattle.std.specs.Prelude.{◌≡◌, ◌<◌, [], ◌∷◌, ◌++◌, length, OnOk, OnErr, MatchOption, Some, slice_get};
ghost use Rattle.rx_ports.specs.Files.{file_of, IsFileAt, file_bytes};

use rx_terms::NoMemory;
use std::alloc::Global;
use std::marker::Model;

#[derive(Drop)]
struct NamedFile {
    name: String,
    bytes: Vec<u8>,
}

/// Files in memory, by name. A contract sees the list of names and bytes, in the order of the pushes.
#[derive(Drop)]
pub struct FileList {
    alloc: Global,
    files: Vec<NamedFile>,
}

impl Model for FileList {
    ghost use Rattle.std.specs.Prelude.{ℕ, List, map, string_bytes};

    ghost Value = { List (List ℕ × List ℕ) };

    ghost view = { λ list. map (λ file. (string_bytes file.name, file.bytes.items)) list.files.items };
}

impl FileList {
    /// An empty list.
    pub fn new(alloc: Global) -> FileList
        ensures { result ≡ [] }
    {
        FileList {
            alloc,
            files: Vec::new(alloc),
        }
    }

    /// Adds a file at the end.
    pub fn push(&mut self, name: &str, bytes: &[u8]) -> Result<(), NoMemory>
        ensures ok { OnOk result (self.new ≡ self.old ++ (name.now, bytes.now) ∷ []) }
        ensures err { OnErr result (self.new ≡ self.old) }
    {
        let name = String::from_str(self.alloc, name)?;
        let bytes = Vec::from_slice(self.alloc, bytes)?;
        self.files.push(NamedFile { name, bytes })?;
        Ok(())
    }

    /// The place of the first file of this name.
    pub(crate) fn find(&self, name: &str) -> Option<usize>
        ensures { MatchOption result (file_of self.now name.now ≡ None) (λ at. IsFileAt self.now name.now at) }
    {
        for (i, file) in self.files.iter().enumerate() {
            if file.name.as_str() == name {
                return Some(i);
            }
        }
        None
    }

    /// The bytes of the file at a place.
    pub(crate) fn bytes_at(&self, at: usize) -> &[u8]
        requires { at < length self.now }
        ensures { result.now ≡ file_bytes self.now at }
    {
        self.files[at].bytes.as_slice()
    }
}
