ghost use Rattle.std.specs.Prelude.{◌≡◌, ◌<◌, ◌≤◌, ◌⊎◌, ◌↔◌, Contains, IfOk, IsErrOf, IsNone, IsSomeAnd, OnOk, Some, length, position};
ghost use Rattle.pdq_edge.specs.Causes.{Rose};
ghost use Rattle.pdq_edge.specs.NamedFiles.{bytes_of, files_called, files_failed, is_named, told_bytes};

use crate::calls::FailingCalls;
use crate::{FileFault, Files};
use std::alloc::Global;
use std::marker::Model;

/// A file in memory.
#[derive(Drop)]
pub struct NamedFile {
    pub name: String,
    pub bytes: Vec<u8>,
}

/// Files in memory that never fail. A name that was given twice has its first file, and a name that was not given
/// has an empty file.
#[derive(Drop)]
pub struct SureFiles {
    files: Vec<NamedFile>,
}

impl Model for SureFiles {
    ghost use Rattle.std.specs.Prelude.{List};
    ghost use Rattle.pdq_edge.specs.declared.memory_files.NamedFile.{NamedFile};

    ghost Value = { List NamedFile };

    ghost view = { λ s. s.files.items };
}

impl SureFiles {
    /// These files, and an empty one under every other name.
    pub fn new(files: Vec<NamedFile>) -> Self
        ensures files { result ≡ files.items }
    {
        SureFiles { files }
    }

    fn bytes_of(&self, name: &str) -> &[u8]
        ensures bytes { result.now ≡ bytes_of self.now name.now }
    {
        match place_of(&self.files, name) {
            Some(place) => &self.files[place].bytes,
            None => &[],
        }
    }
}

fn is_named(file: &NamedFile, name: &str) -> bool
    ensures named { result ≡ is_named name.now file.now }
{
    file.name.as_str() == name
}

fn place_of(files: &[NamedFile], name: &str) -> Option<usize>
    ensures place { result ≡ position (is_named name.now) files.now }
{
    files.iter().position(|file| is_named(file, name))
}

/// A copy of the bytes, of which there are at most `limit`.
fn copy_whole(alloc: Global, bytes: &[u8], limit: u64) -> Result<Vec<u8>, FileFault>
    ensures bytes { IfOk result (λ read. read.items ≡ bytes.now) }
    ensures short { IfOk result (λ read. length read.items ≤ limit) }
    ensures too_long { IsErrOf result FileFault.TooLong ↔ (limit < length bytes.now) }
    ensures sure { IsErrOf result FileFault.Failed → ⊥ }
{
    if limit < bytes.len() as u64 {
        return Err(FileFault::TooLong);
    }
    let mut read = Vec::new(alloc);
    read.extend_from_slice(bytes)
        .map_err(|_| FileFault::Memory)?;
    Ok(read)
}

impl Files for SureFiles {
    ghost contents = { λ s name. Some (bytes_of s name) };

    ghost faults = { λ s. 0 };

    fn read_whole(&mut self, alloc: Global, name: &str, limit: u64) -> Result<Vec<u8>, FileFault> {
        copy_whole(alloc, self.bytes_of(name), limit)
    }
}

/// Files in memory, of whose reads those with the listed numbers fail. Reads are counted from 0. A name that was
/// given twice has its first file, and one that was not given has no file.
#[derive(Drop)]
pub struct MemFiles {
    files: Vec<NamedFile>,
    calls: FailingCalls,
}

impl Model for MemFiles {
    ghost use Rattle.pdq_edge.specs.NamedFiles.{FailingFiles};

    ghost Value = { FailingFiles };

    ghost view = { λ s. record { files = s.files.items; calls = s.calls } };
}

impl MemFiles {
    ghost use Rattle.std.specs.Prelude.{◌≡◌};
    ghost use Rattle.pdq_edge.specs.NamedFiles.{fresh_files};

    /// These files, whose reads with the numbers in `fails` fail.
    pub fn new(files: Vec<NamedFile>, fails: Vec<u64>) -> Self
        ensures fresh { result ≡ fresh_files files.items fails.items }
    {
        MemFiles {
            files,
            calls: FailingCalls::new(fails),
        }
    }
}

impl Files for MemFiles {
    ghost contents = { λ s name. told_bytes s.files name };

    ghost faults = { λ s. s.calls.faults };

    /// Fails exactly at the listed calls and at a file that is not there.
    fn read_whole(&mut self, alloc: Global, name: &str, limit: u64) -> Result<Vec<u8>, FileFault>
        ensures listed { IsErrOf result FileFault.Failed ↔ (Contains self.old.calls.fails self.old.calls.made ⊎ IsNone (told_bytes self.old.files name.now)) }
        ensures too_long { IsErrOf result FileFault.TooLong ↔ (¬ (Contains self.old.calls.fails self.old.calls.made) × IsSomeAnd (told_bytes self.old.files name.now) (λ bytes. limit < length bytes)) }
        ensures bytes { IfOk result (λ read. told_bytes self.old.files name.now ≡ Some read.items) }
        ensures short { IfOk result (λ read. length read.items ≤ limit) }
        ensures ok { OnOk result (self.new ≡ files_called self.old) }
        ensures err_failed { IsErrOf result FileFault.Failed → self.new ≡ files_failed self.old }
        ensures err_too_long { IsErrOf result FileFault.TooLong → self.new ≡ files_called self.old }
        ensures err_memory { IsErrOf result FileFault.Memory → self.new ≡ files_called self.old }
        ensures later { self.old.calls.faults ≤ self.new.calls.faults }
        ensures passed { OnOk result (self.new.calls.faults ≡ self.old.calls.faults) }
        ensures failed { IsErrOf result FileFault.Failed → Rose self.old.calls.faults self.new.calls.faults }
    {
        let listed = self.calls.fails();
        match place_of(&self.files, name) {
            Some(place) if !listed => copy_whole(alloc, &self.files[place].bytes, limit),
            _ => {
                self.calls.fault();
                Err(FileFault::Failed)
            }
        }
    }
}
