ghost use Rattle.std.specs.Prelude.{◌≡◌, ◌<◌, ◌≤◌, ◌↔◌, [], IfOk, IsErrOf, IsTrue, OnErr, OnOk, Some, length, slice_get};
ghost use Rattle.sha2.specs.Sha256.{sha256};
ghost use Rattle.pdq_edge.specs.Blocks.{most_held, most_puts, IsFull};
ghost use Rattle.pdq_edge.specs.Bytes.{told_count};
ghost use Rattle.pdq_edge.specs.Causes.{HasCause, Rose};
ghost use Rattle.pdq_edge.specs.Digests.{file_failed, file_put};

use crate::spill::is_full;
use crate::{Failed, Spill, StoreFault};
use pdq_base::Memory;
use sha2::{Digest, Sha256};
use std::alloc::Global;
use std::fs;
use std::fs::{OpenFile, OpenOptions};
use std::io::{Read, Seek, SeekFrom, Write};
use std::marker::Model;
use std::path::{Path, PathBuf};

// How many bytes a block has.
const BLOCK: u64 = 4096;

/// Writes a block at its place of a file. Where that fails a part of it may be written.
pub(crate) fn write_at<F: Write + Seek>(
    file: &mut F,
    place: u32,
    block: &[u8; 4096],
) -> Result<(), Failed> {
    let Ok(_) = file.seek(SeekFrom::Start(u64::from(place) * BLOCK)) else {
        return Err(Failed);
    };
    match file.write_all(block.as_slice()) {
        Ok(()) => Ok(()),
        Err(_) => Err(Failed),
    }
}

/// Reads the block at a place of a file.
pub(crate) fn read_at<F: Read + Seek>(
    file: &mut F,
    place: u32,
    into: &mut [u8; 4096],
) -> Result<(), Failed> {
    let Ok(_) = file.seek(SeekFrom::Start(u64::from(place) * BLOCK)) else {
        return Err(Failed);
    };
    match file.read_exact(into.as_mut_slice()) {
        Ok(()) => Ok(()),
        Err(_) => Err(Failed),
    }
}

/// Whether this is the digest of a block.
fn is_digest(digest: &[u8; 32], block: &[u8; 4096]) -> bool
    ensures digest { IsTrue result ↔ digest.now ≡ sha256 block.now }
{
    let computed = Sha256::digest(block.as_slice());
    *digest == computed
}

/// A new file of this path. A file that was left there goes.
fn new_file<R: fs::Files>(files: &R, path: Path<'_>) -> Result<R::File, Failed> {
    let _ = fs::remove_file(files, path);
    let made = OpenOptions::new()
        .read(true)
        .write(true)
        .create_new(true)
        .open(files, path);
    match made {
        Ok(file) => Ok(file),
        Err(_) => Err(Failed),
    }
}

/// A store in the file `pdq-N.overflow` of a folder, N being the number that a counter gave it. The file is made at
/// the first put and removed with the store, and a clear gives its space back. The SHA-256 digest of each block is
/// kept in memory, and a block that is read back with another digest is a fault. Where a put fails, the next one
/// writes to the same place.
pub struct FileSpill<R: fs::Files> {
    files: R,
    path: PathBuf,
    file: Option<R::File>,
    digests: Vec<[u8; 32]>,
    puts: u64,
    faults: u64,
}

impl<R: fs::Files> Model for FileSpill<R> {
    ghost use Rattle.pdq_edge.specs.Digests.{FileStore};

    ghost Value = { FileStore };

    ghost view = { λ s. record { digests = s.digests.items; puts = s.puts; faults = s.faults } };
}

impl<R: fs::Files + Drop> Drop for FileSpill<R> {
    fn drop(self) {
        let FileSpill {
            files,
            path,
            file,
            digests: _,
            puts: _,
            faults: _,
        } = self;
        if file.is_some() {
            let _ = fs::remove_file(&files, path.as_path());
        }
    }
}

impl<R: fs::Files> FileSpill<R> {
    /// An empty store in this folder of the files of a runtime, which takes the next number of the counter.
    pub fn new(alloc: Global, files: R, folder: Path<'_>, counter: &mut u64) -> Result<Self, Memory>
    where
        R: Drop,
        ensures fresh { IfOk result (λ store. store ≡ record { digests = []; puts = 0; faults = 0 }) }
        ensures counter { counter.new ≡ told_count counter.old 1 }
    {
        let number = *counter;
        *counter = number.saturating_add(1);
        let name = format!(in alloc; "pdq-{number}.overflow").map_err(|_| Memory)?;
        let path = folder.join(alloc, name).map_err(|_| Memory)?;
        Ok(FileSpill {
            files,
            path,
            file: None,
            digests: Vec::new(alloc),
            puts: 0,
            faults: 0,
        })
    }

    // Writes a block at its place, into a new file where there is none yet.
    fn write(&mut self, place: u32, block: &[u8; 4096]) -> Result<(), Failed>
        ensures same { self.new ≡ self.old }
    {
        if self.file.is_none() {
            self.file = Some(new_file(&self.files, self.path.as_path())?);
        }
        match &mut self.file {
            Some(file) => write_at(file, place, block),
            None => Err(Failed),
        }
    }

    // Reads the block at a place, whose digest is to be the one that is kept.
    fn read(&mut self, place: u32, into: &mut [u8; 4096]) -> Result<(), Failed>
        requires held { place < length self.old.digests }
        ensures same { self.new ≡ self.old }
        ensures digest { OnOk result (slice_get self.old.digests place ≡ Some (sha256 into.new)) }
    {
        let Some(file) = &mut self.file else {
            return Err(Failed);
        };
        read_at(file, place, into)?;
        let kept = self.digests[place as usize];
        if !is_digest(&kept, into) {
            return Err(Failed);
        }
        Ok(())
    }

    // Counts a fault.
    fn fault(&mut self)
        ensures faults { self.new ≡ file_failed self.old }
        ensures later { self.old.faults ≤ self.new.faults }
        ensures rose { Rose self.old.faults self.new.faults }
    {
        self.faults = self.faults.saturating_add(1);
    }
}

impl<R: fs::Files> Spill for FileSpill<R> {
    ghost use Rattle.std.specs.Prelude.{None};

    ghost blocks = { λ s. None };

    ghost held = { λ s. length s.digests };

    ghost puts = { λ s. s.puts };

    ghost faults = { λ s. s.faults };

    /// Keeps the digest of the block that was written.
    fn put(&mut self, block: &[u8; 4096]) -> Result<u32, StoreFault>
        ensures full { IsFull (length self.old.digests) self.old.puts → IsErrOf result StoreFault.Failed }
        ensures place { IfOk result (λ place. place ≡ length self.old.digests) }
        ensures ok { OnOk result (self.new ≡ file_put self.old block.now) }
        ensures few_held { OnOk result (length self.new.digests ≤ most_held) }
        ensures few_puts { OnOk result (self.new.puts ≤ most_puts) }
        ensures err_failed { IsErrOf result StoreFault.Failed → self.new ≡ file_failed self.old }
        ensures err_memory { IsErrOf result StoreFault.Memory → self.new ≡ self.old }
        ensures later { self.old.faults ≤ self.new.faults }
        ensures rose { IsErrOf result StoreFault.Failed → Rose self.old.faults self.new.faults }
    {
        let (held, puts) = (self.digests.len(), self.puts);
        if is_full(held, puts) || self.write(held as u32, block).is_err() {
            self.fault();
            return Err(StoreFault::Failed);
        }
        let digest = Sha256::digest(block.as_slice());
        self.digests.push(digest).map_err(|_| StoreFault::Memory)?;
        self.puts = puts + 1;
        Ok(held as u32)
    }

    /// Gives a block with the digest of the one that was put there.
    fn get(&mut self, place: u32, into: &mut [u8; 4096]) -> Result<(), Failed>
        requires held { place < length self.old.digests }
        ensures digest { OnOk result (slice_get self.old.digests place ≡ Some (sha256 into.new)) }
        ensures ok { OnOk result (self.new ≡ self.old) }
        ensures err { OnErr result (self.new ≡ file_failed self.old) }
        ensures cause { HasCause self.old.faults self.new.faults result }
    {
        match self.read(place, into) {
            Ok(()) => Ok(()),
            Err(Failed) => {
                self.fault();
                Err(Failed)
            }
        }
    }

    /// Gives the space of the file back.
    fn clear(&mut self)
        ensures empty { self.new ≡ record self.old { digests = [] } }
    {
        if let Some(file) = &self.file {
            let _ = file.set_len(0);
        }
        self.digests.clear();
    }

    ghost held_is = { λ store. tt };
}
