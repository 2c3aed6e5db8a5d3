ghost use Rattle.std.specs.Prelude.{◌≡◌, ◌≢◌, ◌<◌, ◌≤◌, ◌+◌, IfOk, IfSome, IsErrOf, length};
ghost use Rattle.pdq_edge.specs.Bytes.{AreAll, GaveCount};
ghost use Rattle.pdq_edge.specs.Causes.{Rose};

use crate::standard::read_on;
use crate::{Failed, FileFault, Files};
use std::alloc::Global;
use std::fs;
use std::fs::File;
use std::io::Read;
use std::path::PathBuf;

// The most bytes that are read at once.
const PIECE: usize = 8192;

/// Reads to the end, where at most `limit` bytes come. Of more it reads one byte past the limit and no further.
fn read_to_limit<R: Read>(alloc: Global, inner: &mut R, limit: u64) -> Result<Vec<u8>, FileFault>
    ensures short { IfOk result (λ read. length read.items ≤ limit) }
    ensures bytes { IfOk result (λ read. AreAll (R.remaining inner.old) read.items) }
    ensures too_long { IsErrOf result FileFault.TooLong → IfSome (R.remaining inner.old) (λ bytes. limit < length bytes) }
    ensures stops { IsErrOf result FileFault.TooLong → GaveCount (R.remaining inner.old) (R.remaining inner.new) (limit + 1) }
{
    let mut read = Vec::new(alloc);
    let mut piece = [0; PIECE];
    'pieces: loop {
        let room = limit - read.len() as u64;
        let most = room.min(PIECE as u64 - 1) as usize + 1;
        let Ok(n) = read_on(inner, &mut piece[..most]) else {
            return Err(FileFault::Failed);
        };
        if n == 0 {
            return Ok(read);
        }
        if room < n as u64 {
            return Err(FileFault::TooLong);
        }
        read.extend_from_slice(&piece[..n])
            .map_err(|_| FileFault::Memory)?;
    }
}

/// The files of a folder of the file system, as the working folder, whose path is the empty one. A name is joined to
/// the folder's path, and one that begins with `/` stands for itself. It tells nothing of its files. All that cannot
/// be read is a fault, as a folder, an empty name or a name with a NUL byte. A read that a signal interrupts is made
/// again, up to 100 times.
#[derive(Drop)]
pub struct Folder<R> {
    files: R,
    path: PathBuf,
    faults: u64,
}

impl<R: fs::Files> Folder<R> {
    /// The folder of this path, in the files of a runtime.
    pub fn new(files: R, path: PathBuf) -> Self
        ensures faults { ⟦<Folder<R> as Files>⟧.faults result ≡ 0 }
    {
        Folder {
            files,
            path,
            faults: 0,
        }
    }

    fn read_named(&self, alloc: Global, name: &str, limit: u64) -> Result<Vec<u8>, FileFault>
        ensures short { IfOk result (λ read. length read.items ≤ limit) }
    {
        let path = self.path.join(alloc, name).map_err(|_| FileFault::Memory)?;
        let mut file = File::open(&self.files, path).map_err(|_| FileFault::Failed)?;
        read_to_limit(alloc, &mut file, limit)
    }

    fn counted(&mut self, fault: FileFault) -> FileFault
        ensures same { result ≡ fault }
        ensures later { self.old.faults ≤ self.new.faults }
        ensures rose { fault ≡ FileFault.Failed → Rose self.old.faults self.new.faults }
        ensures told { fault ≢ FileFault.Failed → self.new.faults ≡ self.old.faults }
    {
        if fault == FileFault::Failed {
            self.faults = self.faults.saturating_add(1);
        }
        fault
    }
}

impl<R: fs::Files> Files for Folder<R> {
    ghost use Rattle.std.specs.Prelude.{None};

    ghost contents = { λ s name. None };

    ghost faults = { λ s. s.faults };

    fn read_whole(&mut self, alloc: Global, name: &str, limit: u64) -> Result<Vec<u8>, FileFault> {
        match self.read_named(alloc, name, limit) {
            Ok(read) => Ok(read),
            Err(fault) => Err(self.counted(fault)),
        }
    }
}
