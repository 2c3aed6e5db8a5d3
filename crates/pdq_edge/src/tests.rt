ghost use Rattle.std.specs.Prelude.{◌≤◌, IfOk};

use crate::file_spill::{read_at, write_at};
use crate::*;
use std::alloc::Global;
use std::io::{self, ErrorKind, Read, Seek, SeekFrom, Write};
use std::process::{self, Abort};
use std::test::Fail;
use std::{env, fs};

#[test]
fn source_in_memory(rt: HostRuntime) -> Result<(), Fail> {
    let bytes = b"abcdef".to_vec(rt.alloc())?;
    let fails = [1].to_vec(rt.alloc())?;
    let mut source = MemSource::with_most(bytes, fails, 4);
    let mut into = [0; 10];
    let wanted = [Ok(4), Err(Failed), Ok(2), Ok(0), Ok(0)];
    for (call, want) in wanted.iter().enumerate() {
        assert_eq!(rt; source.read(&mut into), *want, "at read {call}");
    }
    assert_eq!(rt; &into[..5], b"efcd\0".as_slice());

    let bytes = b"abc".to_vec(rt.alloc())?;
    let mut source = MemSource::new(bytes, Vec::new(rt.alloc()));
    assert_eq!(rt; source.read(&mut into[..2]), Ok(2));
    assert_eq!(rt; source.read(&mut into[2..]), Ok(1));
    assert_eq!(rt; &into[..3], b"abc".as_slice());

    let bytes = b"xy".to_vec(rt.alloc())?;
    let mut source = SureSource::new(bytes);
    assert_eq!(rt; source.read(&mut into), Ok(2));
    assert_eq!(rt; source.read(&mut into), Ok(0));
    assert_eq!(rt; &into[..2], b"xy".as_slice());
    Ok(())
}

#[test]
fn sink_in_memory(rt: HostRuntime) -> Result<(), Fail> {
    let fails = [1].to_vec(rt.alloc())?;
    let mut sink = MemSink::new(rt.alloc(), 5, fails).map_err(|_| "memory")?;
    assert_eq!(rt; sink.write(b"abc"), Ok(3));
    assert_eq!(rt; sink.flush(), Err(Failed), "listed");
    assert_eq!(rt; sink.write(b"def"), Ok(2), "what fits");
    assert_eq!(rt; sink.write(b"f"), Err(Failed), "full");
    assert_eq!(rt; sink.write(b""), Ok(0));
    assert_eq!(rt; sink.bytes(), b"abcde".as_slice());

    let mut sink = SureSink::new(rt.alloc());
    assert_eq!(rt; sink.write(b"abc"), Ok(3));
    assert_eq!(rt; sink.flush(), Ok(()));
    assert_eq!(rt; sink.bytes(), b"abc".as_slice());
    Ok(())
}

#[test]
fn whole_pieces(rt: HostRuntime) -> Result<(), Fail> {
    let mut sink = SureSink::new(rt.alloc());
    assert_eq!(rt; write_all(&mut sink, b"one "), Ok(()));
    assert_eq!(rt; write_all(&mut sink, b""), Ok(()));
    assert_eq!(rt; write_all(&mut sink, b"two"), Ok(()));
    assert_eq!(rt; sink.bytes(), b"one two".as_slice());

    let mut sink = MemSink::new(rt.alloc(), 4, Vec::new(rt.alloc())).map_err(|_| "memory")?;
    assert_eq!(rt; write_all(&mut sink, b"sixsix"), Err(Failed));
    assert_eq!(rt; sink.bytes(), b"sixs".as_slice());
    Ok(())
}

fn named_files(alloc: Global) -> Result<Vec<NamedFile>, Fail> {
    let mut files = Vec::new(alloc);
    for (name, bytes) in [("a", "first"), ("b", "xy"), ("a", "second")] {
        let name = name.to_string(alloc)?;
        let bytes = bytes.as_bytes().to_vec(alloc)?;
        files.push(NamedFile { name, bytes })?;
    }
    Ok(files)
}

/// Reads each of these files in turn, within its limit.
fn assert_reads<F: Files>(
    rt: &(impl Abort + AllocGlobal),
    files: &mut F,
    cases: &[(&str, u64, Result<&str, FileFault>)],
) {
    for (name, limit, want) in cases {
        let read = files.read_whole(rt.alloc(), name, *limit);
        let found = match &read {
            Ok(bytes) => Ok(bytes.as_slice()),
            Err(fault) => Err(*fault),
        };
        assert!(rt;
            found == want.map(|text| text.as_bytes()),
            "{name:?} within {limit}"
        );
    }
}

#[test]
fn files_in_memory(rt: HostRuntime) -> Result<(), Fail> {
    let mut files = SureFiles::new(named_files(rt.alloc())?);
    assert_reads(
        &rt,
        &mut files,
        &[
            ("a", 5, Ok("first")),
            ("b", 5, Ok("xy")),
            ("c", 0, Ok("")),
            ("a", 4, Err(FileFault::TooLong)),
        ],
    );
    let fails = [1, 2].to_vec(rt.alloc())?;
    let mut files = MemFiles::new(named_files(rt.alloc())?, fails);
    assert_reads(
        &rt,
        &mut files,
        &[
            ("a", 5, Ok("first")),
            ("a", 5, Err(FileFault::Failed)),
            ("b", 1, Err(FileFault::Failed)),
            ("b", 1, Err(FileFault::TooLong)),
            ("b", 2, Ok("xy")),
            ("c", 9, Err(FileFault::Failed)),
        ],
    );
    Ok(())
}

#[test]
fn files_of_a_folder(rt: HostRuntime) -> Result<(), Fail> {
    let name = format!(in rt.alloc(); "pdq_edge_{}", process::id(rt.process()))?;
    let path = env::temp_dir(&rt)?.join(rt.alloc(), name)?;
    let _ = fs::remove_dir_all(&rt, &path);
    fs::create_dir(&rt, &path)?;
    fs::create_dir(&rt, path.join(rt.alloc(), "inner")?)?;
    let absolute = path.join(rt.alloc(), "text")?;
    fs::write(&rt, &absolute, "abc")?;
    fs::write(&rt, path.join(rt.alloc(), "empty")?, "")?;
    let long = "0123456789".repeat(rt.alloc(), 2000)?;
    fs::write(&rt, path.join(rt.alloc(), "long")?, long.as_str())?;
    let mut folder = Folder::new(rt, path.clone()?);
    assert_reads(
        &rt,
        &mut folder,
        &[
            ("text", 3, Ok("abc")),
            ("text", 2, Err(FileFault::TooLong)),
            ("text", 0, Err(FileFault::TooLong)),
            (absolute.as_str(), 9, Ok("abc")),
            ("inner/../text", u64::MAX, Ok("abc")),
            ("empty", 0, Ok("")),
            ("long", 20000, Ok(long.as_str())),
            ("long", 19999, Err(FileFault::TooLong)),
            ("none", 9, Err(FileFault::Failed)),
            ("inner", 9, Err(FileFault::Failed)),
            ("", 9, Err(FileFault::Failed)),
            ("te\0xt", 9, Err(FileFault::Failed)),
        ],
    );
    fs::remove_dir_all(&rt, &path)?;
    Ok(())
}

#[test]
fn store_in_memory(rt: HostRuntime) -> Result<(), Fail> {
    let mut store = SureSpill::new(rt.alloc());
    let mut into = [0; 4096];
    assert_eq!(rt; store.put(&[7; 4096]), Ok(0));
    assert_eq!(rt; store.put(&[8; 4096]), Ok(1));
    assert_eq!(rt; store.get(0, &mut into), Ok(()));
    assert_eq!(rt; into[0], 7);
    assert_eq!(rt; store.get(1, &mut into), Ok(()));
    assert_eq!(rt; into[4095], 8);
    store.clear();
    assert_eq!(rt; store.put(&[9; 4096]), Ok(0));
    Ok(())
}

#[test]
fn store_that_fails(rt: HostRuntime) -> Result<(), Fail> {
    let fails = [1, 3].to_vec(rt.alloc())?;
    let mut store = MemSpill::new(rt.alloc(), fails);
    let mut into = [0; 4096];
    assert_eq!(rt; store.put(&[7; 4096]), Ok(0));
    assert_eq!(rt; store.put(&[8; 4096]), Err(StoreFault::Failed));
    assert_eq!(rt; store.put(&[9; 4096]), Ok(1), "the same place");
    assert_eq!(rt; store.get(0, &mut into), Err(Failed));
    assert_eq!(rt; store.get(1, &mut into), Ok(()));
    assert_eq!(rt; into[0], 9);
    store.clear();
    assert_eq!(rt; store.put(&[6; 4096]), Ok(0));
    Ok(())
}

fn sent<T: Send>(store: T) -> T {
    store
}

#[test]
fn store_in_a_file(rt: HostRuntime) -> Result<(), Fail> {
    let name = format!(in rt.alloc(); "pdq_edge_store_{}", process::id(rt.process()))?;
    let folder = env::temp_dir(&rt)?.join(rt.alloc(), name)?;
    let _ = fs::remove_dir_all(&rt, &folder);
    fs::create_dir(&rt, &folder)?;
    let path = folder.join(rt.alloc(), "pdq-7.overflow")?;
    let mut counter = 7;
    let made = FileSpill::new(rt.alloc(), rt, folder.as_path(), &mut counter);
    let mut store = sent(made.map_err(|_| "memory")?);
    let made = FileSpill::new(rt.alloc(), rt, folder.as_path(), &mut counter);
    let unused = made.map_err(|_| "memory")?;
    assert_eq!(rt; counter, 9);
    assert!(rt; fs::metadata(&rt, &path).is_err(), "no file before a put");

    let mut into = [0; 4096];
    assert_eq!(rt; store.put(&[1; 4096]), Ok(0));
    assert_eq!(rt; store.put(&[2; 4096]), Ok(1));
    assert_eq!(rt; store.get(1, &mut into), Ok(()));
    assert_eq!(rt; into[4095], 2);
    store.clear();
    assert_eq!(rt;
        fs::metadata(&rt, &path)?.len(),
        0,
        "the space is given back"
    );
    assert_eq!(rt; store.put(&[3; 4096]), Ok(0));
    assert_eq!(rt; store.put(&[4; 4096]), Ok(1));
    let mut bytes = fs::read(&rt, &path)?;
    assert_eq!(rt; bytes.len(), 8192);
    bytes[5000] = 5;
    fs::write(&rt, &path, bytes.as_slice())?;
    assert_eq!(rt; store.get(0, &mut into), Ok(()));
    assert_eq!(rt; into[4095], 3);
    assert_eq!(rt;
        store.get(1, &mut into),
        Err(Failed),
        "a changed byte is found"
    );
    drop(unused);
    drop(store);
    // It goes only where it is empty, so no file is left behind.
    fs::remove_dir(&rt, &folder)?;

    let made = FileSpill::new(rt.alloc(), rt, folder.as_path(), &mut counter);
    let mut store = made.map_err(|_| "memory")?;
    assert_eq!(rt;
        store.put(&[1; 4096]),
        Err(StoreFault::Failed),
        "no such folder"
    );
    fs::create_dir(&rt, &folder)?;
    assert_eq!(rt; store.put(&[2; 4096]), Ok(0), "the same place");
    drop(store);
    fs::remove_dir_all(&rt, &folder)?;
    Ok(())
}

#[test]
fn full_disk(rt: HostRuntime) {
    let mut disk = Rough::new(0, 1000, 5000);
    assert_eq!(rt; write_at(&mut disk, 0, &[1; 4096]), Ok(()));
    assert_eq!(rt; write_at(&mut disk, 1, &[2; 4096]), Err(Failed));
    let mut into = [0; 4096];
    let mut short = Rough::new(0, 1000, 4095);
    assert_eq!(rt; read_at(&mut short, 0, &mut into), Err(Failed));
}

#[test]
fn flags(rt: HostRuntime) {
    let mut never = NeverStop::new();
    assert_eq!(rt; never.stopped(), None);
    let mut after = StopAfter::new(2, 9);
    for want in [None, None, Some(9), Some(9)] {
        assert_eq!(rt; after.stopped(), want);
    }
}

/// A reader and writer that is interrupted so often before each call, and takes at most so many bytes at once.
#[derive(Drop)]
struct Rough {
    interrupts: u32,
    so_far: u32,
    most: usize,
    left: usize,
}

impl Rough {
    fn new(interrupts: u32, most: usize, left: usize) -> Self {
        Rough {
            interrupts,
            so_far: 0,
            most,
            left,
        }
    }

    fn step(&mut self, len: usize) -> io::Result<usize>
        ensures bound { IfOk result (λ n. n ≤ len) }
    {
        let so_far = self.so_far;
        if so_far < self.interrupts {
            self.so_far = so_far + 1;
            return Err(io::Error::from(ErrorKind::Interrupted));
        }
        self.so_far = 0;
        let n = len.min(self.most).min(self.left);
        self.left -= n;
        Ok(n)
    }
}

impl Read for Rough {
    fn read(&mut self, buf: &mut [u8]) -> io::Result<usize> {
        self.step(buf.len())
    }
}

impl Write for Rough {
    fn write(&mut self, buf: &[u8]) -> io::Result<usize> {
        self.step(buf.len())
    }

    fn flush(&mut self) -> io::Result<()> {
        self.step(0)?;
        Ok(())
    }
}

impl Seek for Rough {
    fn seek(&mut self, _to: SeekFrom) -> io::Result<u64> {
        Ok(0)
    }
}

#[test]
fn interrupted_reads_and_writes(rt: HostRuntime) {
    let mut into = [0; 8];
    let mut source = Reading::new(Rough::new(3, 5, 7));
    for want in [5, 2, 0, 0] {
        assert_eq!(rt; source.read(&mut into), Ok(want));
    }
    let mut sink = Writing::new(Rough::new(3, 5, 7));
    assert_eq!(rt; sink.write(b"abcdef"), Ok(5));
    assert_eq!(rt; sink.flush(), Ok(()));
    assert_eq!(rt; sink.write(b""), Ok(0));
    assert_eq!(rt; sink.write(b"fg"), Ok(2));
    assert_eq!(rt; sink.write(b"h"), Err(Failed), "takes nothing");

    let mut source = Reading::new(Rough::new(100, 5, 7));
    assert_eq!(rt; source.read(&mut into), Err(Failed), "a hundred interrupts");
    assert_eq!(rt; source.read(&mut into), Ok(5));
    let mut sink = Writing::new(Rough::new(100, 5, 7));
    assert_eq!(rt; sink.flush(), Err(Failed), "a hundred interrupts");
}

/// A reader that gives a byte after it has answered the end.
#[derive(Drop)]
struct Returning {
    ended: bool,
}

impl Read for Returning {
    fn read(&mut self, buf: &mut [u8]) -> io::Result<usize> {
        let n = if self.ended { buf.len().min(1) } else { 0 };
        self.ended = true;
        Ok(n)
    }
}

#[test]
fn end_stays_the_end(rt: HostRuntime) {
    let mut source = Reading::new(Returning { ended: false });
    let mut into = [0; 8];
    assert_eq!(rt; source.read(&mut into), Ok(0));
    assert_eq!(rt; source.read(&mut into), Ok(0));
}
