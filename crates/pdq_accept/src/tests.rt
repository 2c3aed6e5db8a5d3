//! Sessions over memory, one after another and in two threads.
ghost use Rattle.std.specs.Prelude.{◌≡◌, ◌≤◌, IfOk, None, true, vec_len};
ghost use Rattle.pdq_office.specs.Passes.{lock_at, lock_in, known};

use pdq_edge::{
    Bell, Caller, Failed, MemSource, SharedBell, Sink, Source, SureSink, SureSource, SureSpill,
};
use pdq_frame::Pool;
use pdq_office::{Config, Office, Pass};
use pdq_schema::read_schema;
use pdq_serve::{ShutRight, session};
use pdq_table::{Stored, load};
use std::alloc::{AllocError, Global};
use std::process::Abort;
use std::sync::Wait;
use std::sync::atomic::AtomicBool;
use std::sync::atomic::Ordering::SeqCst;
use std::test::Fail;
use std::thread;
use std::thread::{Threads, yield_now};

/// An office of 4,000 KB, ten queries and ten scan threads.
fn made(rt: &impl Abort, alloc: Global) -> (Office, Pass)
    ensures lock { lock_at result.1 ≡ lock_in result.0 }
    ensures first { ((known result.1).is_first ≡ true) × (result.1.session ≡ None) }
{
    let config = Config::check(100, 4000, 10, 10, 128).expect(rt, "a valid configuration");
    let Ok(pool) = Pool::new(alloc, 100, 10) else {
        panic!(rt; "ample memory");
    };
    match Office::new(alloc, config, pool) {
        Ok(made) => made,
        Err(_) => panic!(rt; "ample memory"),
    }
}

/// One table of two texts, in three fragments of which the last is empty.
fn tables(alloc: Global) -> Result<Stored, Fail> {
    let schema =
        b"[[table]]\nname = \"t\"\nfile = \"t.csv\"\nround_robin = 3\ncolumn = [{ name = \"a\", kind = \"text\" }]\n";
    let Ok(schema) = read_schema(alloc, schema) else {
        return Err("schema".into());
    };
    let file = b"a\nx\ny\n".to_vec(alloc)?;
    let files = vec![in alloc; file]?;
    if schema.shapes().len() != files.len() {
        return Err("tables".into());
    }
    match load(alloc, &schema, files) {
        Ok(stored) => Ok(stored),
        Err(_) => Err("load".into()),
    }
}

fn stores(alloc: Global) -> Result<Vec<SureSpill>, AllocError>
    ensures count { IfOk result (λ stores. vec_len stores ≡ 48) }
{
    let mut stores = Vec::with_capacity(alloc, 48)?;
    for _ in 0..48usize {
        stores.push(SureSpill::new(alloc))?;
    }
    if stores.len() == 48 {
        Ok(stores)
    } else {
        Err(AllocError)
    }
}

fn caller(
    alloc: Global,
    lines: &[u8],
) -> Result<Caller<SureSource, SureSink, SureSpill>, AllocError> {
    let stores = stores(alloc)?;
    Ok(Caller {
        source: SureSource::new(lines.to_vec(alloc)?),
        sink: SureSink::new(alloc),
        stores,
    })
}

/// A session of these lines. Answers whether it writes this text.
fn says<R: Abort + Threads + Wait + Sync>(
    rt: &R,
    alloc: Global,
    stored: &Stored,
    office: &Office,
    pass: Pass,
    bell: &SharedBell<ShutRight>,
    lines: &[u8],
    text: &[u8],
) -> (Pass, bool)
    requires lock { lock_at pass ≡ lock_in office.now }
    requires none { pass.session ≡ None }
    ensures lock { lock_at result.0 ≡ lock_in office.now }
    ensures none { result.0.session ≡ None }
{
    let Ok(caller) = caller(alloc, lines) else {
        panic!(rt; "ample memory");
    };
    let Caller {
        mut source,
        mut sink,
        mut stores,
    } = caller;
    let (pass, _ended) = session(
        rt,
        alloc,
        stored,
        office,
        pass,
        0,
        &mut source,
        &mut sink,
        &mut stores,
        bell,
    );
    (pass, sink.bytes() == text)
}

/// Nothing of the office is out, and all its quanta are home.
fn closes(rt: &impl Abort, office: Office, pass: Pass)
    requires lock { lock_at pass ≡ lock_in office }
{
    match office.close(pass) {
        Ok(manager) => assert_eq!(rt; manager.end().quanta(), 10),
        Err(_manager) => panic!(rt; "the office closes"),
    }
}

#[test]
fn one_client_asks_for_two_rows(rt: HostRuntime) -> Result<(), Fail> {
    let alloc = rt.alloc();
    let stored = tables(alloc)?;
    let (office, pass) = made(&rt, alloc);
    let bell = SharedBell::new();
    let lines = b"HELLO\nSET PDQPRIORITY 50\nQUERY SELECT a FROM t\nQUIT\n";
    let text =
        b"SESSION 1 USER STEP 1\nPRIORITY 50\nQUERY 1 STEP 2 PRIORITY 50 GATE 0\nGRANTED 1 STEP 3 QUANTA 5 SCANS 3\nROWS 2\nx\ny\nDONE 1 STEP 4\nCLOSED 1 STEP 5\n";
    let (pass, same) = says(&rt, alloc, &stored, &office, pass, &bell, lines, text);
    assert!(rt; same, "the replies");
    closes(&rt, office, pass);
    Ok(())
}

#[test]
fn an_administrator_alone_shuts_the_bell(rt: HostRuntime) -> Result<(), Fail> {
    let alloc = rt.alloc();
    let stored = tables(alloc)?;
    let (office, pass) = made(&rt, alloc);
    let bell = SharedBell::new();
    let text = b"SESSION 1 USER STEP 1\nERROR 12 not allowed AT STEP 1\nCLOSED 1 STEP 2\n";
    let (pass, same) = says(
        &rt,
        alloc,
        &stored,
        &office,
        pass,
        &bell,
        b"HELLO\nSHUTDOWN\nQUIT\n",
        text,
    );
    assert!(rt; same && bell.is_shut().is_none(), "a user");
    let text = b"SESSION 2 ADMIN STEP 3\nCLOSED 2 STEP 4\n";
    let (pass, same) = says(
        &rt,
        alloc,
        &stored,
        &office,
        pass,
        &bell,
        b"ADMIN\nQUIT\n",
        text,
    );
    assert!(rt;
        same && bell.is_shut().is_none(),
        "an administrator who leaves"
    );
    let text = b"SESSION 3 ADMIN STEP 5\nCLOSED 3 STEP 6\n";
    let (pass, same) = says(
        &rt,
        alloc,
        &stored,
        &office,
        pass,
        &bell,
        b"ADMIN\nSHUTDOWN\n",
        text,
    );
    assert!(rt; same && bell.is_shut().is_some(), "an administrator");
    closes(&rt, office, pass);
    Ok(())
}

/// What two sessions of a test tell each other.
#[derive(Drop)]
struct Signals {
    granted: AtomicBool,
    flagged: AtomicBool,
}

/// Waits for a signal, within a limit of turns.
fn awaits(signal: &AtomicBool) {
    for _ in 0..10_000_000u32 {
        if signal.load(SeqCst) {
            return;
        }
        yield_now();
    }
}

/// A sink that holds a GRANTED line until a FLAGGED line was written, and tells of both.
#[derive(Drop)]
struct TellingSink<'a, K> {
    sink: K,
    signals: &'a Signals,
}

impl<'a, K: Sink> Sink for TellingSink<'a, K> {
    ghost written = { λ s. K.written s.sink };

    ghost flushed = { λ s. K.flushed s.sink };

    ghost faults = { λ s. K.faults s.sink };

    fn write(&mut self, from: &[u8]) -> Result<usize, Failed> {
        if from.starts_with(b"GRANTED") {
            self.signals.granted.store(true, SeqCst);
            awaits(&self.signals.flagged);
        }
        if from.starts_with(b"FLAGGED") {
            self.signals.flagged.store(true, SeqCst);
        }
        self.sink.write(from)
    }

    fn flush(&mut self) -> Result<(), Failed> {
        self.sink.flush()
    }
}

/// A source whose second read waits until a query was granted.
#[derive(Drop)]
struct WaitingSource<'a, K> {
    source: K,
    signals: &'a Signals,
    begun: bool,
}

impl<'a, K: Source> Source for WaitingSource<'a, K> {
    ghost left = { λ s. K.left s.source };

    ghost taken = { λ s. K.taken s.source };

    ghost ended = { λ s. K.ended s.source };

    ghost faults = { λ s. K.faults s.source };

    fn read(&mut self, into: &mut [u8]) -> Result<usize, Failed> {
        if self.begun {
            awaits(&self.signals.granted);
        }
        self.begun = true;
        self.source.read(into)
    }
}

/// A session over this source. Answers its pass and what it wrote.
fn talks<R: Abort + Threads + Wait + Sync, So: Source>(
    rt: &R,
    alloc: Global,
    stored: &Stored,
    office: &Office,
    pass: Pass,
    source: &mut So,
    signals: &Signals,
    bell: &SharedBell<ShutRight>,
) -> (Pass, SureSink)
    requires lock { lock_at pass ≡ lock_in office.now }
    requires none { pass.session ≡ None }
    ensures lock { lock_at result.0 ≡ lock_in office.now }
    ensures none { result.0.session ≡ None }
{
    let Ok(mut stores) = stores(alloc) else {
        panic!(rt; "ample memory");
    };
    let mut sink = TellingSink {
        sink: SureSink::new(alloc),
        signals,
    };
    let (pass, _ended) = session(
        rt,
        alloc,
        stored,
        office,
        pass,
        0,
        source,
        &mut sink,
        &mut stores,
        bell,
    );
    let TellingSink { sink, signals: _ } = sink;
    (pass, sink)
}

/// What stands in a text behind these words, up to the end of its line.
fn behind<'a>(text: &'a str, words: &str) -> Option<&'a str> {
    let (_, rest) = text.split_once(words)?;
    rest.lines().next()
}

/// The two texts tell the same step of the cancellation.
fn agree(user: &[u8], administrator: &[u8]) -> bool {
    let (Ok(user), Ok(administrator)) = (str::from_utf8(user), str::from_utf8(administrator)) else {
        return false;
    };
    let by = behind(user, "STOPPED 1 STEP ").and_then(|line| behind(line, " BY STEP "));
    match (by, behind(administrator, "FLAGGED 1 STEP ")) {
        (Some(by), Some(step)) => by == step,
        _ => false,
    }
}

#[test]
fn a_query_that_runs_is_stopped_by_another_session(rt: HostRuntime) -> Result<(), Fail> {
    let alloc = rt.alloc();
    let stored = tables(alloc)?;
    let bell = SharedBell::new();
    let signals = Signals {
        granted: AtomicBool::new(false),
        flagged: AtomicBool::new(false),
    };
    let mut asks = SureSource::new(
        b"HELLO\nSET PDQPRIORITY 50\nQUERY SELECT a FROM t\nQUIT\n".to_vec(alloc)?,
    );
    let mut cancels = WaitingSource {
        source: MemSource::with_most(b"ADMIN\nCANCEL 1\n".to_vec(alloc)?, Vec::new(alloc), 6),
        signals: &signals,
        begun: false,
    };
    let (office, pass) = made(&rt, alloc);
    let mut pass = pass;
    let other = office.split(&mut pass);
    let (tables, shared, own, told, threads) = (&stored, &office, &bell, &signals, &rt);
    let ((mut pass, user), (other, administrator)) = thread::join(
        threads,
        || talks(threads, alloc, tables, shared, pass, &mut asks, told, own),
        || talks(
            threads,
            alloc,
            tables,
            shared,
            other,
            &mut cancels,
            told,
            own,
        ),
    );
    assert!(rt; agree(user.bytes(), administrator.bytes()));
    office.meet(&mut pass, other);
    closes(&rt, office, pass);
    Ok(())
}
