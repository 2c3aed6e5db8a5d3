//! Sessions as jobs that are run beside one another.
ghost use Rattle.std.specs.Prelude.{◌≡◌, ◌≤◌, None};
ghost use Rattle.pdq_office.specs.Passes.{lock_at, lock_in};

use pdq_edge::{Bell, Caller, Sink, Source, Spill};
use pdq_office::{Office, Pass};
use pdq_serve::{Ended, ShutRight, session};
use pdq_table::Stored;
use std::alloc::Global;
use std::sync::Wait;
use std::thread::Threads;

/// A session that is to be run for a caller.
pub struct SessionJob<'a, So, Si, Sp, B> {
    pub(crate) alloc: Global,
    pub(crate) stored: &'a Stored,
    pub(crate) office: &'a Office,
    pub(crate) bell: &'a B,
    pub(crate) pass: Pass,
    pub(crate) opening: u32,
    pub(crate) caller: Caller<So, Si, Sp>,
    ghost lock: { lock_at pass ≡ lock_in office.now },
    ghost none: { pass.session ≡ None },
    ghost priority: { opening ≤ 100 },
}

impl<'a, So: Drop, Si: Drop, Sp: Drop, B> Drop for SessionJob<'a, So, Si, Sp, B> {
    fn drop(self) {
        let Self {
            alloc: _,
            stored: _,
            office: _,
            bell: _,
            pass: _,
            opening: _,
            caller: _,
        } = self;
    }
}

/// What a session job ends with.
#[derive(Drop)]
pub struct SessionDone<So, Si> {
    pub pass: Pass,
    pub ended: Ended<So, Si>,
    ghost closed: { pass.session ≡ None },
}

impl<
    'a,
    So: Source + Drop,
    Si: Sink + Drop,
    Sp: Spill + Send + Drop,
    B: Bell<ShutRight>,
> SessionJob<'a, So, Si, Sp, B> {
    /// Runs the session. A method of a trait cannot pass on what is asked of the types' threads, so each `impl Job` is at types of its own, and calls
    /// this.
    pub fn hold<R: Threads + Wait + Sync>(self, rt: &R) -> SessionDone<So, Si>
        ensures lock { lock_at result.pass ≡ lock_at self.entry.pass }
    {
        let SessionJob {
            alloc,
            stored,
            office,
            bell,
            pass,
            opening,
            caller,
        } = self;
        let Caller {
            mut source,
            mut sink,
            mut stores,
        } = caller;
        let (pass, ended) = session(
            rt,
            alloc,
            stored,
            office,
            pass,
            opening,
            &mut source,
            &mut sink,
            &mut stores,
            bell,
        );
        SessionDone { pass, ended }
    }
}
