//! Sessions over TCP, each in a thread of its own.
ghost use Rattle.std.specs.Prelude.{◌≡◌, map};
ghost use Rattle.std.specs.Thread.{IsSync};
ghost use Rattle.pdq_turn.specs.Pass.{mark_of};
ghost use Rattle.pdq_office.specs.Passes.{lock_at};

use crate::jobs::{SessionDone, SessionJob};
use pdq_edge::{Job, Reading, ScopedThreads, SharedBell, Spawner, StartFault, SureSpill, Writing};
use pdq_serve::ShutRight;
use std::net::TcpStream;
use std::sync::Wait;
use std::thread::Threads;

/// A session over TCP.
pub type TcpJob<'a> = SessionJob<
    'a,
    Reading<TcpStream>,
    Writing<TcpStream>,
    SureSpill,
    SharedBell<ShutRight>,
>;

impl<'a> Job
    for SessionJob<'a, Reading<TcpStream>, Writing<TcpStream>, SureSpill, SharedBell<ShutRight>> {
    type Out = SessionDone<Reading<TcpStream>, Writing<TcpStream>>;

    ghost mark = { λ job. mark_of (lock_at job.pass) };

    ghost mark_of = { λ done. mark_of (lock_at done.pass) };

    fn run<R: Threads + Wait + Sync>(
        self,
        rt: &R,
    ) -> SessionDone<Reading<TcpStream>, Writing<TcpStream>> {
        self.hold(rt)
    }
}

impl<'s, E, R: Threads + Wait + Sync> Spawner<
    SessionJob<'s, Reading<TcpStream>, Writing<TcpStream>, SureSpill, SharedBell<ShutRight>>,
>
    for ScopedThreads<
        's,
        E,
        R,
        SessionJob<'s, Reading<TcpStream>, Writing<TcpStream>, SureSpill, SharedBell<ShutRight>>,
    > {
    ghost started = { λ s. s.jobs.started };

    ghost gathered = { λ s. s.jobs.gathered };

    ghost marks = { λ s. s.jobs.marks };

    ghost faults = { λ s. s.faults };

    ghost ready = { λ s. IsSync R.row };

    fn start(&mut self, job: TcpJob<'s>) -> Result<(), StartFault> {
        self.begin(job)
    }

    fn gather(&mut self) -> Option<SessionDone<Reading<TcpStream>, Writing<TcpStream>>> {
        self.join_first()
    }
}
