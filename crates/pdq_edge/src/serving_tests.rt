ghost use Rattle.std.specs.Prelude.{◌∷◌, []};
ghost use Rattle.std.specs.Thread.{IsSync};

use crate::tcp::is_passing;
use crate::*;
use pdq_base::Memory;
use std::alloc::Global;
use std::io::{Error, ErrorKind, Read, Write};
use std::net::{TcpListener, TcpStream};
use std::sync::Wait;
use std::test::Fail;
use std::thread;
use std::thread::{Scope, Threads};

#[test]
fn door_in_memory(rt: HostRuntime) -> Result<(), Fail> {
    let callers = [5, 6].to_vec(rt.alloc())?;
    let fails = [1].to_vec(rt.alloc())?;
    let mut door: MemDoor<u8> = MemDoor::new(callers, fails);
    assert!(rt; matches!(door.next(), Ok(Knock::Came(5))));
    assert!(rt; matches!(door.next(), Err(Failed)));
    assert!(rt;
        matches!(door.next(), Ok(Knock::Came(6))),
        "nobody is lost by a fault"
    );
    assert!(rt; matches!(door.next(), Ok(Knock::Closed)));

    let callers = [7].to_vec(rt.alloc())?;
    let mut door: SureDoor<u8> = SureDoor::new(callers);
    assert!(rt; matches!(door.next(), Ok(Knock::Came(7))));
    assert!(rt; matches!(door.next(), Ok(Knock::Closed)));
    Ok(())
}

fn waits_until_shut<R: Wait>(rt: &R, bell: &SharedBell<u8>) -> u64 {
    let mut waits = 0;
    for _ in rt.forever() {
        let mark = bell.mark();
        if bell.is_shut().is_some() {
            break;
        }
        bell.wait(rt, mark);
        waits = 1;
    }
    waits
}

#[test]
fn bell_that_threads_share(rt: HostRuntime) {
    let bell: SharedBell<u8> = SharedBell::new();
    let mark = bell.mark();
    bell.ring();
    bell.wait(&rt, mark);
    assert!(rt; bell.is_shut().is_none());
    let (shared, handle) = (&bell, &rt);
    let (waits, _seen) = thread::join(
        handle,
        || waits_until_shut(handle, shared),
        || {
            shared.ring();
            shared.shut(1)
        },
    );
    assert!(rt; waits <= 1);
    assert!(rt; bell.is_shut().is_some());
}

/// A number that is doubled.
#[derive(Drop)]
struct Doubling(u8);

impl Job for Doubling {
    type Out = (u8, u16);

    ghost mark = { λ job. job.0 ∷ [] };

    ghost mark_of = { λ out. out.0 ∷ [] };

    fn run<R: Threads + Wait + Sync>(self, _rt: &R) -> (u8, u16) {
        (self.0, 2 * u16::from(self.0))
    }
}

#[test]
fn jobs_in_turn(rt: HostRuntime) -> Result<(), Fail> {
    let fails = [1].to_vec(rt.alloc())?;
    let mut spawner: InTurn<'_, HostRuntime, Doubling> = InTurn::new(&rt, rt.alloc(), fails);
    assert_eq!(rt; spawner.start(Doubling(3)), Ok(()));
    assert_eq!(rt; spawner.start(Doubling(4)), Err(StartFault::Failed));
    assert_eq!(rt; spawner.start(Doubling(5)), Ok(()));
    assert!(rt; matches!(spawner.gather(), Some((3, 6))));
    assert!(rt; matches!(spawner.gather(), Some((5, 10))));
    assert!(rt; spawner.gather().is_none());

    let mut spawner: SureInTurn<'_, HostRuntime, Doubling> = SureInTurn::new(&rt, rt.alloc());
    assert_eq!(rt; spawner.start(Doubling(200)), Ok(()));
    assert!(rt; matches!(spawner.gather(), Some((200, 400))));
    Ok(())
}

impl<'s, E, R: Threads + Wait + Sync> Spawner<Doubling> for ScopedThreads<'s, E, R, Doubling> {
    ghost started = { λ s. s.jobs.started };

    ghost gathered = { λ s. s.jobs.gathered };

    ghost marks = { λ s. s.jobs.marks };

    ghost faults = { λ s. s.faults };

    ghost ready = { λ s. IsSync R.row };

    fn start(&mut self, job: Doubling) -> Result<(), StartFault> {
        self.begin(job)
    }

    fn gather(&mut self) -> Option<(u8, u16)> {
        self.join_first()
    }
}

/// Starts a job of each of the numbers, and counts those that are gathered in their order.
fn doubled_in_order<'s, E, R: Threads + Wait + Sync>(
    rt: &'s R,
    alloc: Global,
    scope: &'s Scope<'s, E>,
) -> usize {
    let mut spawner: ScopedThreads<'s, E, R, Doubling> = ScopedThreads::new(rt, alloc, scope);
    for number in 0..100 {
        if spawner.start(Doubling(number)).is_err() {
            break;
        }
    }
    (0..100)
        .filter(|number| spawner.gather() == Some((*number, 2 * u16::from(*number))))
        .count()
}

#[test]
fn jobs_in_threads(rt: HostRuntime) {
    let (alloc, handle) = (rt.alloc(), &rt);
    let in_order = thread::scope(thread::scope_env(), handle, |scope| {
        doubled_in_order(handle, alloc, scope)
    });
    assert_eq!(rt; in_order, 100);
}

/// Makes numbers in the place of stores.
struct Numbers(Global);

impl Drop for Numbers {
    fn drop(self) {
        let Self(_) = self;
    }
}

impl StoreMaker for Numbers {
    type Store = u8;

    fn make(&mut self) -> Result<Vec<u8>, Memory> {
        [0; 48].to_vec(self.0).map_err(|_| Memory)
    }
}

#[test]
fn callers_over_tcp(rt: HostRuntime) -> Result<(), Fail> {
    let listener = TcpListener::bind(&rt, "127.0.0.1:0")?;
    let port = listener.local_addr()?.port();
    let mut door = TcpDoor::new(listener, rt, Numbers(rt.alloc()))?;
    assert!(rt; matches!(door.next(), Ok(Knock::Quiet)), "nobody is there");
    let mut client = TcpStream::connect(&rt, ("127.0.0.1", port))?;
    client.write_all(b"hello")?;
    let Ok(Knock::Came(caller)) = door.next() else {
        return Err("nobody came".into());
    };
    let Caller {
        mut source,
        mut sink,
        stores: _,
    } = caller;
    let mut into = [0; 5];
    assert_eq!(rt; source.read(&mut into[..3]), Ok(3));
    assert_eq!(rt; source.read(&mut into[3..]), Ok(2));
    assert_eq!(rt; &into, b"hello");
    assert_eq!(rt; write_all(&mut sink, b"reply"), Ok(()));
    assert_eq!(rt; sink.flush(), Ok(()));
    client.read_exact(&mut into)?;
    assert_eq!(rt; &into, b"reply");
    drop(client);
    assert_eq!(rt; source.read(&mut into), Ok(0));
    Ok(())
}

#[test]
fn errors_that_pass(rt: HostRuntime) {
    for code in [4, 11, 12, 23, 24, 103, 105] {
        assert!(rt; is_passing(&Error::from_raw_os_error(code)), "{code}");
    }
    for code in [9, 22, 95] {
        assert!(rt; !is_passing(&Error::from_raw_os_error(code)), "{code}");
    }
    assert!(rt; !is_passing(&Error::from(ErrorKind::Other)));
}
