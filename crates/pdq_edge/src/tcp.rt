//! A door over a TCP listener. Its callers are TCP streams, of which `Reading` and `Writing` are the source and the sink.
ghost use Rattle.std.specs.Prelude.{◌≡◌, false, IfOk, vec_len};

use crate::{Caller, Door, Failed, Knock, Reading, Writing};
use pdq_base::Memory;
use std::io;
use std::io::ErrorKind;
use std::net::{TcpListener, TcpStream};
use std::thread::sleep;
use std::time::{Clock, Duration};

// How often a door looks for a caller before it answers that none is there now.
const TRIES: u32 = 10;

// How long it sleeps between two looks, in milliseconds.
const PAUSE: u64 = 2;

// What Linux answers where a process or the system has no descriptor left, and where it has no memory for a socket.
const WITHOUT_ROOM: [i32; 4] = [23, 24, 105, 12];

/// Makes the stores of a caller.
pub trait StoreMaker {
    /// A store.
    type Store;

    /// The 48 stores of one caller.
    fn make(&mut self) -> Result<Vec<Self::Store>, Memory>
        ensures count { IfOk result (λ stores. vec_len stores ≡ 48) };
}

/// A caller over TCP.
pub type TcpCaller<Sp> = Caller<Reading<TcpStream>, Writing<TcpStream>, Sp>;

/// Takes the callers of a TCP listener that does not block. It tells nothing of who will come, and never says that
/// none will come again. Where the system has no descriptor left, no caller is there now.
#[derive(Drop)]
pub struct TcpDoor<K, M> {
    listener: TcpListener,
    clock: K,
    maker: M,
    given: u64,
    faults: u64,
}

/// A caller over this stream, whose small answers go out at once. None where memory or a descriptor was wanting.
fn caller_of<M: StoreMaker>(maker: &mut M, stream: TcpStream) -> Option<TcpCaller<M::Store>> {
    let Ok(own) = stream.try_clone() else {
        return None;
    };
    let _ = own.set_nodelay(true);
    let Ok(stores) = maker.make() else {
        return None;
    };
    Some(Caller {
        source: Reading::new(stream),
        sink: Writing::new(own),
        stores,
    })
}

/// Whether no caller can be taken now, though one may be later: none is there, one went away before it was taken, or
/// the system has no room for one more.
pub(crate) fn is_passing(error: &io::Error) -> bool {
    match error.kind() {
        ErrorKind::WouldBlock | ErrorKind::Interrupted | ErrorKind::ConnectionAborted => true,
        _ => match error.raw_os_error() {
            Some(code) => WITHOUT_ROOM.contains(&code),
            None => false,
        },
    }
}

/// Looks a number of times, with a pause between. None where no caller can be taken.
fn accepted<K: Clock>(listener: &TcpListener, clock: &K) -> Result<Option<TcpStream>, Failed> {
    for _ in 0..TRIES {
        match listener.accept() {
            Ok((stream, _)) => return Ok(Some(stream)),
            Err(e) if is_passing(&e) => sleep(clock, Duration::from_millis(PAUSE)),
            Err(_) => return Err(Failed),
        }
    }
    Ok(None)
}

impl<K: Clock + Drop, M: StoreMaker + Drop> TcpDoor<K, M> {
    /// A door over this listener, which is set so that it does not block.
    pub fn new(listener: TcpListener, clock: K, maker: M) -> io::Result<Self>
        ensures given { IfOk result (λ door. ⟦<TcpDoor<K, M> as Door<TcpCaller<M::Store>>>⟧.given door ≡ 0) }
        ensures faults { IfOk result (λ door. ⟦<TcpDoor<K, M> as Door<TcpCaller<M::Store>>>⟧.faults door ≡ 0) }
    {
        listener.set_nonblocking(true)?;
        Ok(TcpDoor {
            listener,
            clock,
            maker,
            given: 0,
            faults: 0,
        })
    }
}

impl<K: Clock + Drop, M: StoreMaker + Drop> Door<TcpCaller<M::Store>> for TcpDoor<K, M> {
    ghost use Rattle.std.specs.Prelude.{None};

    ghost coming = { λ d. None };

    ghost given = { λ d. d.given };

    ghost closed = { λ d. false };

    ghost faults = { λ d. d.faults };

    /// Looks a number of times, with a pause between, before it says that no caller is there now.
    fn next(&mut self) -> Result<Knock<TcpCaller<M::Store>>, Failed> {
        let given = self.given;
        match accepted(&self.listener, &self.clock) {
            Ok(Some(stream)) => {
                self.given = given.saturating_add(1);
                match caller_of(&mut self.maker, stream) {
                    Some(caller) => Ok(Knock::Came(caller)),
                    None => Ok(Knock::Lost),
                }
            }
            Ok(None) => Ok(Knock::Quiet),
            Err(Failed) => {
                self.faults = self.faults.saturating_add(1);
                Err(Failed)
            }
        }
    }
}
