use crossbeam_utils::sync::EventCount;
use std::marker::PhantomData;
use std::sync::atomic::AtomicU64;
use std::sync::atomic::Ordering::SeqCst;
use std::sync::{OnceLock, Wait};

/// Proof that a bell for rights of this type was seen shut: a right was spent on it. Only the bells of this crate make one.
#[derive(Drop)]
pub struct ShutSeen<R> {
    of: PhantomData<R>,
}

/// An event count: threads wait on it for something to happen, and others wake them. It is made open, and a right of the type `R` that is spent on it
/// shuts it for good. Nothing is promised of waking.
pub trait Bell<R> {
    /// The place that the bell has come to, to be taken before what is waited for is looked at.
    fn mark(&self) -> u64;

    /// Something has happened: ends the waits at earlier places.
    fn ring(&self);

    /// Waits until the bell has come further than the mark. It returns at once where it has.
    fn wait<W: Wait>(&self, rt: &W, mark: u64);

    /// Spends a right, and shuts the bell with that.
    fn shut(&self, right: R) -> ShutSeen<R>;

    /// Whether the bell was shut.
    fn is_shut(&self) -> Option<ShutSeen<R>>;
}

/// A bell that any number of threads share.
#[derive(Drop)]
pub struct SharedBell<R> {
    rings: AtomicU64,
    waiters: EventCount,
    right: OnceLock<R>,
}

impl<R> SharedBell<R> {
    /// An open bell.
    pub fn new() -> Self {
        SharedBell {
            rings: AtomicU64::new(0),
            waiters: EventCount::new(),
            right: OnceLock::new(),
        }
    }
}

impl<R: Drop> Bell<R> for SharedBell<R> {
    fn mark(&self) -> u64 {
        self.rings.load(SeqCst)
    }

    fn ring(&self) {
        self.rings.fetch_add(1, SeqCst);
        self.waiters.notify_all();
    }

    fn wait<W: Wait>(&self, rt: &W, mark: u64) {
        for _ in rt.forever() {
            let key = self.waiters.prepare_wait();
            if self.rings.load(SeqCst) != mark {
                return;
            }
            key.wait(rt);
        }
    }

    fn shut(&self, right: R) -> ShutSeen<R> {
        let _ = self.right.try_set(right);
        self.ring();
        ShutSeen { of: PhantomData }
    }

    fn is_shut(&self) -> Option<ShutSeen<R>> {
        match self.right.witness() {
            Some(_) => Some(ShutSeen { of: PhantomData }),
            None => None,
        }
    }
}
