//! The outside: where bytes come from and where they go, the files that are read whole, the stores for blocks that
//! overflow, how a query is told to stop, how clients come and how threads are started. Each is a trait, with forms in
//! memory for tests and forms over the real thing.
//!
//! Every form keeps a count of its faults that never falls, and a call fails only where that count rose. What an
//! object has left or holds is told by the forms in memory and by none of the real ones.
#![tactic(auto)]

mod bell;
mod callers;
mod calls;
mod door;
mod failing_spill;
mod file_spill;
mod files;
mod folder;
mod in_turn;
mod jobs;
mod memory_door;
mod memory_files;
mod memory_sink;
mod memory_source;
mod memory_spill;
mod memory_stop;
mod scoped_threads;
mod serve_ends;
mod sink;
mod source;
mod spill;
mod standard;
mod stop;
mod tcp;
mod unread;

pub use bell::{Bell, SharedBell, ShutSeen};
pub use callers::{Caller, Knock};
pub use door::Door;
pub use failing_spill::MemSpill;
pub use file_spill::FileSpill;
pub use files::{FileFault, Files};
pub use folder::Folder;
pub use in_turn::{InTurn, SureInTurn};
pub use jobs::{Job, Spawner, StartFault};
pub use memory_door::{MemDoor, SureDoor};
pub use memory_files::{MemFiles, NamedFile, SureFiles};
pub use memory_sink::{MemSink, SureSink};
pub use memory_source::{MemSource, SureSource};
pub use memory_spill::SureSpill;
pub use memory_stop::{NeverStop, StopAfter};
pub use scoped_threads::ScopedThreads;
pub use serve_ends::ServeEnd;
pub use sink::{Sink, write_all};
pub use source::{Failed, Source};
pub use spill::{Spill, StoreFault};
pub use standard::{Reading, Writing};
pub use stop::Stop;
pub use tcp::{StoreMaker, TcpCaller, TcpDoor};

#[cfg(test)]
mod serving_tests;
#[cfg(test)]
mod tests;
