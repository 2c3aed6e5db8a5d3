//! Changes of the configuration, with the pools that they ask for.
ghost use Rattle.std.specs.Prelude.{◌≡◌, ◌&&◌, not, IsTrue, true};
ghost use Rattle.pdq_model.specs.Step.{can_wait, has_size, needs_pool};
ghost use Rattle.pdq_gate.specs.Invariant.{IsWholePool};
ghost use Rattle.pdq_gate.specs.Changes.{pool_size, setting_of, size_for, HasPoolFor};

use pdq_frame::Pool;
use pdq_model::{Config, Setting};

/// A change of one parameter of the configuration. A change of the memory or of the number of queries comes with a pool: of DS_MAX_QUERIES
/// quanta, each of the frames of a quantum, both of the pending configuration so changed, or of the present one where none is pending.
#[derive(Drop)]
pub enum Change {
    /// MAX_PDQPRIORITY, in percent; for later submissions alone.
    MaxPriority(u32),
    /// DS_TOTAL_MEMORY, in KB.
    TotalMemory(u32, Pool),
    /// DS_MAX_QUERIES.
    MaxQueries(u32, Pool),
    /// DS_MAX_SCANS.
    MaxScans(u32),
    /// DS_NONPDQ_QUERY_MEM, in KB; for later admissions alone.
    NonPdq(u32),
}

/// The change without its pool.
pub(crate) fn setting_of(change: &Change) -> Setting
    ensures value { result ≡ setting_of change.now }
{
    match change {
        Change::MaxPriority(max_priority) => Setting::MaxPriority(*max_priority),
        Change::TotalMemory(total_kb, _) => Setting::TotalMemory(*total_kb),
        Change::MaxQueries(max_queries, _) => Setting::MaxQueries(*max_queries),
        Change::MaxScans(max_scans) => Setting::MaxScans(*max_scans),
        Change::NonPdq(nonpdq_kb) => Setting::NonPdq(*nonpdq_kb),
    }
}

/// Whether a setting waits until no query is active.
pub(crate) fn can_wait(setting: Setting) -> bool
    ensures value { result ≡ can_wait setting }
{
    match setting {
        Setting::MaxPriority(_) => false,
        Setting::TotalMemory(_) => true,
        Setting::MaxQueries(_) => true,
        Setting::MaxScans(_) => true,
        Setting::NonPdq(_) => false,
    }
}

/// Whether the pool has the quanta and the frames that the configuration asks for.
fn is_pool_for(pool: &Pool, target: &Config) -> bool
    ensures value { result ≡ has_size (record { quanta = pool.now.home; frames = pool.now.frames_per_quantum }) (size_for target.now) }
    ensures whole { IsTrue result → IsWholePool target.now pool.now }
{
    pool.quanta() == target.max_queries()
        && pool.frames_per_quantum() == target.frames_per_quantum()
}

/// Whether the pool that the configuration asks for came with the change, where it asks for one.
pub(crate) fn has_asked_pool(change: &Change, target: &Config) -> bool
    ensures value { not result ≡ (needs_pool (setting_of change.now) && not (has_size (pool_size change.now) (size_for target.now))) }
    ensures whole { IsTrue result → HasPoolFor target.now change.now }
{
    match change {
        Change::MaxPriority(_) => true,
        Change::TotalMemory(_, pool) => is_pool_for(pool, target),
        Change::MaxQueries(_, pool) => is_pool_for(pool, target),
        Change::MaxScans(_) => true,
        Change::NonPdq(_) => true,
    }
}
