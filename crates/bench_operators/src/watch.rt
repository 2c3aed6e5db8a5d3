//! Moments.
use std::time::Instant;

/// This moment; None where the clock fails.
pub fn now(rt: &HostRuntime) -> Option<Instant> {
    Instant::now(rt).ok()
}

/// The nanoseconds from one moment to another; 0 where the clock failed.
pub fn between(start: Option<Instant>, end: Option<Instant>) -> u128 {
    match (start, end) {
        (Some(start), Some(end)) => end.duration_since(start).as_nanos(),
        _ => 0,
    }
}
