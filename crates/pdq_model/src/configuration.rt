//! The configuration of the manager.
ghost use Rattle.std.specs.Prelude.{◌≡◌, ◌↔◌, ◌≤◌, IsSome, IfSome};

use std::marker::Model;

/// A valid configuration: MAX_PDQPRIORITY (percent), DS_TOTAL_MEMORY (KB), DS_MAX_QUERIES, DS_MAX_SCANS and DS_NONPDQ_QUERY_MEM (KB).
#[derive(Clone, Copy, Debug)]
pub struct Config {
    max_priority: u32,
    total_kb: u32,
    max_queries: u32,
    max_scans: u32,
    nonpdq_kb: u32,
}

impl Model for Config {
    ghost use Rattle.pdq_model.specs.Configuration.{Configuration, IsValid};

    ghost Value = { Configuration };

    ghost view = { λ c. record { max_priority = c.max_priority; total_kb = c.total_kb; max_queries = c.max_queries; max_scans = c.max_scans; nonpdq_kb = c.nonpdq_kb } };

    ghost invariant = { λ c. IsValid (record { max_priority = c.max_priority; total_kb = c.total_kb; max_queries = c.max_queries; max_scans = c.max_scans; nonpdq_kb = c.nonpdq_kb }) };

    ghost inverse = { λ v. record { max_priority = v.max_priority; total_kb = v.total_kb; max_queries = v.max_queries; max_scans = v.max_scans; nonpdq_kb = v.nonpdq_kb } };
}

impl Config {
    ghost use Rattle.pdq_model.specs.Configuration.{IsValid, configuration, frames_per_quantum};
    ghost use Rattle.pdq_model.specs.Shares.{effective_priority, quanta_by_memory, quanta_for, scans_for};

    /// A configuration of these five numbers, in the order MAX_PDQPRIORITY, DS_TOTAL_MEMORY in KB, DS_MAX_QUERIES, DS_MAX_SCANS,
    /// DS_NONPDQ_QUERY_MEM in KB; None exactly where they are not valid. The range of the first is that of the Informix guide, the other
    /// bounds are our own.
    pub fn check(m: u32, t: u32, q: u32, s: u32, n: u32) -> Option<Config>
        ensures valid { IsSome result ↔ IsValid (configuration m t q s n) }
        ensures value { IfSome result (λ c. c ≡ configuration m t q s n) }
    {
        let is_valid = m <= 100
            && 1 <= q
            && q <= 256
            && 128 * q <= t
            && t <= 1_048_576
            && 1 <= s
            && s <= 1_048_576
            && 128 <= n
            && n <= 262_144;
        if is_valid {
            Some(Config {
                max_priority: m,
                total_kb: t,
                max_queries: q,
                max_scans: s,
                nonpdq_kb: n,
            })
        } else {
            None
        }
    }

    /// MAX_PDQPRIORITY, in percent.
    pub fn max_priority(&self) -> u32
        ensures value { result ≡ self.now.max_priority }
    {
        self.max_priority
    }

    /// DS_TOTAL_MEMORY, in KB.
    pub fn total_kb(&self) -> u32
        ensures value { result ≡ self.now.total_kb }
    {
        self.total_kb
    }

    /// DS_MAX_QUERIES, which is also the number of quanta.
    pub fn max_queries(&self) -> u32
        ensures value { result ≡ self.now.max_queries }
    {
        self.max_queries
    }

    /// DS_MAX_SCANS.
    pub fn max_scans(&self) -> u32
        ensures value { result ≡ self.now.max_scans }
    {
        self.max_scans
    }

    /// DS_NONPDQ_QUERY_MEM, in KB: the memory that a query of effective priority 0 asks for.
    pub fn nonpdq_kb(&self) -> u32
        ensures value { result ≡ self.now.nonpdq_kb }
    {
        self.nonpdq_kb
    }

    /// Frames of 4 KB in a quantum.
    pub fn frames_per_quantum(&self) -> u32
        ensures value { result ≡ frames_per_quantum self.now }
    {
        self.total_kb / (4 * self.max_queries)
    }

    /// The effective priority of a query that is submitted with this priority, both in percent.
    pub fn effective_priority(&self, priority: u32) -> u32
        requires percent { priority ≤ 100 }
        ensures value { result ≡ effective_priority priority self.now }
        ensures most { result ≤ 100 }
    {
        priority * self.max_priority / 100
    }

    /// The quanta of a query of this effective priority: its percentage of them, rounded down; at priority 0 as many as DS_NONPDQ_QUERY_MEM
    /// asks for, rounded up, and at most a quarter of them; in each case at least one. The rounding and the quarter are our own.
    pub fn quanta_for(&self, priority: u32) -> u32
        requires percent { priority ≤ 100 }
        ensures value { result ≡ quanta_for self.now priority }
    {
        if priority >= 1 {
            (self.max_queries * priority / 100).max(1)
        } else {
            self.quanta_by_memory()
        }
    }

    // The quanta of a query of effective priority 0.
    fn quanta_by_memory(&self) -> u32
        ensures value { result ≡ quanta_by_memory self.now }
    {
        let asked = self.nonpdq_kb.div_ceil(4 * self.frames_per_quantum());
        (self.max_queries / 4).min(asked).max(1)
    }

    /// The scan threads of a query of this effective priority whose widest table has so many fragments.
    pub fn scans_for(&self, priority: u32, frags: u32) -> u32
        requires percent { priority ≤ 100 }
        ensures value { result ≡ scans_for self.now priority frags }
    {
        frags.min((self.max_scans * priority / 100).max(1))
    }
}
