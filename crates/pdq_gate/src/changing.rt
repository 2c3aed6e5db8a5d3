//! The configuration is changed.
ghost use Rattle.std.specs.Prelude.{false, ◌≡◌, ◌+◌, ◌≤◌, ◌&&◌, Some, IfSome, is_some};
ghost use Rattle.pdq_model.specs.Configuration.{configuration, is_valid, IsValid};
ghost use Rattle.pdq_model.specs.Laws.{counted};
ghost use Rattle.pdq_model.specs.Settling.{admits, with_pending, IsSettled};
ghost use Rattle.pdq_model.specs.Step.{answer_to_change, can_wait, changed_reply, entered, is_full_for, next_with_pool, pending_or_present, target_of};
ghost use Rattle.pdq_gate.specs.Answers.{change_answer};
ghost use Rattle.pdq_gate.specs.Board.{state_of};
ghost use Rattle.pdq_gate.specs.Invariant.{IsKeptFor, IsSoundBoard, IsWholePool};
ghost use Rattle.pdq_gate.specs.Changes.{admitted_by_change, asked_of, pool_size, setting_of, with_limit, with_memory, with_change, HasPoolFor};

use crate::board::Board;
use crate::changes::{Change, can_wait, has_asked_pool, setting_of};
use pdq_frame::Pool;
use pdq_model::{Config, Event, Pending, Reply, Setting, Why};

/// What a change to this configuration asks for.
fn asked_of(target: &Config) -> Pending
    ensures value { result ≡ asked_of target.now }
{
    Pending {
        total_kb: target.total_kb(),
        max_queries: target.max_queries(),
        max_scans: target.max_scans(),
    }
}

/// The configuration of these numbers, where it is valid.
fn checked(m: u32, t: u32, q: u32, s: u32, n: u32) -> Option<Config>
    ensures test { is_some result ≡ is_valid (configuration m t q s n) }
    ensures valid { IfSome result IsValid }
    ensures value { IfSome result (λ c. c ≡ configuration m t q s n) }
{
    Config::check(m, t, q, s, n)
}

impl Board {
    /// The pending configuration, or the present one where none is pending.
    fn pending_or_present(&self) -> Config
        requires sound { IsSoundBoard self.now }
        ensures value { result ≡ pending_or_present (state_of self.now) }
    {
        match self.pending {
            Some(change) => self.changed_config(change),
            None => self.config,
        }
    }

    /// The configuration that a setting asks for, where it is valid.
    fn target(&self, setting: Setting) -> Option<Config>
        requires sound { IsSoundBoard self.now }
        ensures test { is_some result ≡ is_valid (target_of (state_of self.now) setting) }
        ensures valid { IfSome result IsValid }
        ensures value { IfSome result (λ c. c ≡ target_of (state_of self.now) setting) }
    {
        let from = self.pending_or_present();
        let (m, t, q, s, n) = (
            from.max_priority(),
            from.total_kb(),
            from.max_queries(),
            from.max_scans(),
            from.nonpdq_kb(),
        );
        match setting {
            Setting::MaxPriority(m) => checked(m, t, q, s, n),
            Setting::TotalMemory(t) => checked(m, t, q, s, n),
            Setting::MaxQueries(q) => checked(m, t, q, s, n),
            Setting::MaxScans(s) => checked(m, t, q, s, n),
            Setting::NonPdq(n) => checked(m, t, q, s, n),
        }
    }

    /// MAX_PDQPRIORITY changes, and that is entered.
    fn limit(&mut self, max_priority: u32)
        requires sound { IsSoundBoard self.old }
        requires percent { max_priority ≤ 100 }
        requires room { is_full_for (state_of self.old) 1 ≡ false }
        ensures sound { IsSoundBoard self.new }
        ensures state { state_of self.new ≡ with_limit (state_of self.old) max_priority }
    {
        let Some(config) = Config::check(
            max_priority,
            self.config.total_kb(),
            self.config.max_queries(),
            self.config.max_scans(),
            self.config.nonpdq_kb(),
        ) else {
            unreachable!();
        };
        self.config = config;
        self.changes += 1;
        self.entries += 1;
    }

    /// DS_NONPDQ_QUERY_MEM changes, and that is entered.
    fn resize(&mut self, nonpdq_kb: u32)
        requires sound { IsSoundBoard self.old }
        requires least { 128 ≤ nonpdq_kb }
        requires most { nonpdq_kb ≤ 262144 }
        requires room { is_full_for (state_of self.old) 1 ≡ false }
        ensures sound { IsSoundBoard self.new }
        ensures state { state_of self.new ≡ with_memory (state_of self.old) nonpdq_kb }
    {
        let Some(config) = Config::check(
            self.config.max_priority(),
            self.config.total_kb(),
            self.config.max_queries(),
            self.config.max_scans(),
            nonpdq_kb,
        ) else {
            unreachable!();
        };
        self.config = config;
        self.changes += 1;
        self.entries += 1;
    }

    /// A change is pending now, and that is entered.
    fn ask(&mut self, target: Config)
        requires sound { IsSoundBoard self.old }
        requires valid { IsValid (with_pending self.old.config (asked_of target)) }
        requires kept { IsKeptFor self.old.config (Some (asked_of target)) self.old.next_pool }
        requires room { is_full_for (state_of self.old) 1 ≡ false }
        ensures sound { IsSoundBoard self.new }
        ensures state { state_of self.new ≡ with_change (state_of self.old) target }
    {
        self.pending = Some(asked_of(&target));
        self.changes += 1;
        self.entries += 1;
    }

    /// A change is pending now, with its pool in place of one that was kept before, and that is entered.
    fn ask_with_pool(&mut self, target: Config, pool: Pool)
        requires sound { IsSoundBoard self.old }
        requires valid { IsValid (with_pending self.old.config (asked_of target)) }
        requires whole { IsWholePool target pool }
        requires room { is_full_for (state_of self.old) 1 ≡ false }
        ensures sound { IsSoundBoard self.new }
        ensures state { state_of self.new ≡ with_change (state_of self.old) target }
    {
        self.next_pool = Some(pool);
        self.pending = Some(asked_of(&target));
        self.changes += 1;
        self.entries += 1;
    }

    /// What a change does itself, and that is entered.
    fn change(&mut self, by: u32, change: Change, target: Config)
        requires sound { IsSoundBoard self.old }
        requires target { target ≡ target_of (state_of self.old) (setting_of change) }
        requires valid { IsValid target }
        requires pool { HasPoolFor target change }
        requires room { is_full_for (state_of self.old) 1 ≡ false }
        ensures sound { IsSoundBoard self.new }
        ensures state { state_of self.new ≡ counted (state_of self.old) by (Event.Onmode (setting_of change)) }
    {
        match change {
            Change::MaxPriority(max_priority) => self.limit(max_priority),
            Change::TotalMemory(_, pool) => self.ask_with_pool(target, pool),
            Change::MaxQueries(_, pool) => self.ask_with_pool(target, pool),
            Change::MaxScans(_) => self.ask(target),
            Change::NonPdq(nonpdq_kb) => self.resize(nonpdq_kb),
        }
    }

    /// A change that is accepted. Answers whether it waits.
    fn enter_change(&mut self, by: u32, change: Change, target: Config) -> bool
        requires sound { IsSoundBoard self.old }
        requires target { target ≡ target_of (state_of self.old) (setting_of change) }
        requires valid { IsValid target }
        requires pool { HasPoolFor target change }
        requires room { is_full_for (state_of self.old) 1 ≡ false }
        ensures sound { IsSoundBoard self.new }
        ensures settled { IsSettled (state_of self.new) }
        ensures reply { Reply.Changed result ≡ changed_reply (state_of self.old) by (setting_of change) }
        ensures state { state_of self.new ≡ entered (state_of self.old) by (Event.Onmode (setting_of change)) }
        ensures told { self.new.admitted.items ≡ admits (counted (state_of self.old) by (Event.Onmode (setting_of change))).active self.new.active }
    {
        let waits = can_wait(setting_of(&change));
        self.change(by, change, target);
        self.settle();
        waits && self.pending.is_some()
    }

    /// This session changes a parameter. Answers whether the change waits.
    pub fn onmode(&mut self, by: u32, change: Change) -> Result<bool, Why>
        requires sound { IsSoundBoard self.old }
        requires settled { IsSettled (state_of self.old) }
        ensures sound { IsSoundBoard self.new }
        ensures settled { IsSettled (state_of self.new) }
        ensures answer { change_answer result ≡ answer_to_change (state_of self.old) by (setting_of change) (pool_size change) }
        ensures state { state_of self.new ≡ next_with_pool (state_of self.old) by (setting_of change) (pool_size change) }
        ensures told { self.new.admitted.items ≡ admitted_by_change (state_of self.old) by (setting_of change) (pool_size change) self.old.admitted.items }
    {
        if !self.is_admin(by) {
            return Err(Why::NotAllowed);
        }
        let Some(target) = self.target(setting_of(&change)) else {
            return Err(Why::BadValue);
        };
        if !has_asked_pool(&change, &target) {
            return Err(Why::PoolSize {
                quanta: target.max_queries(),
                frames: target.frames_per_quantum(),
            });
        }
        if self.is_full_for(1) {
            return Err(Why::JournalFull);
        }
        Ok(self.enter_change(by, change, target))
    }
}
