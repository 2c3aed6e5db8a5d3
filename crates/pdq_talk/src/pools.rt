//! Changes that come with a pool.
ghost use Rattle.std.specs.Prelude.{◌≡◌, ◌≤◌, ◌*◌, IfOk, IfSome, IsSome, is_some, true};
ghost use Rattle.pdq_model.specs.Configuration.{configuration, is_valid, frames_per_quantum, IsValid};
ghost use Rattle.pdq_model.specs.Step.{needs_pool, pool_size_of};
ghost use Rattle.pdq_gate.specs.Changes.{pool_size, setting_of};
ghost use Rattle.pdq_office.specs.Passes.{lock_in};
ghost use Rattle.pdq_talk.specs.Lines as asked;
ghost use Rattle.pdq_talk.specs.Hand.{IsInHand, Comes};
ghost use Rattle.pdq_talk.specs.Pooling.{asked_in, size_made};
ghost use Rattle.pdq_talk.specs.Replies.{pooled_reply};

use crate::plain::{change_nonpdq, change_priority, change_scans};
use crate::replied::{Replied, Standing};
use crate::replies::pooled_reply;
use pdq_base::Memory;
use pdq_frame::Pool;
use pdq_model::Setting;
use pdq_office::{Change, Config, Office, Pass, Status};
use std::alloc::Global;
use std::sync::Wait;

/// The configuration of these numbers, where it is valid.
fn checked(m: u32, t: u32, q: u32, s: u32, n: u32) -> Option<Config>
    ensures test { is_some result ≡ is_valid (configuration m t q s n) }
    ensures valid { IfSome result IsValid }
    ensures value { IfSome result (λ c. c ≡ configuration m t q s n) }
{
    Config::check(m, t, q, s, n)
}

/// The configuration that a status asks for with this setting put in, where it is valid.
fn asked_config(status: &Status, setting: Setting) -> Option<Config>
    ensures test { is_some result ≡ is_valid (asked_in status.now setting) }
    ensures valid { IfSome result IsValid }
    ensures value { IfSome result (λ c. c ≡ asked_in status.now setting) }
{
    let now = status.now();
    let (t, q, s) = match status.pending() {
        Some(asked) => asked,
        None => (now.total_kb(), now.max_queries(), now.max_scans()),
    };
    match setting {
        Setting::MaxPriority(v) => checked(v, t, q, s, now.nonpdq_kb()),
        Setting::TotalMemory(v) => checked(now.max_priority(), v, q, s, now.nonpdq_kb()),
        Setting::MaxQueries(v) => checked(now.max_priority(), t, v, s, now.nonpdq_kb()),
        Setting::MaxScans(v) => checked(now.max_priority(), t, q, v, now.nonpdq_kb()),
        Setting::NonPdq(v) => checked(now.max_priority(), t, q, s, v),
    }
}

/// A pool for a valid configuration.
fn pool_for(alloc: Global, config: &Config) -> Result<Pool, Memory>
    requires valid { IsValid config.now }
    ensures home { IfOk result (λ p. p.home ≡ config.now.max_queries) }
    ensures frames { IfOk result (λ p. p.frames_per_quantum ≡ frames_per_quantum config.now) }
{
    Pool::new(alloc, config.frames_per_quantum(), config.max_queries())
}

/// The pool that a change comes with: one without quanta for a user, and where the configuration so changed is not valid.
fn pool_made(alloc: Global, admin: bool, status: &Status, setting: Setting) -> Result<Pool, Memory>
    ensures size { IfOk result (λ p. record { quanta = p.home; frames = p.frames_per_quantum } ≡ size_made admin status.now setting) }
{
    if admin && let Some(config) = asked_config(status, setting) {
        pool_for(alloc, &config)
    } else {
        Pool::new(alloc, 1, 0)
    }
}

/// ONMODE -M in an open session.
pub(crate) fn change_memory<R: Wait>(
    rt: &R,
    alloc: Global,
    office: &Office,
    pass: &mut Pass,
    standing: &Standing,
    status: &mut Status,
    value: u32,
) -> Replied
    requires hand { IsInHand (lock_in office.now) standing.now pass.old }
    requires some { IsSome standing.now.party }
    ensures comes { Comes (lock_in office.now) pass.old pass.new standing.now (asked.Change (Setting.TotalMemory value)) result }
{
    let admin = office.look_as(rt, pass, status);
    match pool_made(alloc, admin, status, Setting::TotalMemory(value)) {
        Ok(pool) => {
            let outcome = office.onmode(rt, pass, Change::TotalMemory(value, pool));
            pooled_reply(Setting::TotalMemory(value), status.step(), outcome)
        }
        Err(_) => Replied::NoRoom,
    }
}

/// ONMODE -Q in an open session.
pub(crate) fn change_queries<R: Wait>(
    rt: &R,
    alloc: Global,
    office: &Office,
    pass: &mut Pass,
    standing: &Standing,
    status: &mut Status,
    value: u32,
) -> Replied
    requires hand { IsInHand (lock_in office.now) standing.now pass.old }
    requires some { IsSome standing.now.party }
    ensures comes { Comes (lock_in office.now) pass.old pass.new standing.now (asked.Change (Setting.MaxQueries value)) result }
{
    let admin = office.look_as(rt, pass, status);
    match pool_made(alloc, admin, status, Setting::MaxQueries(value)) {
        Ok(pool) => {
            let outcome = office.onmode(rt, pass, Change::MaxQueries(value, pool));
            pooled_reply(Setting::MaxQueries(value), status.step(), outcome)
        }
        Err(_) => Replied::NoRoom,
    }
}

/// ONMODE in an open session.
pub(crate) fn change_setting<R: Wait>(
    rt: &R,
    alloc: Global,
    office: &Office,
    pass: &mut Pass,
    standing: &Standing,
    status: &mut Status,
    setting: Setting,
) -> Replied
    requires hand { IsInHand (lock_in office.now) standing.now pass.old }
    requires some { IsSome standing.now.party }
    ensures comes { Comes (lock_in office.now) pass.old pass.new standing.now (asked.Change setting) result }
{
    match setting {
        Setting::MaxPriority(value) => change_priority(rt, office, pass, standing, value),
        Setting::TotalMemory(value) => change_memory(
            rt, alloc, office, pass, standing, status, value,
        ),
        Setting::MaxQueries(value) => change_queries(
            rt, alloc, office, pass, standing, status, value,
        ),
        Setting::MaxScans(value) => change_scans(rt, office, pass, standing, value),
        Setting::NonPdq(value) => change_nonpdq(rt, office, pass, standing, value),
    }
}
