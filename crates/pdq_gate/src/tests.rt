//! Worked examples, as lists of calls.
ghost use Rattle.std.specs.Prelude.{◌≡◌, IfSome, IsTrue};
ghost use Rattle.pdq_model.specs.Step.{is_open};

use crate::{
    ActiveRow, Admit, Cancelled, Change, Changed, Collected, Config, How, Manager, Opened, Refused,
    Setting, Status, Submitted, WaitingRow, Why,
};
use pdq_frame::Pool;
use std::alloc::Global;
use std::process::Abort;

/// A call, with what it must answer.
#[derive(Drop)]
enum Line {
    /// Session 1 submits a query of this priority and so many fragments: its number and its gate.
    Claim(u32, u32, u32, u32),
    /// Session 1 submits a query of this priority and so many fragments, and is refused.
    Refused(u32, u32, Refused),
    /// The query of this number is collected and finished: the step.
    Done(u32, u64),
    /// The same, for one that was cancelled at the first step.
    Stopped(u32, u64, u64),
    /// The query of this number is collected, and was withdrawn at the first step.
    Withdrawn(u32, u64, u64),
    Open(bool, Result<Opened, Refused>),
    Close(u32, u64),
    /// A session cancels a query.
    Cancel(u32, u32, Result<Cancelled, Refused>),
    /// A session changes a parameter, with a pool of so many quanta of so many frames where the setting asks for one.
    Onmode(u32, Setting, u32, u32, Result<Changed, Refused>),
    /// What the last entry admitted.
    Admits(&'static [Admit]),
}

/// A pool of so many quanta of so many frames.
fn pool(alloc: Global, quanta: u32, frames: u32) -> Option<Pool>
    ensures value { IfSome result (λ p. p ≡ record { frames_per_quantum = frames; home = quanta; made = quanta }) }
{
    match frames.checked_mul(quanta) {
        Some(all) if all <= 262_144 && frames >= 1 => match Pool::new(alloc, frames, quanta) {
            Ok(pool) => Some(pool),
            Err(_) => None,
        },
        _ => None,
    }
}

/// A manager of so many KB, queries and scan threads, with an administrator's session 1.
fn opened(rt: &impl Abort, alloc: Global, total_kb: u32, queries: u32, scans: u32) -> Manager
    ensures known { IsTrue (is_open result.state 1) }
{
    let config = Config::check(100, total_kb, queries, scans, 128).expect(
        rt,
        "a valid configuration",
    );
    let pool = pool(alloc, config.max_queries(), config.frames_per_quantum());
    let Some(pool) = pool else {
        panic!(rt; "ample memory");
    };
    let Ok(mut manager) = Manager::new(alloc, config, pool) else {
        panic!(rt; "ample memory");
    };
    match manager.open_session(true) {
        Ok(opened) => assert_eq!(rt; (opened.session, opened.step), (1, 1)),
        Err(_) => panic!(rt; "the first session"),
    }
    assert!(rt; manager.is_open(1));
    manager
}

/// What a submission of session 1 is answered, where it may be made.
fn submitted(
    manager: &mut Manager,
    priority: u32,
    frags: u32,
) -> Option<Result<Submitted, Refused>> {
    if priority > 100 || frags == 0 || frags > 16 || !manager.is_open(1) {
        return None;
    }
    Some(manager.submit(1, priority, frags))
}

/// Whether the claim is answered so.
fn claims(manager: &mut Manager, priority: u32, frags: u32, number: u32, at: u32) -> bool {
    match submitted(manager, priority, frags) {
        Some(
            Ok(
                Submitted::Placed {
                    id,
                    step: _,
                    priority: _,
                    gate,
                },
            ),
        ) => id == number && gate == at,
        Some(Err(_)) => false,
        None => false,
    }
}

/// Whether the query, which is collected and finished where it is active, ends at this step, flagged so.
fn ends(manager: &mut Manager, id: u32, at: Option<u64>, last: u64) -> bool {
    if !manager.may_collect(id) {
        return false;
    }
    match manager.collect(id) {
        Collected::Granted {
            region,
            quanta: _,
            scans: _,
            priority: _,
            flagged,
            step: _,
        } => manager.finish(id, region, How::Done) == last && flagged == at,
        Collected::Waiting { gate: _, step: _ } => false,
        Collected::Cancelled { by, step } => Some(by) == at && step == last,
    }
}

/// The change that the setting makes, with a pool of so many quanta of so many frames where it asks for one.
fn change(alloc: Global, setting: Setting, quanta: u32, frames: u32) -> Option<Change> {
    match setting {
        Setting::MaxPriority(v) => Some(Change::MaxPriority(v)),
        Setting::TotalMemory(v) => Some(Change::TotalMemory(v, pool(alloc, quanta, frames)?)),
        Setting::MaxQueries(v) => Some(Change::MaxQueries(v, pool(alloc, quanta, frames)?)),
        Setting::MaxScans(v) => Some(Change::MaxScans(v)),
        Setting::NonPdq(v) => Some(Change::NonPdq(v)),
    }
}

/// Whether the session, which is open, closes at this step.
fn closes(manager: &mut Manager, session: u32, step: u64) -> bool {
    if !manager.may_close(session) {
        return false;
    }
    manager.close_session(session) == step
}

/// Whether the cancellation is answered so.
fn cancels(manager: &mut Manager, by: u32, id: u32, told: &Result<Cancelled, Refused>) -> bool {
    if !manager.is_open(by) {
        return false;
    }
    manager.cancel(by, id) == *told
}

/// Whether the change is answered so.
fn changes(
    manager: &mut Manager,
    by: u32,
    change: Option<Change>,
    told: &Result<Changed, Refused>,
) -> bool {
    let Some(change) = change else {
        return false;
    };
    if !manager.is_open(by) {
        return false;
    }
    manager.onmode(by, change) == *told
}

/// Whether the last entry admitted these.
fn has_admitted<'a>(manager: &'a Manager, admits: &'a [Admit]) -> bool {
    manager.admitted() == admits
}

/// Whether the line is answered as it says.
fn is_answered(manager: &mut Manager, alloc: Global, line: &Line) -> bool {
    match line {
        Line::Claim(priority, frags, number, gate) => {
            claims(manager, *priority, *frags, *number, *gate)
        }
        Line::Refused(priority, frags, told) => {
            submitted(manager, *priority, *frags) == Some(Err(*told))
        }
        Line::Done(id, step) => ends(manager, *id, None, *step),
        Line::Stopped(id, by, step) => ends(manager, *id, Some(*by), *step),
        Line::Withdrawn(id, by, step) => ends(manager, *id, Some(*by), *step),
        Line::Open(admin, told) => manager.open_session(*admin) == *told,
        Line::Close(session, step) => closes(manager, *session, *step),
        Line::Cancel(by, id, told) => cancels(manager, *by, *id, told),
        Line::Onmode(by, setting, quanta, frames, told) => {
            changes(
                manager,
                *by,
                change(alloc, *setting, *quanta, *frames),
                told,
            )
        }
        Line::Admits(admits) => has_admitted(manager, admits),
    }
}

/// Each line is answered as it says, and then all quanta that no query has are home.
fn play(rt: &impl Abort, alloc: Global, scans: u32, lines: &[Line], home: u32) {
    let mut manager = opened(rt, alloc, 4000, 10, scans);
    for line in lines {
        assert!(rt; is_answered(&mut manager, alloc, line));
    }
    assert_eq!(rt; manager.step() as usize, manager.entries().len());
    assert_eq!(rt; manager.end().quanta(), home);
}

#[test]
fn second_waits_for_memory(rt: HostRuntime) {
    let lines = [
        Line::Claim(100, 1, 1, 0),
        Line::Admits(&[Admit {
            id: 1,
            quanta: 10,
            scans: 1,
        }]),
        Line::Claim(1, 1, 2, 1),
        Line::Admits(&[]),
    ];
    play(&rt, rt.alloc(), 10, &lines, 10);
}

#[test]
fn head_blocks_those_behind(rt: HostRuntime) {
    let lines = [
        Line::Claim(60, 1, 1, 0),
        Line::Claim(50, 1, 2, 1),
        Line::Claim(10, 1, 3, 3),
        Line::Claim(0, 1, 4, 3),
        Line::Admits(&[]),
    ];
    play(&rt, rt.alloc(), 10, &lines, 10);
}

#[test]
fn one_completion_admits_two(rt: HostRuntime) {
    let lines = [
        Line::Claim(100, 1, 1, 0),
        Line::Claim(50, 1, 2, 1),
        Line::Claim(40, 1, 3, 3),
        Line::Done(1, 6),
        Line::Admits(&[
            Admit {
                id: 2,
                quanta: 5,
                scans: 1,
            },
            Admit {
                id: 3,
                quanta: 4,
                scans: 1,
            },
        ]),
    ];
    play(&rt, rt.alloc(), 10, &lines, 10);
}

#[test]
fn scan_threads_run_out(rt: HostRuntime) {
    let lines = [
        Line::Claim(19, 16, 1, 0),
        Line::Claim(19, 16, 2, 0),
        Line::Claim(19, 16, 3, 0),
        Line::Claim(19, 16, 4, 0),
        Line::Claim(19, 16, 5, 0),
        Line::Claim(19, 16, 6, 0),
        Line::Admits(&[Admit {
            id: 6,
            quanta: 1,
            scans: 16,
        }]),
        Line::Claim(19, 16, 7, 2),
    ];
    play(&rt, rt.alloc(), 100, &lines, 10);
}

#[test]
fn priority_limit_acts_on_later_queries(rt: HostRuntime) {
    let told = Changed {
        pending: false,
        step: 5,
    };
    let lines = [
        Line::Claim(100, 1, 1, 0),
        Line::Done(1, 4),
        Line::Onmode(1, Setting::MaxPriority(50), 0, 0, Ok(told)),
        Line::Claim(100, 1, 2, 0),
        Line::Admits(&[Admit {
            id: 2,
            quanta: 5,
            scans: 1,
        }]),
    ];
    play(&rt, rt.alloc(), 10, &lines, 10);
}

// 1,000 KB are three quanta of 400 KB; a quarter of ten quanta is two.
#[test]
fn nonpdq_memory_changes_at_once(rt: HostRuntime) {
    let changed = |step| Changed {
        pending: false,
        step,
    };
    let bad = Refused {
        why: Why::BadValue,
        step: 4,
    };
    let lines = [
        Line::Claim(0, 4, 1, 0),
        Line::Onmode(1, Setting::NonPdq(1000), 0, 0, Ok(changed(3))),
        Line::Claim(0, 4, 2, 0),
        Line::Admits(&[Admit {
            id: 2,
            quanta: 2,
            scans: 1,
        }]),
        Line::Onmode(1, Setting::NonPdq(127), 0, 0, Err(bad)),
    ];
    play(&rt, rt.alloc(), 10, &lines, 10);
    let lines = [
        Line::Onmode(1, Setting::NonPdq(1000), 0, 0, Ok(changed(2))),
        Line::Claim(90, 1, 1, 0),
        Line::Claim(0, 1, 2, 1),
        Line::Onmode(1, Setting::NonPdq(128), 0, 0, Ok(changed(5))),
        Line::Admits(&[Admit {
            id: 2,
            quanta: 1,
            scans: 1,
        }]),
    ];
    play(&rt, rt.alloc(), 10, &lines, 10);
}

#[test]
fn priority_zero_goes_last(rt: HostRuntime) {
    let lines = [
        Line::Claim(100, 1, 1, 0),
        Line::Claim(0, 1, 2, 1),
        Line::Claim(1, 1, 3, 1),
        Line::Done(1, 6),
        Line::Admits(&[
            Admit {
                id: 3,
                quanta: 1,
                scans: 1,
            },
            Admit {
                id: 2,
                quanta: 1,
                scans: 1,
            },
        ]),
    ];
    play(&rt, rt.alloc(), 10, &lines, 10);
}

#[test]
fn fewer_queries_once_drained(rt: HostRuntime) {
    let asked = Changed {
        pending: true,
        step: 5,
    };
    let lines = [
        Line::Claim(20, 1, 1, 0),
        Line::Claim(20, 1, 2, 0),
        Line::Claim(20, 1, 3, 0),
        Line::Onmode(1, Setting::MaxQueries(2), 2, 500, Ok(asked)),
        Line::Claim(20, 1, 4, 5),
        Line::Claim(20, 1, 5, 5),
        Line::Done(1, 9),
        Line::Done(2, 11),
        Line::Done(3, 13),
        Line::Admits(&[
            Admit {
                id: 4,
                quanta: 1,
                scans: 1,
            },
            Admit {
                id: 5,
                quanta: 1,
                scans: 1,
            },
        ]),
    ];
    play(&rt, rt.alloc(), 10, &lines, 2);
    let bad = Refused {
        why: Why::BadValue,
        step: 5,
    };
    let limited = Changed {
        pending: false,
        step: 6,
    };
    let lines = [
        Line::Claim(20, 1, 1, 0),
        Line::Claim(20, 1, 2, 0),
        Line::Claim(20, 1, 3, 0),
        Line::Onmode(1, Setting::MaxQueries(2), 2, 500, Ok(asked)),
        Line::Onmode(1, Setting::MaxScans(0), 0, 0, Err(bad)),
        Line::Onmode(1, Setting::MaxPriority(50), 0, 0, Ok(limited)),
        Line::Claim(20, 1, 4, 5),
        Line::Done(1, 9),
        Line::Done(2, 11),
        Line::Done(3, 13),
    ];
    play(&rt, rt.alloc(), 10, &lines, 2);
}

#[test]
fn two_pending_parts_one_swap(rt: HostRuntime) {
    let first = Changed {
        pending: true,
        step: 3,
    };
    let second = Changed {
        pending: true,
        step: 4,
    };
    let lines = [
        Line::Claim(20, 1, 1, 0),
        Line::Onmode(1, Setting::TotalMemory(8000), 10, 200, Ok(first)),
        Line::Onmode(1, Setting::MaxQueries(4), 4, 500, Ok(second)),
        Line::Done(1, 6),
        Line::Claim(50, 1, 2, 0),
        Line::Admits(&[Admit {
            id: 2,
            quanta: 2,
            scans: 1,
        }]),
    ];
    play(&rt, rt.alloc(), 10, &lines, 4);
}

#[test]
fn cancel_waiting_and_active(rt: HostRuntime) {
    let already = |step| Refused {
        why: Why::AlreadyCancelled,
        step,
    };
    let none = Refused {
        why: Why::NoSuchQuery,
        step: 7,
    };
    let withdrawn = Cancelled {
        active: false,
        step: 4,
    };
    let flagged = Cancelled {
        active: true,
        step: 5,
    };
    let lines = [
        Line::Claim(100, 1, 1, 0),
        Line::Claim(50, 1, 2, 1),
        Line::Cancel(1, 2, Ok(withdrawn)),
        Line::Cancel(1, 2, Err(already(4))),
        Line::Cancel(1, 1, Ok(flagged)),
        Line::Cancel(1, 1, Err(already(5))),
        Line::Stopped(1, 5, 7),
        Line::Cancel(1, 1, Err(none)),
        Line::Withdrawn(2, 4, 8),
    ];
    play(&rt, rt.alloc(), 10, &lines, 10);
}

#[test]
fn users_and_administrators(rt: HostRuntime) {
    let user = Opened {
        session: 2,
        step: 3,
    };
    let not_allowed = Refused {
        why: Why::NotAllowed,
        step: 3,
    };
    let bad = Refused {
        why: Why::BadValue,
        step: 3,
    };
    let lines = [
        Line::Claim(10, 1, 1, 0),
        Line::Open(false, Ok(user)),
        Line::Onmode(2, Setting::MaxPriority(10), 0, 0, Err(not_allowed)),
        Line::Cancel(2, 1, Err(not_allowed)),
        Line::Onmode(1, Setting::MaxQueries(40), 40, 25, Err(bad)),
        Line::Close(2, 4),
    ];
    play(&rt, rt.alloc(), 10, &lines, 10);
}

#[test]
fn pool_of_the_wrong_size(rt: HostRuntime) {
    let wrong = Refused {
        why: Why::PoolSize {
            quanta: 10,
            frames: 200,
        },
        step: 1,
    };
    let taken = Changed {
        pending: false,
        step: 2,
    };
    let lines = [
        Line::Onmode(1, Setting::TotalMemory(8000), 10, 100, Err(wrong)),
        Line::Onmode(1, Setting::TotalMemory(8000), 10, 200, Ok(taken)),
    ];
    play(&rt, rt.alloc(), 10, &lines, 10);
}

#[test]
fn queue_full(rt: HostRuntime) {
    let mut manager = opened(&rt, rt.alloc(), 128, 1, 1);
    assert!(rt; claims(&mut manager, 100, 1, 1, 0));
    for number in 2..1026 {
        assert!(rt;
            claims(
                &mut manager,
                100,
                1,
                number,
                if number == 2 { 4 } else { 3 }
            )
        );
    }
    let full = Line::Refused(
        100,
        1,
        Refused {
            why: Why::QueueFull,
            step: 1026,
        },
    );
    assert!(rt; is_answered(&mut manager, rt.alloc(), &full));
    assert_eq!(rt; manager.end().quanta(), 1);
}

#[test]
fn journal_full(rt: HostRuntime) {
    let mut manager = opened(&rt, rt.alloc(), 4000, 10, 10);
    for number in 1..100_000 {
        assert!(rt; claims(&mut manager, 10, 1, number, 0));
        assert!(rt; ends(&mut manager, number, None, 3 * u64::from(number) + 1));
    }
    let full = Line::Refused(
        10,
        1,
        Refused {
            why: Why::JournalFull,
            step: 299_998,
        },
    );
    assert!(rt; is_answered(&mut manager, rt.alloc(), &full));
    assert_eq!(rt; manager.entries().len(), 299_998);
    assert_eq!(rt; manager.end().quanta(), 10);
}

#[test]
fn too_many_sessions(rt: HostRuntime) {
    let mut manager = opened(&rt, rt.alloc(), 4000, 10, 10);
    for session in 2..65 {
        let told = Opened {
            session,
            step: u64::from(session),
        };
        assert!(rt; manager.open_session(false) == Ok(told));
    }
    let many = Refused {
        why: Why::TooManySessions,
        step: 64,
    };
    assert!(rt; manager.open_session(false) == Err(many));
    assert_eq!(rt; manager.end().quanta(), 10);
}

#[test]
fn overtaken_thirty_two_times(rt: HostRuntime) {
    let mut manager = opened(&rt, rt.alloc(), 4000, 10, 10);
    assert!(rt; claims(&mut manager, 100, 1, 1, 0));
    assert!(rt; claims(&mut manager, 1, 1, 2, 1));
    let mut active = 1;
    for number in 3..35 {
        assert!(rt; claims(&mut manager, 100, 1, number, 1));
        assert!(rt; ends(&mut manager, active, None, 3 * u64::from(number) - 3));
        assert!(rt;
            manager.admitted()
                == [Admit {
                    id: number,
                    quanta: 10,
                    scans: 1
                }]
                .as_slice()
        );
        active = number;
    }
    assert_eq!(rt; manager.step(), 99);
    assert!(rt; claims(&mut manager, 100, 1, 35, 3));
    assert!(rt; ends(&mut manager, 34, None, 102));
    assert!(rt;
        manager.admitted()
            == [Admit {
                id: 2,
                quanta: 1,
                scans: 1
            }]
            .as_slice()
    );
    assert_eq!(rt; manager.end().quanta(), 10);
}

#[test]
fn status_of_two_active_three_waiting(rt: HostRuntime) {
    let Ok(mut status) = Status::new(rt.alloc()) else {
        panic!(rt; "ample memory");
    };
    assert!(rt; status.active().is_empty());
    let mut manager = opened(&rt, rt.alloc(), 4000, 10, 10);
    assert!(rt; claims(&mut manager, 50, 4, 1, 0));
    assert!(rt; claims(&mut manager, 30, 2, 2, 0));
    assert!(rt; claims(&mut manager, 10, 1, 3, 0));
    assert!(rt; claims(&mut manager, 20, 1, 4, 1));
    assert!(rt; claims(&mut manager, 40, 1, 5, 1));
    manager.status(&mut status);
    assert_eq!(rt;
        (status.step(), status.now().max_queries(), status.pending()),
        (6, 10, None)
    );
    assert_eq!(rt; status.active().len(), 3);
    assert_eq!(rt; status.waiting().len(), 2);
    assert_eq!(rt;
        status.active()[1],
        ActiveRow {
            session: 1,
            id: 2,
            priority: 30,
            quanta: 3,
            scans: 2
        }
    );
    assert_eq!(rt;
        status.waiting()[0],
        WaitingRow {
            session: 1,
            id: 5,
            priority: 40,
            overtaken: 0,
            gate: 1
        }
    );
    assert_eq!(rt;
        status.waiting()[1],
        WaitingRow {
            session: 1,
            id: 4,
            priority: 20,
            overtaken: 0,
            gate: 3
        }
    );
    assert_eq!(rt;
        (manager.owner(2), manager.holder(4), manager.is_waiting(4)),
        (Some(1), None, true)
    );
    assert_eq!(rt; manager.end().quanta(), 10);
}
