//! Printed status texts.
ghost use Rattle.std.specs.Prelude.{IsTrue};
ghost use Rattle.pdq_model.specs.Step.{is_open};

use crate::onstat_text;
use pdq_frame::Pool;
use pdq_gate::{Config, Manager, Status};
use std::alloc::Global;
use std::test::Fail;

const NEVER_FILLED: &str = "\
STEP 0
Memory Grant Manager (MGM)
MAX_PDQPRIORITY: 0
DS_MAX_QUERIES: 1
DS_MAX_SCANS: 1
DS_TOTAL_MEMORY: 128 KB
DS_NONPDQ_QUERY_MEM: 128 KB
Unused: 0 KB
Pending: none
Queries:          Active       Ready     Maximum
                       0           0           1
Memory:            Total        Free     Quantum
                     128         128         128
Scans:             Total        Free     Quantum
                       1           1           1
Load:           1 Memory     2 Scans  3 Priority   4 Queries    5 Reinit
Queued:                0           0           0           0           0
Active queries: 0
Ready queries: 0
";

const WITHOUT_AN_ENTRY: &str = "\
STEP 0
Memory Grant Manager (MGM)
MAX_PDQPRIORITY: 80
DS_MAX_QUERIES: 7
DS_MAX_SCANS: 30
DS_TOTAL_MEMORY: 10000 KB
DS_NONPDQ_QUERY_MEM: 500 KB
Unused: 4 KB
Pending: none
Queries:          Active       Ready     Maximum
                       0           0           7
Memory:            Total        Free     Quantum
                    9996        9996        1428
Scans:             Total        Free     Quantum
                      30          30           1
Load:           1 Memory     2 Scans  3 Priority   4 Queries    5 Reinit
Queued:                0           0           0           0           0
Active queries: 0
Ready queries: 0
";

const TWO_ACTIVE_AND_THREE_WAITING: &str = "\
STEP 6
Memory Grant Manager (MGM)
MAX_PDQPRIORITY: 100
DS_MAX_QUERIES: 10
DS_MAX_SCANS: 10
DS_TOTAL_MEMORY: 4000 KB
DS_NONPDQ_QUERY_MEM: 128 KB
Unused: 0 KB
Pending: none
Queries:          Active       Ready     Maximum
                       2           3          10
Memory:            Total        Free     Quantum
                    4000         800         400
Scans:             Total        Free     Quantum
                      10           4           1
Load:           1 Memory     2 Scans  3 Priority   4 Queries    5 Reinit
Queued:                1           0           2           0           0
Active queries: 2
     Session       Query    Priority      Memory       Scans
           1           1          50        2000           4
           1           2          30        1200           2
Ready queries: 3
     Session       Query    Priority   Overtaken        Gate
           1           3          40           0           1
           1           4          20           0           3
           1           5          10           0           3
";

/// What is printed of the status, behind two bytes that stand there.
fn printed(alloc: Global, status: &Status) -> Result<String, Fail> {
    let mut text = Vec::from_slice(alloc, b"> ")?;
    onstat_text(status, &mut text).map_err(|_| "memory")?;
    Ok(String::from_utf8_lossy(alloc, &text)?)
}

/// What is printed of a manager of this configuration after session 1 made these claims: a priority and fragments each.
fn printed_after(alloc: Global, config: Config, claims: &[(u32, u32)]) -> Result<String, Fail> {
    let mut status = Status::new(alloc).map_err(|_| "memory")?;
    let pool = Pool::new(alloc, config.frames_per_quantum(), config.max_queries())?;
    let Ok(mut manager) = Manager::new(alloc, config, pool) else {
        return Err(Fail::from("memory"));
    };
    if !claims.is_empty() && manager.open_session(true).is_ok() {
        submit_all(&mut manager, claims);
    }
    manager.status(&mut status);
    drop(manager.end());
    printed(alloc, &status)
}

fn submit_all(manager: &mut Manager, claims: &[(u32, u32)])
    requires open { IsTrue (is_open manager.old.state 1) }
{
    for (priority, frags) in claims {
        submit(manager, *priority, *frags);
    }
}

fn submit(manager: &mut Manager, priority: u32, frags: u32)
    requires open { IsTrue (is_open manager.old.state 1) }
    ensures open { IsTrue (is_open manager.new.state 1) }
{
    if priority <= 100 && 1 <= frags && frags <= 16 {
        let _ = manager.submit(1, priority, frags);
    }
}

#[test]
fn statuses_print(rt: HostRuntime) -> Result<(), Fail> {
    let never_filled = Status::new(rt.alloc()).map_err(|_| "memory")?;
    let text = printed(rt.alloc(), &never_filled)?;
    assert_eq!(rt; text.as_str().strip_prefix("> "), Some(NEVER_FILLED));
    for (numbers, claims, want) in [
        ([80, 10000, 7, 30, 500], [].as_slice(), WITHOUT_AN_ENTRY),
        (
            [100, 4000, 10, 10, 128],
            [(50, 4), (30, 2), (40, 1), (20, 1), (10, 1)].as_slice(),
            TWO_ACTIVE_AND_THREE_WAITING,
        ),
    ] {
        let config = Config::check(numbers[0], numbers[1], numbers[2], numbers[3], numbers[4]);
        let config = config.ok_or("a valid configuration")?;
        let text = printed_after(rt.alloc(), config, claims)?;
        assert_eq!(rt; text.as_str().strip_prefix("> "), Some(want));
    }
    Ok(())
}
