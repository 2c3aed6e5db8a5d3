//! Running one line of a script.
ghost use Rattle.std.specs.Prelude.{◌≡◌, false, true, Ok, IfOk, OnErr, OnOk, length};
ghost use Rattle.pdq_exec.specs.Runs.{AnyRose, AreStoresAfter};
ghost use Rattle.pdq_session.specs.ScriptLines.{line_step, LineFits, MadeFirst, RanLine};
ghost use Rattle.pdq_session.specs.ScriptStates.{asked_of, script_state, IsReady, IsTrusted, KeepsTables};

use crate::script_commands::run_command;
use crate::script_lines::ScriptLine;
use crate::script_queries::{place_query, run_query};
use crate::script_sessions::ScriptSessions;
use pdq_edge::Spill;
use pdq_gate::Manager;
use std::alloc::{AllocError, Global};
use std::thread::Threads;

/// Runs a line over the tables of the script. Tells whether a store failed.
pub(crate) fn run_line<R: Threads + Sync, Sp: Spill + Send>(
    rt: &R,
    alloc: Global,
    manager: &mut Manager,
    sessions: &mut ScriptSessions,
    replies: &mut Vec<u8>,
    line: ScriptLine,
    stores: &mut Vec<Sp>,
) -> Result<bool, AllocError>
    requires fits { LineFits (asked_of sessions.old.stored) line }
    requires ready { IsReady (script_state manager.old sessions.old) }
    requires stores { length stores.old.items ≡ 48 }
    ensures ran { IsTrusted sessions.old.stored Sp.blocks stores.old.items → IfOk result (RanLine (script_state manager.old sessions.old) (script_state manager.new sessions.new) replies.old.items replies.new.items line) }
    ensures made { IsTrusted sessions.old.stored Sp.blocks stores.old.items → OnErr result (MadeFirst (line_step (script_state manager.old sessions.old) false line).state.history manager.new.history) }
    ensures ready { OnOk result (IsReady (script_state manager.new sessions.new)) }
    ensures kept { KeepsTables sessions.old sessions.new }
    ensures stores { AreStoresAfter Sp.blocks Sp.faults Sp.puts stores.old.items stores.new.items }
    ensures failed { result ≡ Ok true → AnyRose Sp.faults stores.old.items stores.new.items }
    ensures opening { manager.new.opening ≡ manager.old.opening }
{
    match line {
        ScriptLine::Blank => Ok(false),
        ScriptLine::Query(query) => {
            place_query(alloc, manager, sessions, replies, query)?;
            Ok(false)
        }
        ScriptLine::Run(id) => run_query(rt, alloc, manager, sessions, replies, id, stores),
        ScriptLine::Other(command) => {
            run_command(alloc, manager, sessions, replies, command)?;
            Ok(false)
        }
    }
}
