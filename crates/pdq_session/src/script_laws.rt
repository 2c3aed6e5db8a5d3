//! What is true of the manager whatever a script says. It stands on a function with nothing to do.

ghost use Rattle.pdq_session.specs.PrintedLines.{TextsKeepLimits};
ghost use Rattle.pdq_session.specs.ScriptLaws.{ScriptsKeepRules, TranscriptsKeepRules};

/// Whatever lines a script has, the manager keeps its rules after each of them: reserved quanta never pass DS_MAX_QUERIES, nor scan
/// threads DS_MAX_SCANS, and at most DS_MAX_QUERIES queries are active; a gate refuses the head, if there is one; where nothing is
/// active, nothing waits and no change is pending; no waiting query was overtaken more than 32 times; the journal is a legal history
/// that leads to the manager's state, so that every law over such histories is true of it; and what each of its entries admitted, of
/// which each has an ADMIT line, was the head when it was admitted, and no gate refused it.
/// The state that a script leaves, at the end of its input or at a line that is refused, keeps them too.
pub fn scripts_keep_rules()
    ensures law { ScriptsKeepRules }
    ensures transcripts { TranscriptsKeepRules }
{}

/// Whatever a script says, its text keeps the limits, read by itself: after each of its printed lines, the quanta of the ADMIT lines
/// whose query has no line DONE or STOPPED yet add up to at most DS_MAX_QUERIES, and their scan threads to at most DS_MAX_SCANS.
pub fn texts_keep_limits()
    ensures law { TextsKeepLimits }
{}
