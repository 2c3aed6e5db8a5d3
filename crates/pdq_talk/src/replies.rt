//! The replies to what the calls of the office answer.
ghost use Rattle.std.specs.Prelude.{◌≡◌, IfOk};
ghost use Rattle.pdq_talk.specs.Replies.{cancelled_reply, changed_reply, opened_reply, pooled_reply};
ghost use Rattle.pdq_stat.specs.StatusText.{status_text};

use crate::replied::Replied;
use pdq_base::Memory;
use pdq_model::Setting;
use pdq_office::{Cancelled, Changed, Opened, Refused, Status};
use pdq_stat::onstat_text;
use std::alloc::Global;

/// The reply to a session that was opened, as an administrator or not, or refused.
pub(crate) fn opened_reply(admin: bool, outcome: Result<Opened, Refused>) -> Replied
    ensures value { result ≡ opened_reply admin outcome }
{
    match outcome {
        Ok(opened) => Replied::Opened(opened.session, opened.step, admin),
        Err(refused) => Replied::Refused(refused.why, refused.step),
    }
}

/// The reply to a cancellation of this query.
pub(crate) fn cancelled_reply(id: u32, outcome: Result<Cancelled, Refused>) -> Replied
    ensures value { result ≡ cancelled_reply id outcome }
{
    match outcome {
        Ok(cancelled) => Replied::Cancelled(!cancelled.active, id, cancelled.step),
        Err(refused) => Replied::Refused(refused.why, refused.step),
    }
}

/// The reply to a change of this setting.
pub(crate) fn changed_reply(setting: Setting, outcome: Result<Changed, Refused>) -> Replied
    ensures value { result ≡ changed_reply setting outcome }
{
    match outcome {
        Ok(changed) => Replied::Changed(setting, changed.pending, changed.step),
        Err(refused) => Replied::ChangeRefused(refused.why, refused.step, refused.step),
    }
}

/// The reply to a change with a pool, which was made by the status of the step `look`.
pub(crate) fn pooled_reply(
    setting: Setting,
    look: u64,
    outcome: Result<Changed, Refused>,
) -> Replied
    ensures value { result ≡ pooled_reply setting look outcome }
{
    match outcome {
        Ok(changed) => Replied::Changed(setting, changed.pending, changed.step),
        Err(refused) => Replied::ChangeRefused(refused.why, look, refused.step),
    }
}

/// The text of a status.
pub(crate) fn status_bytes(alloc: Global, status: &Status) -> Result<Vec<u8>, Memory>
    ensures text { IfOk result (λ v. v.items ≡ status_text status.now) }
{
    let mut text = Vec::new(alloc);
    match onstat_text(status, &mut text) {
        Ok(()) => Ok(text),
        Err(_) => Err(Memory),
    }
}
