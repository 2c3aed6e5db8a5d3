//! Where queries and sessions stand in their lists.
ghost use Rattle.std.specs.Prelude.{◌≡◌, ◌<◌, ◌==◌, ◌&&◌, length, position, IfSome};

use pdq_model::{Active, Session, Withdrawn};

/// Where the first active query of this number stands.
pub(crate) fn first_active(active: &[Active], id: u32) -> Option<usize>
    ensures place { result ≡ position (λ a. a.id == id) active.now }
    ensures within { IfSome result (λ place. place < length active.now) }
{
    active.iter().position(|a| a.id == id)
}

/// Where the query of this number and session is active.
pub(crate) fn active_place(active: &[Active], session: u32, id: u32) -> Option<usize>
    ensures place { result ≡ position (λ a. a.id == id && a.session == session) active.now }
    ensures within { IfSome result (λ place. place < length active.now) }
{
    active
        .iter()
        .position(|a| a.id == id && a.session == session)
}

/// Where the query of this number and session was withdrawn.
pub(crate) fn withdrawn_place(withdrawn: &[Withdrawn], session: u32, id: u32) -> Option<usize>
    ensures place { result ≡ position (λ w. w.id == id && w.session == session) withdrawn.now }
    ensures within { IfSome result (λ place. place < length withdrawn.now) }
{
    withdrawn
        .iter()
        .position(|w| w.id == id && w.session == session)
}

/// Where the first withdrawn query of this number stands.
pub(crate) fn first_withdrawn(withdrawn: &[Withdrawn], id: u32) -> Option<usize>
    ensures place { result ≡ position (λ w. w.id == id) withdrawn.now }
    ensures within { IfSome result (λ place. place < length withdrawn.now) }
{
    withdrawn.iter().position(|w| w.id == id)
}

/// Where the session of this number stands.
pub(crate) fn session_place(sessions: &[Session], number: u32) -> Option<usize>
    ensures place { result ≡ position (λ x. x.number == number) sessions.now }
    ensures within { IfSome result (λ place. place < length sessions.now) }
{
    sessions.iter().position(|x| x.number == number)
}
