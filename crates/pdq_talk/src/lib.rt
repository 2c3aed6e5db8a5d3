//! What a session of the server says: what a line asks for, what is replied to it, when a reply is the right one over the one history of the manager
//! that sessions share, and the answers to the lines that need no query.
#![tactic(auto)]

mod answers;
mod commands;
mod laws;
mod plain;
mod pools;
mod replied;
mod replies;
mod telling;

pub use answers::answer_plain;
pub use commands::Plain;
pub use laws::{entries_go_on, replies_stay, steps_rise, texts_go_on, transcripts_go_on};
pub use replied::{Came, Evaluated, Party, Ran, Replied, Standing};
pub use telling::{
    Break, cancelled_bytes, closed_bytes, evaluated_bytes, granted_bytes, last_bytes, placed_bytes,
    put, refused_bytes, tell, tell_reply,
};
