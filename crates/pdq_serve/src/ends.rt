//! How a session ends, and the right that it has over the bell of its server.
ghost use Rattle.std.specs.Prelude.{◌≡◌};

use pdq_edge::ShutSeen;
use std::marker::PhantomData;

/// The right to shut the bell of a server. A session makes one, for an administrator's SHUTDOWN alone.
#[derive(Drop)]
pub struct ShutRight {
    made: (),
}

/// How a session ends.
#[derive(Drop)]
pub enum SessionEnd {
    Quit,
    EndOfInput,
    /// An administrator's SHUTDOWN, which shut the bell.
    Shutdown(ShutSeen<ShutRight>),
    /// 8,193 bytes came without a line end.
    LineTooLong,
    /// Byte 16,777,217 of the input came before the line ended.
    ByteLimit,
    /// The source failed; its count of faults rose.
    ReadFault,
    /// The sink failed; its count of faults rose.
    WriteFault,
    /// Want of memory.
    Memory,
}

/// The end of a session over a source and a sink of these types. `session` alone makes one.
#[derive(Drop)]
pub struct Ended<So, Si> {
    end: SessionEnd,
    of: PhantomData<(So, Si)>,
}

impl<So, Si> Ended<So, Si> {
    /// The end of a session, of which its source and its sink have the types.
    pub(crate) fn new(end: SessionEnd) -> Self
        ensures end { result.end ≡ end }
    {
        Ended {
            end,
            of: PhantomData,
        }
    }

    /// How the session ended.
    pub fn end(&self) -> &SessionEnd
        ensures end { result.now ≡ self.now.end }
    {
        &self.end
    }
}

/// The right of an administrator's SHUTDOWN.
pub(crate) fn shut_right() -> ShutRight {
    ShutRight { made: () }
}
