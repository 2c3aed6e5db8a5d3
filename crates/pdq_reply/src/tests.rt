//! The lines of a source that gives one byte a read.

use crate::{LineOutcome, LineReader};
use pdq_edge::MemSource;
use std::test::Fail;

#[test]
fn lines_come_byte_by_byte(rt: HostRuntime) -> Result<(), Fail> {
    let bytes = Vec::from_slice(rt.alloc(), b"one\r\n\ntwo\r\r\nlast\r")?;
    let mut source = MemSource::with_most(bytes, vec![in rt.alloc(); 6]?, 1);
    let Ok(mut reader) = LineReader::new(rt.alloc()) else {
        return Err(Fail::from("memory"));
    };
    for (outcome, line) in [
        (LineOutcome::Line, "one"),
        (LineOutcome::Line, ""),
        (LineOutcome::Failed, ""),
        (LineOutcome::Line, "two\r"),
        (LineOutcome::Line, "last"),
        (LineOutcome::End, ""),
    ] {
        assert_eq!(rt; reader.next_line(&mut source), outcome, "at {line}");
        if outcome == LineOutcome::Line {
            assert_eq!(rt; reader.line(), line.as_bytes());
        }
    }
    assert!(rt; reader.is_last());
    Ok(())
}
