//! Bytes, as lines and words are made of them.
ghost use Rattle.std.specs.Prelude.{◌≡◌, ◌≤◌, length};
ghost use Rattle.std.specs.Str.{bytes_eq, is_utf8};
ghost use Rattle.pdq_base.specs.Lines.{is_blank, without_return};

/// Whether a byte is a blank: 32, or 9 as of a tab.
pub fn is_blank(byte: u8) -> bool
    ensures value { result ≡ is_blank byte }
{
    byte == b' ' || byte == b'\t'
}

/// Whether the bytes are these.
pub fn is_text(bytes: &[u8], text: &[u8]) -> bool
    ensures value { result ≡ bytes_eq bytes.now text.now }
{
    bytes == text
}

/// Whether the bytes are UTF-8.
pub fn is_utf8(bytes: &[u8]) -> bool
    ensures value { result ≡ is_utf8 bytes.now }
{
    match std::str::from_utf8(bytes) {
        Ok(_) => true,
        Err(_) => false,
    }
}

/// What a line says: its bytes without one byte 13 at their end.
#[tactic(auto, unfolding(crate::specs::Lines::without_return))]
pub fn without_return(line: &[u8]) -> &[u8]
    ensures value { result.now ≡ without_return line.now }
    ensures shorter { length result.now ≤ length line.now }
{
    let len = line.len();
    if len > 0 && line[len - 1] == b'\r' {
        &line[..len - 1]
    } else {
        line
    }
}
