//! The names that tables and columns can have.
ghost use Rattle.std.specs.Prelude.{◌≡◌};
ghost use Rattle.std.specs.List.{list_all};
ghost use Rattle.pdq_value.specs.Names.{begins_lower, is_lower, is_name, is_name_byte, is_reserved};

use pdq_base::is_text;

fn is_lower(b: u8) -> bool
    ensures value { result ≡ is_lower b }
{
    b >= b'a' && b <= b'z'
}

fn is_name_byte(b: u8) -> bool
    ensures value { result ≡ is_name_byte b }
{
    is_lower(b) || (b >= b'0' && b <= b'9') || b == b'_'
}

fn begins_lower(bytes: &[u8]) -> bool
    ensures value { result ≡ begins_lower bytes.now }
{
    match bytes {
        [] => false,
        [first, ..] => is_lower(*first),
    }
}

fn all_name_bytes(bytes: &[u8]) -> bool
    ensures value { result ≡ list_all is_name_byte bytes.now }
{
    bytes.iter().all(|b| is_name_byte(*b))
}

/// Whether the word is one of the language's own.
fn is_reserved(word: &[u8]) -> bool
    ensures value { result ≡ is_reserved word.now }
{
    is_text(word, b"select")
        || is_text(word, b"from")
        || is_text(word, b"where")
        || is_text(word, b"and")
        || is_text(word, b"group")
        || is_text(word, b"order")
        || is_text(word, b"by")
        || is_text(word, b"asc")
        || is_text(word, b"desc")
        || is_text(word, b"sum")
        || is_text(word, b"avg")
        || is_text(word, b"min")
        || is_text(word, b"max")
        || is_text(word, b"count")
}

/// Whether the bytes are a name of a table or column: a letter, then letters, digits and `_`, in lower case, at most 32 bytes,
/// and no reserved word of the query language.
#[tactic(auto, unfolding(crate::specs::Names::is_name))]
pub fn is_name(bytes: &[u8]) -> bool
    ensures value { result ≡ is_name bytes.now }
{
    begins_lower(bytes) && all_name_bytes(bytes) && bytes.len() <= 32 && !is_reserved(bytes)
}
