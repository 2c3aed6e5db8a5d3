//! The keys that stand in a schema file.
ghost use Rattle.std.specs.Prelude.{◌≡◌, String, string_bytes};
ghost use Rattle.std.specs.BTreeMap.{keys};
ghost use Rattle.std.specs.List.{list_all};
ghost use Rattle.std.specs.declared.alloc.Global.{Global};
ghost use Rattle.toml.specs.View.{table_view};
ghost use Rattle.pdq_schema.specs.SchemaFile.{is_key_of};
ghost use Rattle.pdq_schema.specs.SchemaTree.{only_keys};

use pdq_base::is_text;
use toml::Table;

/// What has keys: the file, a table, a column, a range.
#[derive(Clone, Copy, Debug, PartialEq, Eq)]
pub(crate) enum Part {
    File,
    Table,
    Column,
    Range,
}

fn is_column_key(key: &[u8]) -> bool
    ensures value { result ≡ is_key_of Part.Column key.now }
{
    is_text(key, b"name") || is_text(key, b"kind") || is_text(key, b"scale")
}

fn is_table_key(key: &[u8]) -> bool
    ensures value { result ≡ is_key_of Part.Table key.now }
{
    is_text(key, b"name")
        || is_text(key, b"file")
        || is_text(key, b"column")
        || is_text(key, b"round_robin")
        || is_text(key, b"by")
        || is_text(key, b"range")
}

/// Whether it may have this key.
fn may_have(part: Part, key: &[u8]) -> bool
    ensures value { result ≡ is_key_of part key.now }
{
    match part {
        Part::File => is_text(key, b"table"),
        Part::Table => is_table_key(key),
        Part::Column => is_column_key(key),
        Part::Range => is_text(key, b"from") || is_text(key, b"below"),
    }
}

fn may_have_all(part: Part, table: &Table) -> bool
    ensures value { result ≡ list_all (λ (k : String Global). is_key_of part (string_bytes k)) (keys table.now) }
{
    table.keys().all(|key| may_have(part, key.as_bytes()))
}

/// Whether it has no other keys than it may.
pub(crate) fn has_only_keys(part: Part, table: &Table) -> bool
    ensures value { result ≡ only_keys (is_key_of part) (table_view table.now) }
{
    may_have_all(part, table)
}
