//! What is wrong with a schema file.
ghost use Rattle.std.specs.Prelude.{◌≡◌};

use pdq_base::Memory;

/// Why a schema file is refused.
#[derive(Clone, Copy, Debug, PartialEq, Eq)]
pub enum SchemaWhy {
    /// The bytes are no TOML document.
    NotToml,
    /// A key stands where it has no meaning.
    UnknownKey,
    /// A key is not there, or its value is of another type or empty.
    MissingKey,
    /// The file has more bytes, tables or columns than it may.
    TooMany,
    /// A name is none of the query language.
    BadName,
    /// An earlier table or column has the same name.
    TwoNames,
    /// The kind is neither `number` nor `text`, the scale is not 0 to 6, or a text has one.
    BadKind,
    /// The way of cutting into fragments is none.
    BadFragment,
}

/// What is wrong, and where: the table and the column count from 1, 0 where there is none. `Memory` is want of memory.
#[derive(Clone, Copy, Debug, PartialEq, Eq)]
pub enum SchemaFault {
    Wrong {
        why: SchemaWhy,
        table: u32,
        column: u32,
    },
    Memory,
}

impl From<Memory> for SchemaFault {
    ghost use Rattle.pdq_schema.specs.declared.faults.SchemaFault.TheVariants.{Memory};

    ghost from_gives = { λ _ e. e ≡ Memory };

    fn from(_memory: Memory) -> SchemaFault {
        SchemaFault::Memory
    }
}

/// A fault in this table and column.
pub(crate) fn fault(why: SchemaWhy, table: u32, column: u32) -> SchemaFault
    ensures value { result ≡ SchemaFault.Wrong why table column }
{
    SchemaFault::Wrong { why, table, column }
}
