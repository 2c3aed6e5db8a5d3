//! What is wrong with the text of a table.

/// Why the text of a table is refused.
#[derive(Clone, Copy, Debug, PartialEq, Eq)]
pub enum LoadWhy {
    /// The text is longer than it may be.
    TooLong,
    /// Row 2,000,001 is there.
    TooManyRows,
    /// All tables together would have more than 32,000,000 cells.
    TooManyCells,
    /// A field is not UTF-8.
    NotUtf8,
    /// A row has another number of fields than there are columns.
    WrongFields,
    /// The first line is no header, or not that of the table.
    WrongHeader,
    /// A field of a number column is no number of its scale, or too large.
    BadNumber,
    /// A backslash stands before a byte that it cannot stand before.
    BadText,
}

/// What is wrong, and where: the table and the column count from 1, 0 where there is none; the header is row 0. `Memory` is want
/// of memory.
#[derive(Clone, Copy, Debug, PartialEq, Eq)]
pub enum LoadFault {
    Wrong {
        why: LoadWhy,
        table: u32,
        row_no: u32,
        column: u32,
    },
    Memory,
}
