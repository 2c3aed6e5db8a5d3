//! Values, rows and tables; the texts of numbers, rows and plain tables.
#![tactic(auto)]

mod appending;
mod averages;
mod cells;
mod cells_of_values;
mod comparing;
mod header;
mod key_prefixes;
mod loading;
mod names;
mod number_texts;
mod numbers;
mod plain;
mod row_lines;
mod row_texts;
mod shapes;
#[cfg(test)]
mod tests;
mod texts;

pub use appending::append;
pub use averages::average;
pub use cells::Cell;
pub use cells_of_values::cell_of;
pub use comparing::{compare_cells, compare_rows};
pub use key_prefixes::{lesser_prefixes_are_lesser_texts, text_prefix};
pub use loading::{LoadFault, LoadWhy};
pub use names::is_name;
pub use number_texts::{number_texts_read_back, print_number};
pub use numbers::{NumberFault, read_number};
pub use plain::read_plain;
pub use row_lines::{first_cell_end, is_nothing, text_of_cell};
pub use row_texts::{print_row, row_texts_read_back};
pub use shapes::{Column, Db, Kind, Row, Table, TableShape, Value};
pub use texts::{Name, Text};

#[cfg(test)]
mod plain_tests;
