//! Copies of the parts of a schema.
ghost use Rattle.std.specs.Prelude.{◌≡◌, IfOk, map, string_bytes};
ghost use Rattle.pdq_value.specs.Tables.{shape_of};
ghost use Rattle.pdq_schema.specs.Schemas.{cut_of};

use crate::cuts::{Cut, Range};
use pdq_base::Memory;
use pdq_value::{Column, TableShape, Value};
use std::alloc::Global;

fn copy_column(alloc: Global, column: &Column) -> Result<Column, Memory>
    ensures value { IfOk result (λ c. c ≡ column.now) }
{
    Ok(Column {
        name: column.name.copy(alloc)?,
        kind: column.kind,
    })
}

fn copy_columns(alloc: Global, columns: &[Column]) -> Result<Vec<Column>, Memory>
    ensures value { IfOk result (λ v. v.items ≡ columns.now) }
{
    let mut copies = Vec::new(alloc);
    for column in columns {
        let copy = copy_column(alloc, column)?;
        let Ok(()) = copies.push(copy) else {
            return Err(Memory);
        };
    }
    Ok(copies)
}

/// The same shape once more.
///
/// # Errors
/// `Memory` where it is wanting.
pub fn copy_shape(alloc: Global, shape: &TableShape) -> Result<TableShape, Memory>
    ensures value { IfOk result (λ s. shape_of s ≡ shape_of shape.now) }
{
    Ok(TableShape {
        name: shape.name.copy(alloc)?,
        columns: copy_columns(alloc, &shape.columns)?,
    })
}

/// The same shapes once more.
pub(crate) fn copy_shapes(alloc: Global, shapes: &[TableShape]) -> Result<Vec<TableShape>, Memory>
    ensures value { IfOk result (λ v. map shape_of v.items ≡ map shape_of shapes.now) }
{
    let mut copies = Vec::new(alloc);
    for shape in shapes {
        let copy = copy_shape(alloc, shape)?;
        let Ok(()) = copies.push(copy) else {
            return Err(Memory);
        };
    }
    Ok(copies)
}

fn copy_file(file: &String) -> Result<String, Memory>
    ensures value { IfOk result (λ f. string_bytes f ≡ string_bytes file.now) }
{
    match file.clone() {
        Ok(copy) => Ok(copy),
        Err(_) => Err(Memory),
    }
}

/// The same names of files once more.
pub(crate) fn copy_files(alloc: Global, files: &[String]) -> Result<Vec<String>, Memory>
    ensures value { IfOk result (λ v. map string_bytes v.items ≡ map string_bytes files.now) }
{
    let mut copies = Vec::new(alloc);
    for file in files {
        let copy = copy_file(file)?;
        let Ok(()) = copies.push(copy) else {
            return Err(Memory);
        };
    }
    Ok(copies)
}

fn copy_side(alloc: Global, side: &Option<Value>) -> Result<Option<Value>, Memory>
    ensures value { IfOk result (λ s. s ≡ side.now) }
{
    match side {
        Some(value) => Ok(Some(value.copy(alloc)?)),
        None => Ok(None),
    }
}

fn copy_range(alloc: Global, range: &Range) -> Result<Range, Memory>
    ensures value { IfOk result (λ r. r ≡ range.now) }
{
    Ok(Range {
        from: copy_side(alloc, &range.from)?,
        below: copy_side(alloc, &range.below)?,
    })
}

fn copy_ranges(alloc: Global, ranges: &[Range]) -> Result<Vec<Range>, Memory>
    ensures value { IfOk result (λ v. v.items ≡ ranges.now) }
{
    let mut copies = Vec::new(alloc);
    for range in ranges {
        let copy = copy_range(alloc, range)?;
        let Ok(()) = copies.push(copy) else {
            return Err(Memory);
        };
    }
    Ok(copies)
}

fn copy_cut(alloc: Global, cut: &Cut) -> Result<Cut, Memory>
    ensures value { IfOk result (λ c. cut_of c ≡ cut_of cut.now) }
{
    match cut {
        Cut::Rounds(count) => Ok(Cut::Rounds(*count)),
        Cut::Ranges { column, ranges } => Ok(Cut::Ranges {
            column: *column,
            ranges: copy_ranges(alloc, ranges)?,
        }),
    }
}

/// The same ways of cutting once more.
pub(crate) fn copy_cuts(alloc: Global, cuts: &[Cut]) -> Result<Vec<Cut>, Memory>
    ensures value { IfOk result (λ v. map cut_of v.items ≡ map cut_of cuts.now) }
{
    let mut copies = Vec::new(alloc);
    for cut in cuts {
        let copy = copy_cut(alloc, cut)?;
        let Ok(()) = copies.push(copy) else {
            return Err(Memory);
        };
    }
    Ok(copies)
}
