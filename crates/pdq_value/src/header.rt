//! The first line of a plain table.
ghost use Rattle.std.specs.Prelude.{◌≡◌, ◌∷◌, ◌<◌, length, IfOk, IfSome, map, option_map, position};
ghost use Rattle.std.specs.List.{list_any, slice_split};
ghost use Rattle.std.specs.Str.{bytes_eq};
ghost use Rattle.pdq_base.specs.Lines.{is_blank};
ghost use Rattle.pdq_value.specs.Header.{column_of, columns_of, header_shape, is_colon, is_number_kind, kind_of, names_differ, parts_of, shape_with};
ghost use Rattle.pdq_value.specs.Tables.{IsShape, shape_of};
ghost use Rattle.pdq_value.specs.declared.shapes.Column.{Column};

use crate::names::is_name;
use crate::shapes::{Column, Kind, TableShape};
use crate::texts::Name;
use pdq_base::{Memory, is_blank, is_text};
use std::alloc::Global;

fn blank_at(bytes: &[u8]) -> Option<usize>
    ensures value { result ≡ position is_blank bytes.now }
{
    bytes.iter().position(|b| is_blank(*b))
}

/// The bytes before the first blank, and those after it.
#[tactic(auto, using(crate::proofs::Cuts::cut_there, crate::proofs::Cuts::cut_nowhere))]
fn cut_at_blank(bytes: &[u8]) -> (&[u8], Option<&[u8]>)
    ensures cut { slice_split is_blank bytes.now ≡ result.0.now ∷ parts_of (option_map (λ r. r.now) result.1) }
{
    match blank_at(bytes) {
        Some(end) => (&bytes[..end], Some(&bytes[end + 1..])),
        None => (bytes, None),
    }
}

fn colon_at(bytes: &[u8]) -> Option<usize>
    ensures value { result ≡ position is_colon bytes.now }
    ensures within { IfSome result (λ end. end < length bytes.now) }
{
    bytes.iter().position(|b| *b == b':')
}

fn is_number_kind(bytes: &[u8]) -> bool
    ensures value { result ≡ is_number_kind bytes.now }
{
    bytes.len() == 8 && is_text(&bytes[..7], b"number:") && bytes[7] >= b'0' && bytes[7] <= b'6'
}

/// The kind that stands behind a column's name.
#[tactic(auto, unfolding(crate::specs::Header::kind_of))]
fn read_kind(bytes: &[u8]) -> Option<Kind>
    ensures value { result ≡ kind_of bytes.now }
{
    if is_text(bytes, b"text") {
        return Some(Kind::Words);
    }
    if is_number_kind(bytes) {
        let scale = u32::from(bytes[7] - b'0');
        return Some(Kind::Number { scale });
    }
    None
}

/// A column: its name, a colon, and its kind.
#[tactic(auto, unfolding(crate::specs::Header::column_of))]
fn read_column(alloc: Global, part: &[u8]) -> Result<Option<Column>, Memory>
    ensures value { IfOk result (λ column. column ≡ column_of part.now) }
{
    let Some(end) = colon_at(part) else {
        return Ok(None);
    };
    let name = &part[..end];
    if !is_name(name) {
        return Ok(None);
    }
    let Some(kind) = read_kind(&part[end + 1..]) else {
        return Ok(None);
    };
    let name = Name::from_bytes(alloc, name)?;
    Ok(Some(Column { name, kind }))
}

/// Whether one of the columns has this name.
fn has_name(columns: &[Column], name: &[u8]) -> bool
    ensures value { result ≡ list_any (λ (d : Column). bytes_eq d.name name.now) columns.now }
{
    columns.iter().any(|c| is_text(c.name.bytes(), name))
}

/// Whether no column has the name of an earlier one.
fn names_differ(columns: &[Column]) -> bool
    ensures value { result ≡ names_differ columns.now }
{
    match columns {
        [] => true,
        [first, rest @ ..] => !has_name(rest, first.name.bytes()) && names_differ(rest),
    }
}

/// At most sixteen columns with one blank between. None where a part is no column, or where there are more.
fn read_columns(alloc: Global, text: &[u8]) -> Result<Option<Vec<Column>>, Memory>
    ensures value { IfOk result (λ columns. option_map (λ v. v.items) columns ≡ columns_of 16 (slice_split is_blank text.now)) }
{
    let mut columns = Vec::new(alloc);
    let mut unread = text;
    for _ in 0..16_usize {
        let (part, rest) = cut_at_blank(unread);
        let Some(column) = read_column(alloc, part)? else {
            return Ok(None);
        };
        let Ok(()) = columns.push(column) else {
            return Err(Memory);
        };
        match rest {
            None => return Ok(Some(columns)),
            Some(rest) => unread = rest,
        }
    }
    Ok(None)
}

/// The shape of a table of this name, whose columns stand in the text.
fn read_shape(alloc: Global, name: &[u8], text: &[u8]) -> Result<Option<TableShape>, Memory>
    ensures value { IfOk result (λ shape. option_map shape_of shape ≡ shape_with name.now (columns_of 16 (slice_split is_blank text.now))) }
    ensures shape { IfOk result (λ shape. IfSome shape (λ s. IsShape (shape_of s))) }
{
    let Some(columns) = read_columns(alloc, text)? else {
        return Ok(None);
    };
    if columns.is_empty() || !names_differ(&columns) {
        return Ok(None);
    }
    let name = Name::from_bytes(alloc, name)?;
    Ok(Some(TableShape { name, columns }))
}

/// The shape that the first line of a plain table says: `table`, its name, and one to sixteen columns whose names differ, with
/// one blank between. None where it is no such line.
///
/// # Errors
/// `Memory` where it is wanting.
#[tactic(auto, unfolding(crate::specs::Header::header_shape))]
pub(crate) fn read_header(alloc: Global, line: &[u8]) -> Result<Option<TableShape>, Memory>
    ensures value { IfOk result (λ shape. option_map shape_of shape ≡ header_shape line.now) }
    ensures shape { IfOk result (λ shape. IfSome shape (λ s. IsShape (shape_of s))) }
{
    let (word, Some(rest)) = cut_at_blank(line) else {
        return Ok(None);
    };
    let (name, Some(columns)) = cut_at_blank(rest) else {
        return Ok(None);
    };
    if is_text(word, b"table") && is_name(name) {
        read_shape(alloc, name, columns)
    } else {
        Ok(None)
    }
}
