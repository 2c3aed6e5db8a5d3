//! A table in fragments.
ghost use Rattle.std.specs.Prelude.{◌≡◌, ◌<◌, ◌≤◌, ◌∷◌, ◌++◌, [], ℕ, List, All, IfOk, OnOk, fold, length, map, replicate};
ghost use Rattle.pdq_dict.specs.Dictionary.{texts_of_row};
ghost use Rattle.pdq_dict.specs.Texts.{noted};
ghost use Rattle.pdq_schema.specs.Fragments.{CutsRow, fragment_count};
ghost use Rattle.pdq_schema.specs.Schemas.{cut_of};
ghost use Rattle.pdq_value.specs.declared.shapes.Value.{Value as TableValue};
ghost use Rattle.pdq_value.specs.PlainTable.{most_rows};
ghost use Rattle.pdq_value.specs.Tables.{IsRowOf, table_of};
ghost use Rattle.pdq_table.specs.Layout.{HoldsRows, HoldsWords, IsNotedTable, IsOpenTable, IsPushed, IsRecoded, row_words_at, table_stored, words_at};
ghost use Rattle.pdq_table.specs.NotedWords.{recoded};
ghost use Rattle.pdq_table.specs.Words.{no_rows, with_words};
ghost use Rattle.pdq_table.specs.declared.stored_table.Spot.{Spot as SpotValue};
ghost use Rattle.pdq_dict.specs.Coding.{decoded_row};

use crate::fragment::Fragment;
use crate::noted_words::note_row;
use crate::rows::decode_row;
use pdq_base::Memory;
use pdq_dict::{Dict, Notes};
use pdq_schema::{Cut, copy_shape};
use pdq_value::{Column, Row, Table, TableShape, Value};
use std::alloc::Global;

/// Where a row stands: its fragment, and its place there. Both count from 0.
#[derive(Clone, Copy, Debug)]
pub(crate) struct Spot {
    pub fragment: u32,
    pub place: u32,
}

/// A table in fragments, and for each row of the file where it stands.
#[derive(Debug, Drop)]
pub(crate) struct StoredTable {
    pub shape: TableShape,
    pub fragments: Vec<Fragment>,
    pub spots: Vec<Spot>,
}

/// So many fragments with no rows, of rows with so many words.
fn empty_fragments(alloc: Global, count: u32, width: u32) -> Result<Vec<Fragment>, Memory>
    ensures value { IfOk result (λ v. v.items ≡ replicate count (no_rows width)) }
{
    let mut fragments = Vec::new(alloc);
    for _ in 0..count {
        let Ok(()) = fragments.push(Fragment::new(alloc, width)) else {
            return Err(Memory);
        };
    }
    Ok(fragments)
}

/// Puts the codes of texts in place of the numbers of their notes.
fn recode_fragments(codes: &[u32], fragments: &mut [Fragment])
    ensures value { fragments.new ≡ map (with_words (recoded codes.now)) fragments.old }
{
    for fragment in fragments.iter_mut() {
        fragment.recode(codes);
    }
}

/// The words of the row at a spot.
fn row_at(fragments: &[Fragment], spot: Spot) -> &[i64]
    requires spot { HoldsWords fragments.now spot }
    ensures value { result.now ≡ row_words_at fragments.now spot }
{
    let fragment = &fragments[spot.fragment as usize];
    fragment.row(spot.place)
}

/// The rows at these spots, decoded.
fn decode_rows(
    alloc: Global,
    dict: &Dict,
    columns: &[Column],
    fragments: &[Fragment],
    spots: &[Spot],
) -> Result<Vec<Row>, Memory>
    requires spots { All (HoldsWords fragments.now) spots.now }
    ensures value { IfOk result (λ v. v.items ≡ map (λ (s : SpotValue). decoded_row dict.now columns.now (row_words_at fragments.now s)) spots.now) }
{
    let Ok(mut rows) = Vec::with_capacity(alloc, spots.len()) else {
        return Err(Memory);
    };
    for spot in spots {
        let row = decode_row(alloc, dict, columns, row_at(fragments, *spot))?;
        let Ok(()) = rows.push(row) else {
            return Err(Memory);
        };
    }
    Ok(rows)
}

impl StoredTable {
    /// A table of this shape with no rows, in so many fragments as the cut has.
    pub fn new(alloc: Global, shape: TableShape, cut: &Cut) -> Result<StoredTable, Memory>
        requires fragments { fragment_count (cut_of cut.now) ≤ 16 }
        requires few { length shape.columns.items ≤ 16 }
        ensures shape { IfOk result (λ t. t.shape ≡ shape) }
        ensures table { IfOk result (λ t. (notes : List (List ℕ)) → IsNotedTable notes (cut_of cut.now) t []) }
    {
        let width = shape.columns.len() as u32;
        Ok(StoredTable {
            shape,
            fragments: empty_fragments(alloc, cut.fragment_count(), width)?,
            spots: Vec::new(alloc),
        })
    }

    /// Puts a row behind the others of a fragment.
    pub fn push(&mut self, number: u32, words: &[i64]) -> Result<(), Memory>
        requires fragment { number < length self.old.fragments.items }
        requires few { length (words_at self.old.fragments.items number).rows < most_rows }
        requires width { (words_at self.old.fragments.items number).width ≡ length words.now }
        ensures pushed { OnOk result (IsPushed self.old number words.now self.new) }
        ensures shape { self.new.shape ≡ self.old.shape }
    {
        let fragment = &mut self.fragments[number as usize];
        let place = fragment.len();
        fragment.push(words)?;
        let spot = Spot {
            fragment: number,
            place,
        };
        let Ok(()) = self.spots.push(spot) else {
            return Err(Memory);
        };
        Ok(())
    }

    /// Takes in the next row of the file, and notes its texts. What stood in `words` is overwritten.
    pub fn take(
        &mut self,
        alloc: Global,
        cut: &Cut,
        notes: &mut Notes,
        row: &[Value],
        words: &mut Vec<i64>,
    ) -> Result<(), Memory>
        requires row { CutsRow (cut_of cut.now) row.now }
        requires kinds { IsRowOf self.old.shape.columns.items row.now }
        requires few { length self.old.spots.items < most_rows }
        requires table { IsOpenTable notes.old (cut_of cut.now) self.old }
        ensures shape { self.new.shape ≡ self.old.shape }
        ensures noted { OnOk result (notes.new ≡ fold noted notes.old (texts_of_row row.now)) }
        ensures table { OnOk result ((rows : List (List TableValue)) → IsNotedTable notes.old (cut_of cut.now) self.old rows →
            IsNotedTable notes.new (cut_of cut.now) self.new (rows ++ row.now ∷ [])) }
    {
        note_row(alloc, notes, row, words)?;
        let number = cut.fragment_number(self.spots.len() as u32, row);
        self.push(number, words)
    }

    /// Puts the codes of texts in place of the numbers of their notes.
    pub fn recode(&mut self, codes: &[u32])
        ensures recoded { IsRecoded codes.now self.old self.new }
    {
        recode_fragments(codes, &mut self.fragments);
    }

    /// The table with its values, its rows in the order of the file.
    pub fn to_table(&self, alloc: Global, dict: &Dict) -> Result<Table, Memory>
        requires spots { HoldsRows self.now }
        ensures value { IfOk result (λ t. table_of t ≡ table_stored dict.now self.now) }
    {
        Ok(Table {
            shape: copy_shape(alloc, &self.shape)?,
            rows: decode_rows(
                alloc,
                dict,
                &self.shape.columns,
                &self.fragments,
                &self.spots,
            )?,
        })
    }
}
