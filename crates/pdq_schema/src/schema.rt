//! A schema as its callers see it.
ghost use Rattle.std.specs.Prelude.{◌≡◌, ◌<◌, ◌≤◌, IfOk, Some, length, map, slice_get};
ghost use Rattle.pdq_value.specs.Tables.{shape_of};
ghost use Rattle.pdq_schema.specs.Fragments.{fragment_count};
ghost use Rattle.pdq_schema.specs.Schemas.{IsSchema, cut_of, schema_with};

use crate::copying::{copy_cuts, copy_files, copy_shapes};
use crate::cuts::Cut;
use pdq_base::Memory;
use pdq_value::TableShape;
use std::alloc::Global;
use std::marker::Model;

/// One to sixteen tables: their shapes, the names of their files, and how their rows are cut into fragments.
#[derive(Debug, Drop)]
pub struct Schema {
    shapes: Vec<TableShape>,
    files: Vec<String>,
    cuts: Vec<Cut>,
}

impl Model for Schema {
    ghost use Rattle.pdq_schema.specs.Schemas.{SchemaView, IsSchema, schema_with};

    ghost Value = { SchemaView };

    ghost view = { λ s. schema_with s.shapes.items s.files.items s.cuts.items };

    ghost invariant = { λ s. IsSchema (schema_with s.shapes.items s.files.items s.cuts.items) };
}

impl Schema {
    /// A schema of these tables. A table with neither way of cutting has `Rounds(1)`.
    pub fn of(shapes: Vec<TableShape>, files: Vec<String>, cuts: Vec<Cut>) -> Result<Schema, Memory>
        requires schema { IsSchema (schema_with shapes.items files.items cuts.items) }
        ensures value { IfOk result (λ s. s ≡ schema_with shapes.items files.items cuts.items) }
        ensures schema { IfOk result IsSchema }
    {
        Ok(Schema {
            shapes,
            files,
            cuts,
        })
    }

    /// The same schema once more.
    ///
    /// # Errors
    /// `Memory` where it is wanting.
    pub fn copy(&self, alloc: Global) -> Result<Schema, Memory>
        ensures value { IfOk result (λ s. s ≡ self.now) }
    {
        Ok(Schema {
            shapes: copy_shapes(alloc, &self.shapes)?,
            files: copy_files(alloc, &self.files)?,
            cuts: copy_cuts(alloc, &self.cuts)?,
        })
    }

    /// The shapes of its tables.
    pub fn shapes(&self) -> &[TableShape]
        ensures value { map shape_of result.now ≡ self.now.shapes }
        ensures schema { IsSchema self.now }
    {
        &self.shapes
    }

    /// The name of a table's file.
    pub fn file(&self, table: u32) -> &str
        requires table { table < length self.now.shapes }
        ensures value { slice_get self.now.files table ≡ Some result.now }
    {
        &self.files[table as usize]
    }

    /// How many fragments a table has.
    pub fn fragments(&self, table: u32) -> u32
        requires table { table < length self.now.shapes }
        ensures value { slice_get (map fragment_count self.now.cuts) table ≡ Some result }
    {
        self.cut(table).fragment_count()
    }

    /// How the rows of a table are cut.
    pub fn cut(&self, table: u32) -> &Cut
        requires table { table < length self.now.shapes }
        ensures value { slice_get self.now.cuts table ≡ Some (cut_of result.now) }
        ensures fragments { fragment_count (cut_of result.now) ≤ 16 }
    {
        &self.cuts[table as usize]
    }
}
