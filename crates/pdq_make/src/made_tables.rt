//! The tables of `make`: sales and shops that are computed from their numbers.
ghost use Rattle.std.specs.Prelude.{◌≡◌, ◌≤◌, ◌<◌, All, IfOk};
ghost use Rattle.pdq_value.specs.Tables.{IsRowOf, shape_of, tables_of};
ghost use Rattle.pdq_make.specs.MadeTables.{first_rows, made_schema, made_stored, made_tables, sale_row, sales_shape, shop_row, shops_shape};

use pdq_base::Memory;
use pdq_schema::{Cut, Schema};
use pdq_table::Stored;
use pdq_value::{Column, Db, Kind, Name, Row, Table, TableShape, Text, Value};
use std::alloc::{AllocError, Global};

/// How many shops there are.
const SHOPS: u32 = 100;

fn column(alloc: Global, name: &str, kind: Kind) -> Result<Column, Memory>
    ensures value { IfOk result (λ c. c ≡ record { name = name.now; kind = kind }) }
{
    Ok(Column {
        name: Name::from_bytes(alloc, name.as_bytes())?,
        kind,
    })
}

/// The shape of the sales: the number of each, its shop and its amount.
fn sales_shape(alloc: Global) -> Result<TableShape, Memory>
    ensures value { IfOk result (λ s. shape_of s ≡ sales_shape) }
{
    let name = Name::from_bytes(alloc, b"sales")?;
    let sale = column(alloc, "sale", Kind::Number { scale: 0 })?;
    let shop = column(alloc, "shop", Kind::Number { scale: 0 })?;
    let amount = column(alloc, "amount", Kind::Number { scale: 2 })?;
    let columns = vec![in alloc; sale, shop, amount].map_err(|_| Memory)?;
    Ok(TableShape { name, columns })
}

/// The shape of the shops: the number of each and its city.
fn shops_shape(alloc: Global) -> Result<TableShape, Memory>
    ensures value { IfOk result (λ s. shape_of s ≡ shops_shape) }
{
    let name = Name::from_bytes(alloc, b"shops")?;
    let shop = column(alloc, "shop", Kind::Number { scale: 0 })?;
    let city = column(alloc, "city", Kind::Words)?;
    let columns = vec![in alloc; shop, city].map_err(|_| Memory)?;
    Ok(TableShape { name, columns })
}

/// The sale of this number.
fn sale(alloc: Global, number: u32) -> Result<Row, AllocError>
    requires few { number < 1000000 }
    ensures value { IfOk result (λ r. r ≡ sale_row number) }
    ensures kinds { IfOk result (IsRowOf sales_shape.columns) }
{
    let shop = 37 * number % 100;
    let amount = 101 * number % 1000;
    let values = vec![in alloc;
        Value::Number(i64::from(number)),
        Value::Number(i64::from(shop)),
        Value::Number(i64::from(amount)),
    ]?;
    Ok(Row::new(values))
}

/// So many sales.
fn sales(alloc: Global, count: u32) -> Result<Vec<Row>, AllocError>
    requires few { count ≤ 1000000 }
    ensures value { IfOk result (λ rows. rows.items ≡ first_rows sale_row count) }
    ensures kinds { IfOk result (λ rows. All (IsRowOf sales_shape.columns) rows.items) }
{
    let mut rows = Vec::with_capacity(alloc, count as usize)?;
    for number in 0..count {
        let row = sale(alloc, number)?;
        rows.push(row)?;
    }
    Ok(rows)
}

/// The shop of this number.
fn shop(alloc: Global, number: u32) -> Result<Row, Memory>
    requires few { number < 1000000 }
    ensures value { IfOk result (λ r. r ≡ shop_row number) }
    ensures kinds { IfOk result (IsRowOf shops_shape.columns) }
{
    let city = number % 10;
    let Ok(city) = format!(in alloc; "c{city}") else {
        return Err(Memory);
    };
    let city = Text::from_str(alloc, city.as_str())?;
    let number = Value::Number(i64::from(number));
    let values = vec![in alloc; number, Value::Words(city)].map_err(|_| Memory)?;
    Ok(Row::new(values))
}

/// The shops.
fn shops(alloc: Global) -> Result<Vec<Row>, Memory>
    ensures value { IfOk result (λ rows. rows.items ≡ first_rows shop_row 100) }
    ensures kinds { IfOk result (λ rows. All (IsRowOf shops_shape.columns) rows.items) }
{
    let mut rows = Vec::new(alloc);
    for number in 0..SHOPS {
        let row = shop(alloc, number)?;
        rows.push(row).map_err(|_| Memory)?;
    }
    Ok(rows)
}

/// So many sales, and the shops.
fn made_db(alloc: Global, count: u32) -> Result<Db, Memory>
    requires few { count ≤ 1000000 }
    ensures value { IfOk result (λ db. tables_of db ≡ made_tables count) }
    ensures sales { IfOk result (λ db. All (IsRowOf sales_shape.columns) (first_rows sale_row count)) }
    ensures shops { IfOk result (λ db. All (IsRowOf shops_shape.columns) (first_rows shop_row 100)) }
{
    let sales = Table {
        shape: sales_shape(alloc)?,
        rows: sales(alloc, count).map_err(|_| Memory)?,
    };
    let shops = Table {
        shape: shops_shape(alloc)?,
        rows: shops(alloc)?,
    };
    let tables = vec![in alloc; sales, shops].map_err(|_| Memory)?;
    Ok(Db { tables })
}

/// The schema of the two tables: the sales in four fragments in turn, the shops in one, and no file.
fn made_schema(alloc: Global) -> Result<Schema, Memory>
    ensures value { IfOk result (λ s. s ≡ made_schema) }
{
    let sales = sales_shape(alloc)?;
    let shops = shops_shape(alloc)?;
    let shapes = vec![in alloc; sales, shops].map_err(|_| Memory)?;
    let sales_file = String::new(alloc);
    let shops_file = String::new(alloc);
    let files = vec![in alloc; sales_file, shops_file].map_err(|_| Memory)?;
    let cuts = vec![in alloc; Cut::Rounds(4), Cut::Rounds(1)].map_err(|_| Memory)?;
    Schema::of(shapes, files, cuts)
}

/// So many sales and the shops, stored.
///
/// # Errors
/// `Memory` where it is wanting.
pub(crate) fn made_stored(alloc: Global, count: u32) -> Result<Stored, Memory>
    requires few { count ≤ 1000000 }
    ensures value { IfOk result (λ s. s ≡ made_stored count) }
{
    let schema = made_schema(alloc)?;
    let db = made_db(alloc, count)?;
    Stored::of(alloc, schema, db)
}
