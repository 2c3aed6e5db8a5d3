//! Numbers, averages and rows as they are read, printed and compared.
ghost use Rattle.pdq_value.specs.Cells.{scale_of};
ghost use Rattle.pdq_value.specs.declared.cells.Cell.{Cell as CellValue};
ghost use Rattle.std.specs.Prelude.{◌≤◌, ◌↔◌, All, IsTrue};

use crate::{
    Cell, Kind, NumberFault, Text, Value, average, cell_of, compare_cells, compare_rows,
    first_cell_end, print_number, print_row, read_number, text_of_cell,
};
use pdq_base::Memory;
use std::alloc::Global;
use std::cmp::Ordering;
use std::test::Fail;

fn bad(place: u32) -> Result<i64, NumberFault> {
    Err(NumberFault::BadNumber { place })
}

#[test]
fn numbers_are_read(rt: HostRuntime) {
    assert_eq!(rt; read_number(b"12.5", 2), Ok(1250));
    assert_eq!(rt; read_number(b"12.500", 2), Ok(1250));
    assert_eq!(rt; read_number(b"3.125", 2), bad(4));
    assert_eq!(rt; read_number(b"-0.05", 2), Ok(-5));
    assert_eq!(rt; read_number(b".5", 2), bad(0));
    assert_eq!(rt; read_number(b"", 0), bad(0));
    assert_eq!(rt;
        read_number(b"999999999999999999", 0),
        Ok(999_999_999_999_999_999)
    );
    assert_eq!(rt;
        read_number(b"1000000000000000000", 0),
        Err(NumberFault::TooLarge)
    );
    assert_eq!(rt;
        read_number(b"10000000000000000.00", 2),
        Err(NumberFault::TooLarge)
    );
    assert_eq!(rt; read_number(b"-", 0), bad(1));
    assert_eq!(rt; read_number(b"-0", 6), Ok(0));
    assert_eq!(rt; read_number(b"007", 0), Ok(7));
    assert_eq!(rt; read_number(b"7.", 2), bad(2));
    assert_eq!(rt; read_number(b"7.00", 0), Ok(7));
    assert_eq!(rt; read_number(b"+7", 0), bad(0));
    assert_eq!(rt; read_number(b"7 ", 0), bad(1));
    assert_eq!(rt; read_number(b"99999999999999999999999999.5x", 2), bad(28));
}

fn printed(alloc: Global, unscaled: i128, scale: u32) -> Result<Vec<u8>, Memory>
    requires { scale ≤ 8 }
{
    let mut text = Vec::new(alloc);
    print_number(unscaled, scale, &mut text)?;
    Ok(text)
}

#[test]
fn numbers_are_printed(rt: HostRuntime) -> Result<(), Fail> {
    let alloc = rt.alloc();
    let least = "-1701411834604692317316873037158841057.28";
    for (number, scale, text) in [
        (1250, 2, "12.50"),
        (-5, 2, "-0.05"),
        (0, 0, "0"),
        (0, 8, "0.00000000"),
        (-13, 4, "-0.0013"),
        (i128::MIN, 2, least),
    ] {
        let Ok(line) = printed(alloc, number, scale) else {
            return Err(Fail::from("memory"));
        };
        assert_eq!(rt; line.as_slice(), text.as_bytes());
    }
    Ok(())
}

#[test]
fn averages_are_rounded_half_away_from_zero(rt: HostRuntime) {
    assert_eq!(rt; average(-1, 8), -13);
    assert_eq!(rt; average(1, 8), 13);
    assert_eq!(rt; average(3, 8), 38);
    assert_eq!(rt; average(10, 3), 333);
    assert_eq!(rt; average(20, 3), 667);
    assert_eq!(rt; average(0, 20_000_000), 0);
}

fn words(alloc: Global, text: &str) -> Result<Cell, Memory> {
    Ok(Cell::Words(Text::from_str(alloc, text)?))
}

fn row(alloc: Global) -> Result<Vec<Cell>, Memory> {
    let price = cell_of(alloc, Kind::Number { scale: 2 }, &Value::Number(-150))?;
    let name = Value::Words(Text::from_str(alloc, "a|b\\c\nd\re")?).copy(alloc)?;
    let cells = [
        price,
        cell_of(alloc, Kind::Words, &name)?,
        Cell::Nothing,
        words(alloc, "")?,
    ];
    let Ok(cells) = Vec::from_array(alloc, cells) else {
        return Err(Memory);
    };
    Ok(cells)
}

fn is_narrow(cell: &Cell) -> bool
    ensures { IsTrue result ↔ (scale_of cell.now ≤ 8) }
{
    match cell {
        Cell::Number { scale, .. } => *scale <= 8,
        _ => true,
    }
}

fn are_narrow(cells: &[Cell]) -> bool
    ensures { IsTrue result ↔ All (λ (cell : CellValue). scale_of cell ≤ 8) cells.now }
{
    cells.iter().all(|cell| is_narrow(cell))
}

fn row_line(alloc: Global, cells: &[Cell]) -> Result<Vec<u8>, Memory>
    requires { All (λ (cell : CellValue). scale_of cell ≤ 8) cells.now }
{
    let mut text = Vec::new(alloc);
    print_row(cells, &mut text)?;
    Ok(text)
}

#[test]
fn a_row_is_printed_cut_and_compared(rt: HostRuntime) -> Result<(), Fail> {
    let alloc = rt.alloc();
    let Ok(cells) = row(alloc) else {
        return Err(Fail::from("memory"));
    };
    assert!(rt; are_narrow(&cells));
    let Ok(line) = row_line(alloc, &cells) else {
        return Err(Fail::from("memory"));
    };
    assert_eq!(rt;
        line.as_slice(),
        b"-1.50|a\\|b\\\\c\\nd\\re|\\N|".as_slice()
    );
    assert!(rt; line.len() == 23);
    assert_eq!(rt; first_cell_end(&line[6..]), 13);
    let Ok(text) = text_of_cell(alloc, &line[6..19]) else {
        return Err(Fail::from("memory"));
    };
    assert_eq!(rt;
        text.as_ref().map(|t| t.as_slice()),
        Some(b"a|b\\c\nd\re".as_slice())
    );
    assert_eq!(rt; text_of_cell(alloc, b"\\N").map(|t| t.is_none()), Ok(true));
    Ok(())
}

#[test]
fn cells_have_an_order(rt: HostRuntime) -> Result<(), Fail> {
    let alloc = rt.alloc();
    let Ok(cells) = row(alloc) else {
        return Err(Fail::from("memory"));
    };
    assert!(rt; cells.len() == 4);
    assert_eq!(rt; compare_cells(&cells[2], &cells[0]), Ordering::Less);
    assert_eq!(rt; compare_cells(&cells[0], &cells[3]), Ordering::Less);
    assert_eq!(rt; compare_cells(&cells[3], &cells[1]), Ordering::Less);
    assert_eq!(rt; compare_rows(&cells, &cells[..2]), Ordering::Greater);
    let Ok(again) = cells[1].copy(alloc) else {
        return Err(Fail::from("memory"));
    };
    assert_eq!(rt; compare_cells(&cells[1], &again), Ordering::Equal);
    Ok(())
}
