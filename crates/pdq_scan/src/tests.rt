//! Scans of a small table and of a partition in memory.
ghost use Rattle.std.specs.Prelude.{◌≡◌, IfOk, length};

use crate::picker::Picker;
use crate::{FragmentScanner, PartitionScanner, WordTest, leave_partitions, partition_lanes};
use pdq_dict::NULL_WORD;
use pdq_edge::SureSpill;
use pdq_eval::Pick;
use pdq_exchange::{Batch, Scanner};
use pdq_query::Compare;
use pdq_schema::read_schema;
use pdq_spill::Partition;
use pdq_table::{Fragment, Stored, load};
use std::alloc::{AllocError, Global};
use std::test::Fail;

/// A table of numbers and texts in two fragments, in turn.
const SCHEMA: &str =
    "[[table]]\nname = \"t\"\nfile = \"t.csv\"\nround_robin = 2\ncolumn = [{ name = \"k\", kind = \"number\" }, { name = \"w\", kind = \"text\" }]\n";

/// The one table, with these rows.
fn loaded(alloc: Global, rows: &[u8]) -> Result<Stored, Fail>
    ensures one { IfOk result (λ s. length s.schema.shapes ≡ 1) }
{
    let Ok(schema) = read_schema(alloc, SCHEMA.as_bytes()) else {
        return Err("schema".into());
    };
    let [_] = schema.shapes() else {
        return Err("tables".into());
    };
    let file = Vec::from_slice(alloc, rows)?;
    let files = vec![in alloc; file]?;
    let Ok(stored) = load(alloc, &schema, files) else {
        return Err("rows".into());
    };
    Ok(stored)
}

/// All its fragments.
fn fragments_of<'a>(alloc: Global, stored: &'a Stored) -> Result<Vec<&'a Fragment>, AllocError>
    requires { length stored.now.schema.shapes ≡ 1 }
{
    let mut fragments = Vec::new(alloc);
    let count = stored.schema().fragments(0);
    for number in 0..count {
        fragments.push(stored.fragment(0, number))?;
    }
    Ok(fragments)
}

#[test]
fn rows_of_two_fragments(rt: HostRuntime) -> Result<(), Fail> {
    let alloc = rt.alloc();
    let stored = loaded(alloc, b"k,w\n1,a\n2,b\n3,\\N\n4,a\n5,b\n")?;
    let fragments = fragments_of(alloc, &stored)?;
    let tests = vec![in alloc; WordTest::Word(0, Compare::Ge, 2)]?;
    let columns = vec![in alloc; Pick::Word(1), Pick::Word(0), Pick::Zero]?;
    let Ok(mut scanner) = FragmentScanner::new(alloc, fragments, tests, columns) else {
        return Err("memory".into());
    };
    let Ok(mut batch) = Batch::new(alloc, 3) else {
        return Err("memory".into());
    };
    assert!(rt; !scanner.fill(&mut batch)?);
    assert_eq!(rt; batch.rows(), 4);
    assert!(rt; batch.row(0) == [NULL_WORD, 3, 0].as_slice());
    assert!(rt; batch.row(1) == [1, 5, 0].as_slice());
    assert!(rt; batch.row(2) == [1, 2, 0].as_slice());
    assert!(rt; batch.row(3) == [0, 4, 0].as_slice());
    Ok(())
}

#[test]
fn picked_rows_of_a_partition(rt: HostRuntime) -> Result<(), Fail> {
    let alloc = rt.alloc();
    let mut store = SureSpill::new(alloc);
    let mut rows = Partition::new(alloc, 3).map_err(|_| "memory")?;
    rows.append(&mut store, &[1, 2, 3])?;
    rows.append(&mut store, &[4, 5, 6])?;
    rows.seal(&mut store)?;
    let picks = vec![in alloc; Pick::Word(2), Pick::Zero, Pick::Word(3)]?;
    let picker = Picker::new(alloc, picks, 0).map_err(|_| "memory")?;
    let mut batch = Batch::new(alloc, 3).map_err(|_| "memory")?;
    let mut scanner = PartitionScanner::new(rows, store, Some(picker));
    let more = scanner.fill(&mut batch);
    let _store = scanner.leave();
    assert!(rt; !more?);
    assert_eq!(rt; batch.rows(), 2);
    assert!(rt; batch.row(0) == [3, 0, 0].as_slice());
    assert!(rt; batch.row(1) == [6, 0, 0].as_slice());
    Ok(())
}

#[test]
fn stores_come_back(rt: HostRuntime) -> Result<(), Fail> {
    let alloc = rt.alloc();
    let mut store = SureSpill::new(alloc);
    let mut rows = Partition::new(alloc, 1).map_err(|_| "memory")?;
    rows.append(&mut store, &[7])?;
    rows.seal(&mut store)?;
    let mut stores = vec![in alloc; store]?;
    let rows = vec![in alloc; rows]?;
    let mut lanes = Vec::with_capacity(alloc, 1)?;
    let opened = partition_lanes(alloc, rows, &mut stores, &mut lanes, None, 1);
    let left = stores.len();
    leave_partitions(&mut lanes, &mut stores);
    lanes.destroy_empty();
    assert_eq!(rt; left, if opened.is_ok() { 0 } else { 1 });
    assert_eq!(rt; stores.len(), 1);
    Ok(())
}
