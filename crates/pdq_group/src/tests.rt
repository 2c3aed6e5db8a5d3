//! Groupers from their first row to their end.
ghost use Rattle.std.specs.Prelude.{◌≡◌, ◌+◌, ◌≤◌, ◌<◌, length};
ghost use Rattle.pdq_group.specs.Folds.{words_of_folds};

use crate::{Fold, Folded, GroupShape, Grouper, Steps};
use pdq_edge::{Spill, SureSpill};
use pdq_frame::Pool;
use pdq_spill::{Bench, ExecFault, RowOut};
use std::alloc::Global;
use std::marker::Brand;
use std::process::Abort;
use std::sync::ledger::{Blank, Ledger};
use std::test::Fail;

/// The word of NULL.
const NULL: i64 = i64::MIN;

/// The words of the rows that were put, in order.
#[derive(Drop)]
struct Words {
    width: u32,
    words: Vec<i64>,
}

impl RowOut for Words {
    ghost use Rattle.std.specs.Prelude.{None, refl};

    ghost rows = { λ o. None };

    ghost width = { λ o. o.width };

    ghost fault = { λ o. None };

    ghost keeps = { λ a b. Unit {0} };

    fn put(&mut self, row: &[i64]) -> Result<(), ExecFault> {
        let _ = self.words.extend_from_slice(row);
        Ok(())
    }

    ghost keeps_itself = { λ o. tt };

    ghost keeps_on = { λ a b c p q. tt };
}

/// Takes rows.
fn take_all<const N: usize>(
    grouper: &mut Grouper<SureSpill>,
    rows: &[[i64; N]],
) -> Result<(), ExecFault>
    requires width { grouper.old.table.keys + length grouper.old.table.folds ≡ N }
    requires few { grouper.old.rows + length rows.now ≤ 20000000 }
    ensures frames { grouper.new.table.frames ≡ grouper.old.table.frames }
    ensures keys { grouper.new.table.keys ≡ grouper.old.table.keys }
    ensures folds { grouper.new.table.folds ≡ grouper.old.table.folds }
{
    for row in rows {
        grouper.row(row)?;
    }
    Ok(())
}

/// Ends a grouper under a count of its passes.
fn counted<L: Ledger>(
    grouper: Grouper<SureSpill>,
    out: &mut Words,
    blank: Blank,
) -> (Bench<SureSpill>, Result<Folded, ExecFault>)
    requires name { blank.name ≡ L.name }
    requires parts { blank.parts ≡ L.parts }
    requires some { 0 < L.parts }
    requires out { out.old.width ≡ grouper.table.keys + words_of_folds grouper.table.folds }
    ensures frames { result.0.region.frames ≡ grouper.table.frames }
{
    let mut steps = Steps::<L>::new(blank);
    grouper.end(out, &mut steps)
}

/// Ends a grouper.
fn ended(
    grouper: Grouper<SureSpill>,
    out: &mut Words,
) -> (Bench<SureSpill>, Result<Folded, ExecFault>)
    requires out { out.old.width ≡ grouper.table.keys + words_of_folds grouper.table.folds }
    ensures frames { result.0.region.frames ≡ grouper.table.frames }
{
    counted::<Brand>(grouper, out, Blank::new(1))
}

/// Groups rows by their first words, in a region of 2 frames. How many keys were kept there, and how many blocks were put.
fn grouped<const N: usize>(
    rt: &impl Abort,
    alloc: Global,
    folds: &[Fold],
    rows: &[[i64; N]],
    out: &mut Words,
) -> Result<(u64, u32), Fail>
    requires folds { length folds.now ≤ 5 }
    requires width { N ≡ 1 + length folds.now }
    requires few { length rows.now ≤ 1000 }
    requires out { out.old.width ≡ 1 + words_of_folds folds.now }
{
    let mut pool = Pool::new(alloc, 2, 1).map_err(|_| "memory")?;
    let shape = GroupShape {
        keys: 1,
        folds: folds.to_vec(alloc)?,
    };
    let bench = Bench {
        region: pool.grant(1),
        store: SureSpill::new(alloc),
    };
    let (bench, kept) = match Grouper::new(alloc, shape, bench) {
        Ok(mut grouper) => {
            assert_eq!(rt; take_all(&mut grouper, rows), Ok(()));
            let (bench, folded) = ended(grouper, out);
            let folded = folded.expect(rt, "ended");
            assert_eq!(rt; folded.frames(), 2);
            assert_eq!(rt; folded.rows(), rows.len() as u64);
            (bench, folded.kept())
        }
        Err(bench) => (bench, 0),
    };
    let Bench { region, mut store } = bench;
    pool.give_back(region);
    let puts = store.put(&[0; 4096]).expect(rt, "put");
    Ok((kept, puts))
}

#[test]
fn folds_of_each_key(rt: HostRuntime) -> Result<(), Fail> {
    let mut out = Words {
        width: 4,
        words: Vec::new(rt.alloc()),
    };
    let rows = [[1, 10, 0], [2, 5, 0], [1, -4, 0]];
    assert_eq!(rt;
        grouped(&rt, rt.alloc(), &[Fold::Sum, Fold::Count], &rows, &mut out)?,
        (2, 0)
    );
    assert_eq!(rt; out.words.as_slice(), [1, 6, 0, 2, 2, 5, 0, 1].as_slice());
    Ok(())
}

#[test]
fn null_is_no_value(rt: HostRuntime) -> Result<(), Fail> {
    let mut out = Words {
        width: 8,
        words: Vec::new(rt.alloc()),
    };
    let folds = [Fold::Sum, Fold::Avg, Fold::Min, Fold::Max, Fold::Count];
    let rows = [
        [7, -1, 1, 5, 5, NULL],
        [NULL, NULL, NULL, NULL, NULL, NULL],
        [7, NULL, NULL, NULL, NULL, 0],
        [7, -2, 2, 3, 3, NULL],
    ];
    assert_eq!(rt; grouped(&rt, rt.alloc(), &folds, &rows, &mut out)?, (2, 0));
    let want = [
        7, -3, -1, 150, 0, 3, 5, 3, NULL, 0, NULL, 0, NULL, NULL, NULL, 1,
    ];
    assert_eq!(rt; out.words.as_slice(), want.as_slice());
    Ok(())
}

#[test]
fn passes_over_the_keys_without_room(rt: HostRuntime) -> Result<(), Fail> {
    let alloc = rt.alloc();
    // rows, whether each has a key of its own, how many keys are kept, and how many blocks are put
    let cases = [(1000, true, 102, 22), (1000, false, 1, 0), (0, true, 0, 0)];
    for (count, distinct, kept, puts) in cases {
        let mut rows = Vec::new(alloc);
        let mut want = Vec::new(alloc);
        for i in 0..count {
            rows.push([if distinct { i } else { 0 }, NULL])?;
            if distinct {
                want.extend_from_slice(&[i, 1])?;
            }
        }
        if !distinct {
            want.extend_from_slice(&[0, count])?;
        }
        let mut out = Words {
            width: 2,
            words: Vec::new(alloc),
        };
        assert!(rt; rows.len() <= 1000);
        assert_eq!(rt;
            grouped(&rt, alloc, &[Fold::Count], &rows, &mut out)?,
            (kept, puts)
        );
        assert!(rt; out.words.as_slice() == want.as_slice());
    }
    Ok(())
}
