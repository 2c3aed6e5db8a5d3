//! The words of a group: its key, then three words for each fold.
ghost use Rattle.std.specs.Prelude.{◌≡◌, ◌+◌, ◌*◌, ◌≤◌, ◌∷◌, ◌++◌, [], length, take, drop, OnOk, IfErr};
ghost use Rattle.pdq_group.specs.Folds.{with_row, put_row, put_of};

use crate::Fold;
use crate::fold::{folded, put_fold};
use pdq_spill::ExecFault;

/// Three words from a place on.
fn load(words: &[i64], at: usize) -> (i64, i64, i64)
    requires within { at + 3 ≤ length words.now }
    ensures words { drop at words.now ≡ result.0 ∷ result.1 ∷ result.2 ∷ drop (at + 3) words.now }
{
    (words[at], words[at + 1], words[at + 2])
}

/// Writes three words from a place on.
fn store(words: &mut [i64], at: usize, state: (i64, i64, i64))
    requires within { at + 3 ≤ length words.old }
    ensures words { take (at + 3) words.new ≡ take at words.old ++ (state.0 ∷ state.1 ∷ state.2 ∷ []) }
{
    words[at] = state.0;
    words[at + 1] = state.1;
    words[at + 2] = state.2;
}

/// Writes the first words of a row.
fn lead(words: &mut [i64], row: &[i64])
    requires within { length row.now ≤ length words.old }
    ensures row { take (length row.now) words.new ≡ row.now }
{
    for (i, word) in row.iter().enumerate() {
        words[i] = *word;
    }
}

/// The words of a group with one more row.
pub(crate) fn fold_row(keys: usize, folds: &[Fold], group: &[i64], row: &[i64], into: &mut [i64])
    requires row { length row.now ≡ keys + length folds.now }
    requires group { length group.now ≡ keys + 3 * length folds.now }
    requires into { length into.old ≡ keys + 3 * length folds.now }
    ensures words { into.new ≡ with_row keys folds.now group.now row.now }
{
    lead(into, &row[..keys]);
    for (j, fold) in folds.iter().enumerate() {
        let at = keys + 3 * j;
        let (a, b, c) = load(group, at);
        store(into, at, folded(*fold, a, b, c, row[keys + j]));
    }
}

/// Puts the words of a row behind others.
pub(crate) fn extend(words: &mut Vec<i64>, row: &[i64]) -> Result<(), ExecFault>
    ensures words { OnOk result (words.new.items ≡ words.old.items ++ row.now) }
    ensures fault { IfErr result (λ fault. fault ≡ ExecFault.Memory) }
{
    match words.extend_from_slice(row) {
        Ok(()) => Ok(()),
        Err(_) => Err(ExecFault::Memory),
    }
}

/// The row that is put of a group.
pub(crate) fn put_row(
    keys: usize,
    folds: &[Fold],
    group: &[i64],
    into: &mut Vec<i64>,
) -> Result<(), ExecFault>
    requires group { length group.now ≡ keys + 3 * length folds.now }
    ensures words { OnOk result (into.new.items ≡ put_row keys folds.now group.now) }
    ensures fault { IfErr result (λ fault. fault ≡ ExecFault.Memory) }
{
    into.clear();
    extend(into, &group[..keys])?;
    for (j, fold) in folds.iter().enumerate() {
        let (a, b, c) = load(group, keys + 3 * j);
        put_fold(*fold, a, b, c, into)?;
    }
    Ok(())
}
