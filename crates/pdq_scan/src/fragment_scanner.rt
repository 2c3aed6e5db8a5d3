//! Scanners of the rows of fragments.
ghost use Rattle.std.specs.Prelude.{◌≡◌, ◌+◌, ◌<◌, ◌≤◌, ◌↔◌, [], map, filter, drop, length, true, false, Some, IfOk, IsTrue, slice_index_or};
ghost use Rattle.pdq_exchange.specs.Batches.{most_rows};
ghost use Rattle.pdq_base.specs.Words.{null_word};
ghost use Rattle.pdq_scan.specs.Scans.{IsPassing, PutOne, left_rows};
ghost use Rattle.pdq_scan.specs.WordTests.{all_passed};

use crate::WordTest;
use crate::picker::Picker;
use crate::word_tests::all_passed;
use pdq_base::Memory;
use pdq_dict::NULL_WORD;
use pdq_eval::Pick;
use pdq_exchange::{Batch, Scanner};
use pdq_spill::ExecFault;
use pdq_table::Fragment;
use std::alloc::Global;

/// Gives words of the rows of some fragments that pass all tests: fragment by fragment, in order. The words are picked by columns; a column past the
/// end is Null.
#[derive(Drop)]
pub struct FragmentScanner<'a> {
    fragments: Vec<&'a Fragment>,
    tests: Vec<WordTest>,
    picker: Picker,
    at: usize,
    row: u32,
    ghost nulls: { picker.missing ≡ null_word },
}

/// The place of the first row of a fragment, from this one on, that passes all tests; how many rows it has, where none does.
fn next_passing(fragment: &Fragment, from: u32, tests: &[WordTest]) -> u32
    ensures rest { filter (all_passed tests.now) (drop result fragment.now.rows) ≡ filter (all_passed tests.now) (drop from fragment.now.rows) }
    ensures within { result ≤ length fragment.now.rows }
    ensures passes { result < length fragment.now.rows → all_passed tests.now (slice_index_or fragment.now.rows result []) ≡ true }
{
    let count = fragment.len();
    for i in from..count {
        if all_passed(tests, fragment.row(i)) {
            return i;
        }
    }
    count
}

impl<'a> FragmentScanner<'a> {
    /// Before the first row of these fragments.
    ///
    /// # Errors
    /// `Memory` where it is wanting.
    pub(crate) fn new(
        alloc: Global,
        fragments: Vec<&'a Fragment>,
        tests: Vec<WordTest>,
        columns: Vec<Pick>,
    ) -> Result<FragmentScanner<'a>, Memory>
        ensures fragments { IfOk result (λ s. s.fragments.items ≡ fragments.entry.items) }
        ensures tests { IfOk result (λ s. s.tests ≡ tests) }
        ensures columns { IfOk result (λ s. s.picker.picks.items ≡ columns.items) }
        ensures at { IfOk result (λ s. s.at ≡ 0) }
        ensures row { IfOk result (λ s. s.row ≡ 0) }
    {
        let picker = Picker::new(alloc, columns, NULL_WORD)?;
        Ok(FragmentScanner {
            fragments,
            tests,
            picker,
            at: 0,
            row: 0,
        })
    }

    /// Goes on to the next row that passes; false where none does.
    fn seek(&mut self) -> bool
        ensures fragments { self.new.fragments.items ≡ self.old.fragments.items }
        ensures tests { self.new.tests.items ≡ self.old.tests.items }
        ensures columns { self.new.picker.picks.items ≡ self.old.picker.picks.items }
        ensures same { left_rows self.new.tests.items self.new.picker.picks.items (map (λ f. f.now.rows) self.new.fragments.items) self.new.at self.new.row ≡ left_rows self.old.tests.items self.old.picker.picks.items (map (λ f. f.now.rows) self.old.fragments.items) self.old.at self.old.row }
        ensures none { result ≡ false → left_rows self.new.tests.items self.new.picker.picks.items (map (λ f. f.now.rows) self.new.fragments.items) self.new.at self.new.row ≡ [] }
        ensures found { result ≡ true → IsPassing self.new.tests.items (map (λ f. f.now.rows) self.new.fragments.items) self.new.at self.new.row }
    {
        while self.at < self.fragments.len() {
            let fragment = self.fragments[self.at];
            self.row = next_passing(fragment, self.row, &self.tests);
            if self.row < fragment.len() {
                return true;
            }
            self.at += 1;
            self.row = 0;
        }
        false
    }

    /// Moves the row that was found into a batch, unless that is full.
    fn put_next(&mut self, batch: &mut Batch) -> bool
        requires found { IsPassing self.old.tests.items (map (λ f. f.now.rows) self.old.fragments.items) self.old.at self.old.row }
        requires width { batch.old.width ≡ length self.old.picker.picks.items }
        ensures fragments { self.new.fragments.items ≡ self.old.fragments.items }
        ensures tests { self.new.tests.items ≡ self.old.tests.items }
        ensures columns { self.new.picker.picks.items ≡ self.old.picker.picks.items }
        ensures room { IsTrue result ↔ length batch.old.rows < most_rows }
        ensures moved { result ≡ true → PutOne batch.old batch.new (left_rows self.old.tests.items self.old.picker.picks.items (map (λ f. f.now.rows) self.old.fragments.items) self.old.at self.old.row) (left_rows self.new.tests.items self.new.picker.picks.items (map (λ f. f.now.rows) self.new.fragments.items) self.new.at self.new.row) }
        ensures full { result ≡ false → (batch.new ≡ batch.old) × (self.new.at ≡ self.old.at) × (self.new.row ≡ self.old.row) }
    {
        let fragment = self.fragments[self.at];
        let _rows = fragment.len();
        self.picker.make(fragment.row(self.row));
        if !batch.put(&self.picker.made) {
            return false;
        }
        self.row += 1;
        true
    }
}

impl<'a> Scanner for FragmentScanner<'a> {
    ghost use Rattle.std.specs.Prelude.{◌≡◌, length, map, None};
    ghost use Rattle.pdq_scan.specs.Lanes.{all_told};
    ghost use Rattle.pdq_scan.specs.Scans.{left_rows};

    ghost width = { λ s. length s.picker.picks.items };

    ghost left = { λ s. all_told (left_rows s.tests.items s.picker.picks.items (map (λ f. f.now.rows) s.fragments.items) s.at s.row) };

    ghost fault = { λ s. None };

    ghost keeps = { λ a b. b.picker.picks.items ≡ a.picker.picks.items };

    fn fill(&mut self, batch: &mut Batch) -> Result<bool, ExecFault> {
        loop {
            if !self.seek() {
                return Ok(false);
            }
            if !self.put_next(batch) {
                return Ok(true);
            }
        }
    }

    ghost use Rattle.std.proofs.Common.{refl, ◌∙◌};
    ghost use Rattle.pdq_scan.specs.ScanLaws.{left-coming};

    ghost coming_is = { λ s. left-coming s.tests.items s.picker.picks.items (map (λ f. f.now.rows) s.fragments.items) s.at s.row };

    ghost keeps_itself = { λ s. refl };

    ghost keeps_on = { λ a b c h k. k ∙ h };
}
