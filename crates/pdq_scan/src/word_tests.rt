//! Filters whose literals are words, so that they are asked of coded rows.
ghost use Rattle.std.specs.Prelude.{◌≡◌, ◌&&◌, false, IfOk, ℤ, List, pos};
ghost use Rattle.std.specs.Ordering.{int_cmp};
ghost use Rattle.std.specs.List.{list_all};
ghost use Rattle.std.specs.declared.cmp.Ordering.{Ordering};
ghost use Rattle.pdq_base.specs.Words.{is_value};
ghost use Rattle.pdq_query.specs.Conditions.{holds};
ghost use Rattle.pdq_eval.specs.Scanning.{absent_cmp, are_same, word_of_column};
ghost use Rattle.pdq_scan.specs.WordTests.{AreTestsOf, IsTestOf, all_passed, is_passed};

use pdq_base::Memory;
use pdq_dict::{Dict, NULL_WORD};
use pdq_query::{Compare, Filter};
use pdq_value::Value;
use std::alloc::Global;
use std::cmp::Ordering;

/// A condition on the words of a row of one table. No comparison with Null holds.
#[derive(Clone, Copy, Debug, PartialEq, Eq)]
pub enum WordTest {
    /// The column compared with a number, or with the code of a text.
    Word(u32, Compare, i64),
    /// The column compared with a text that is not in the dictionary, of which so many texts are less than it.
    Absent(u32, Compare, u32),
    /// The column compared with Null.
    Never,
    /// Two columns are equal.
    Columns(u32, u32),
}

/// The word of a column; Null past the end.
fn word_of(row: &[i64], column: u32) -> i64
    ensures word { result ≡ word_of_column column row.now }
{
    match row.get(column as usize) {
        Some(word) => *word,
        None => NULL_WORD,
    }
}

/// Whether a comparison holds of an order.
fn holds(test: Compare, order: Ordering) -> bool
    ensures holds { result ≡ holds test order }
{
    match test {
        Compare::Eq => order.is_eq(),
        Compare::Ne => !order.is_eq(),
        Compare::Lt => order.is_lt(),
        Compare::Le => !order.is_gt(),
        Compare::Gt => order.is_gt(),
        Compare::Ge => !order.is_lt(),
    }
}

/// How a word compares with a text that is not in the dictionary, before which so many texts stand.
fn absent_order(word: i64, place: u32) -> Ordering
    ensures order { result ≡ absent_cmp word place }
{
    if word < i64::from(place) {
        Ordering::Less
    } else {
        Ordering::Greater
    }
}

/// Whether a row passes a test.
fn is_passed(test: WordTest, row: &[i64]) -> bool
    ensures passed { result ≡ is_passed row.now test }
{
    match test {
        WordTest::Word(column, compare, literal) => {
            let word = word_of(row, column);
            word != NULL_WORD && holds(compare, word.cmp(&literal))
        }
        WordTest::Absent(column, compare, place) => {
            let word = word_of(row, column);
            word != NULL_WORD && holds(compare, absent_order(word, place))
        }
        WordTest::Never => false,
        WordTest::Columns(one, other) => {
            let word = word_of(row, one);
            word == word_of(row, other) && word != NULL_WORD
        }
    }
}

/// Whether a row passes all of these tests.
pub(crate) fn all_passed(tests: &[WordTest], row: &[i64]) -> bool
    ensures passed { result ≡ all_passed tests.now row.now }
{
    tests.iter().all(|test| is_passed(*test, row))
}

/// The test of a filter.
#[tactic(auto, using(crate::proofs::Tested::word_test, crate::proofs::Tested::absent_test))]
pub(crate) fn test_of(dict: &Dict, filter: &Filter) -> WordTest
    ensures test { IsTestOf dict.now filter.now result }
{
    match filter {
        Filter::Columns(one, other) => WordTest::Columns(one.column, other.column),
        Filter::Literal(at, compare, value) => match value {
            Value::Null => WordTest::Never,
            Value::Number(number) => WordTest::Word(at.column, *compare, *number),
            Value::Words(text) => match dict.code(text.bytes()) {
                Some(code) => WordTest::Word(at.column, *compare, i64::from(code)),
                None => WordTest::Absent(at.column, *compare, dict.place(text.bytes())),
            },
        },
    }
}

/// The tests of some filters, one for each.
///
/// # Errors
/// `Memory` where it is wanting.
pub fn tests_of(alloc: Global, dict: &Dict, filters: &[Filter]) -> Result<Vec<WordTest>, Memory>
    ensures tests { IfOk result (λ tests. AreTestsOf dict.now filters.now tests.items) }
{
    let mut tests = Vec::new(alloc);
    for filter in filters {
        let Ok(()) = tests.push(test_of(dict, filter)) else {
            return Err(Memory);
        };
    }
    Ok(tests)
}
