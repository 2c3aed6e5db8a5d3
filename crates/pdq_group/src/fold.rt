//! One more word in a fold, and what is put of it.
ghost use Rattle.std.specs.Prelude.{◌≡◌, ◌∷◌, [], ◌++◌, OnOk, IfErr, IfSome, pos, ◌+ℤ◌};
ghost use Rattle.std.specs.Int.{int_wrap, w64, w128};
ghost use Rattle.pdq_group.specs.Words.{wide_number, low_word, high_word, lesser, greater};
ghost use Rattle.pdq_base.specs.Words.{is_null};
ghost use Rattle.pdq_group.specs.Folds.{folded, added, put_of, put_of_sum, put_of_average};

use crate::Fold;
use pdq_spill::ExecFault;
use pdq_value::average;

/// The word of no value, which stands for NULL.
const NULL: i64 = i64::MIN;

/// Whether a word is that of no value.
fn is_null(word: i64) -> bool
    ensures value { result ≡ is_null word }
{
    word == NULL
}

/// The number that two words are.
fn wide(low: i64, high: i64) -> i128
    ensures value { result ≡ wide_number low high }
{
    high as i128 * 18446744073709551616 + low.cast_unsigned() as i128
}

/// The low 64 bits.
fn low_word(wide: i128) -> i64
    ensures value { result ≡ low_word wide }
{
    (wide.rem_euclid(18446744073709551616) as u64).cast_signed()
}

/// The bits above.
fn high_word(wide: i128) -> i64
    ensures value { result ≡ high_word wide }
{
    wide.div_euclid(18446744073709551616) as i64
}

/// A sum and one more word, in 128 bits.
fn plus(sum: i128, word: i64) -> i128
    ensures value { result ≡ int_wrap w128 (sum +ℤ word) }
{
    sum.wrapping_add(word as i128)
}

/// One more in 64 bits.
fn one_more(count: i64) -> i64
    ensures value { result ≡ int_wrap w64 (count +ℤ pos 1) }
{
    count.wrapping_add(1)
}

/// The less of two words of which either may be no value.
fn lesser(a: i64, word: i64) -> i64
    ensures value { result ≡ lesser a word }
{
    if is_null(word) {
        a
    } else if is_null(a) {
        word
    } else {
        a.min(word)
    }
}

/// The greater of two words of which either may be no value.
fn greater(a: i64, word: i64) -> i64
    ensures value { result ≡ greater a word }
{
    if is_null(word) {
        a
    } else if is_null(a) {
        word
    } else {
        a.max(word)
    }
}

/// One more value in a sum of so many.
fn added(a: i64, b: i64, c: i64, word: i64) -> (i64, i64, i64)
    ensures value { result.0 ∷ result.1 ∷ result.2 ∷ [] ≡ added a b c word }
{
    let sum = plus(wide(a, b), word);
    (low_word(sum), high_word(sum), one_more(c))
}

/// One more word in the three words of a fold.
#[tactic(auto, unfolding(crate::specs::Folds::folded))]
pub(crate) fn folded(fold: Fold, a: i64, b: i64, c: i64, word: i64) -> (i64, i64, i64)
    ensures value { result.0 ∷ result.1 ∷ result.2 ∷ [] ≡ folded fold a b c word }
{
    match fold {
        Fold::Sum | Fold::Avg => {
            if is_null(word) {
                (a, b, c)
            } else {
                added(a, b, c, word)
            }
        }
        Fold::Min => (lesser(a, word), b, c),
        Fold::Max => (greater(a, word), b, c),
        Fold::Count => (one_more(a), b, c),
    }
}

/// What is put of a sum.
fn sum_put(a: i64, b: i64, c: i64) -> (i64, i64)
    ensures value { result.0 ∷ result.1 ∷ [] ≡ put_of_sum a b c }
{
    if c > 0 { (a, b) } else { (0, NULL) }
}

/// What is put of an average; None where there are more than 20,000,000 values, or greater ones than any column holds.
fn average_put(a: i64, b: i64, c: i64) -> Option<(i64, i64)>
    ensures value { IfSome result (λ put. put.0 ∷ put.1 ∷ [] ≡ put_of_average a b c) }
{
    if c <= 0 {
        return Some((0, NULL));
    }
    let rows = c as u64;
    let sum = wide(a, b);
    if rows > 20000000 || sum.unsigned_abs() > rows as u128 * 1000000000000000000 {
        return None;
    }
    let put = average(sum, rows);
    Some((low_word(put), high_word(put)))
}

/// Puts one word behind others.
fn push(words: &mut Vec<i64>, word: i64) -> Result<(), ExecFault>
    ensures words { OnOk result (words.new.items ≡ words.old.items ++ word ∷ []) }
    ensures fault { IfErr result (λ fault. fault ≡ ExecFault.Memory) }
{
    match words.push(word) {
        Ok(()) => Ok(()),
        Err(_) => Err(ExecFault::Memory),
    }
}

/// Puts two words behind others.
fn push_two(words: &mut Vec<i64>, two: (i64, i64)) -> Result<(), ExecFault>
    ensures words { OnOk result (words.new.items ≡ words.old.items ++ (two.0 ∷ two.1 ∷ [])) }
    ensures fault { IfErr result (λ fault. fault ≡ ExecFault.Memory) }
{
    push(words, two.0)?;
    push(words, two.1)
}

/// Puts what is put of a fold's three words behind others.
#[tactic(auto, unfolding(crate::specs::Folds::put_of))]
pub(crate) fn put_fold(
    fold: Fold,
    a: i64,
    b: i64,
    c: i64,
    words: &mut Vec<i64>,
) -> Result<(), ExecFault>
    ensures words { OnOk result (words.new.items ≡ words.old.items ++ put_of fold a b c) }
    ensures fault { IfErr result (λ fault. fault ≡ ExecFault.Memory) }
{
    match fold {
        Fold::Sum => push_two(words, sum_put(a, b, c)),
        Fold::Avg => match average_put(a, b, c) {
            Some(put) => push_two(words, put),
            None => Err(ExecFault::Memory),
        },
        Fold::Min | Fold::Max | Fold::Count => push(words, a),
    }
}
