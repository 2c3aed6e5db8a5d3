//! Groupers are made of benches.
ghost use Rattle.std.specs.Prelude.{◌≡◌, ◌+◌, ◌≤◌, ◌++◌, [], All, IfErr, IfOk, IfSome, IsTrue, None, length, map, vec_len, vec_capacity};
ghost use Rattle.pdq_group.specs.Tables.{group_width};
ghost use Rattle.pdq_gather.specs.Homes.{back_of, bench_back, store_of};
ghost use Rattle.pdq_gather.specs.Benches.{IsNew};

use crate::moving::{insert_first, push_in_room};
use pdq_edge::Spill;
use pdq_group::{GroupShape, Grouper};
use pdq_spill::Bench;
use std::alloc::Global;

/// A grouper gives its bench back.
fn leave_one<Sp: Spill>(grouper: Grouper<Sp>) -> Bench<Sp>
    ensures { bench_back (store_of Sp.blocks Sp.held Sp.puts Sp.faults) result ≡ back_of grouper }
{
    grouper.leave()
}

/// All groupers give their benches back, the last one first, before those that are there.
fn leave_first<Sp: Spill>(groupers: &mut Vec<Grouper<Sp>>, benches: &mut Vec<Bench<Sp>>)
    requires room { vec_len benches.old + vec_len groupers.old ≤ vec_capacity benches.old }
    ensures empty { groupers.new.items ≡ [] }
    ensures home { map (bench_back (store_of Sp.blocks Sp.held Sp.puts Sp.faults)) benches.new.items ≡ map back_of groupers.old.items ++ map (bench_back (store_of Sp.blocks Sp.held Sp.puts Sp.faults)) benches.old.items }
{
    'leaving: while let Some(grouper) = groupers.pop() {
        insert_first(benches, leave_one(grouper));
    }
}

/// A grouper over a bench; without memory the bench comes back.
fn make_grouper<Sp: Spill>(
    alloc: Global,
    shape: &GroupShape,
    bench: Bench<Sp>,
) -> Result<Grouper<Sp>, Bench<Sp>>
    requires frames { 2 ≤ bench.region.frames }
    requires low { 1 ≤ shape.now.keys + length shape.now.folds.items }
    requires high { group_width shape.now.keys shape.now.folds.items ≤ 511 }
    ensures new { IfOk result (λ g. IsNew shape.now.keys shape.now.folds.items g) }
    ensures back { IfOk result (λ g. back_of g ≡ bench_back (store_of Sp.blocks Sp.held Sp.puts Sp.faults) bench) }
    ensures err { IfErr result (λ b. b ≡ bench) }
{
    let Ok(folds) = shape.folds.to_vec(alloc) else {
        return Err(bench);
    };
    let copied = GroupShape {
        keys: shape.keys,
        folds,
    };
    Grouper::new(alloc, copied, bench)
}

/// Makes groupers of benches, from the first on, as long as there is memory. Answers whether all were made.
fn make_groupers<Sp: Spill>(
    alloc: Global,
    shape: &GroupShape,
    benches: &mut Vec<Bench<Sp>>,
    groupers: &mut Vec<Grouper<Sp>>,
) -> bool
    requires none { groupers.old.items ≡ [] }
    requires room { vec_len benches.old ≤ vec_capacity groupers.old }
    requires frames { All (λ bench. 2 ≤ bench.region.frames) benches.old.items }
    requires low { 1 ≤ shape.now.keys + length shape.now.folds.items }
    requires high { group_width shape.now.keys shape.now.folds.items ≤ 511 }
    ensures all { map back_of groupers.new.items ++ map (bench_back (store_of Sp.blocks Sp.held Sp.puts Sp.faults)) benches.new.items ≡ map (bench_back (store_of Sp.blocks Sp.held Sp.puts Sp.faults)) benches.old.items }
    ensures new { All (IsNew shape.now.keys shape.now.folds.items) groupers.new.items }
    ensures many { vec_len groupers.new + vec_len benches.new ≡ vec_len benches.old }
    ensures done { IsTrue result → benches.new.items ≡ [] }
    ensures capacity { vec_capacity benches.old ≤ vec_capacity benches.new }
{
    'making: while benches.len() > 0 {
        let bench = benches.remove(0);
        match make_grouper(alloc, shape, bench) {
            Ok(grouper) => push_in_room(groupers, grouper),
            Err(back) => {
                insert_first(benches, back);
                return false;
            }
        }
    }
    true
}

/// The groupers of all benches, in order; none where memory is wanting, and then all benches are back.
pub(crate) fn groupers_of<Sp: Spill>(
    alloc: Global,
    shape: &GroupShape,
    benches: &mut Vec<Bench<Sp>>,
) -> Option<Vec<Grouper<Sp>>>
    requires frames { All (λ bench. 2 ≤ bench.region.frames) benches.old.items }
    requires low { 1 ≤ shape.now.keys + length shape.now.folds.items }
    requires high { group_width shape.now.keys shape.now.folds.items ≤ 511 }
    ensures all { IfSome result (λ groupers. map back_of groupers.items ≡ map (bench_back (store_of Sp.blocks Sp.held Sp.puts Sp.faults)) benches.old.items) }
    ensures new { IfSome result (λ groupers. All (IsNew shape.now.keys shape.now.folds.items) groupers.items) }
    ensures many { IfSome result (λ groupers. vec_len groupers ≡ vec_len benches.old) }
    ensures none_left { IfSome result (λ _. benches.new.items ≡ []) }
    ensures capacity { IfSome result (λ _. vec_capacity benches.old ≤ vec_capacity benches.new) }
    ensures home { result ≡ None → map (bench_back (store_of Sp.blocks Sp.held Sp.puts Sp.faults)) benches.new.items ≡ map (bench_back (store_of Sp.blocks Sp.held Sp.puts Sp.faults)) benches.old.items }
{
    let Ok(mut groupers) = Vec::with_capacity(alloc, benches.len()) else {
        return None;
    };
    if make_groupers(alloc, shape, benches, &mut groupers) {
        return Some(groupers);
    }
    leave_first(&mut groupers, benches);
    groupers.destroy_empty();
    None
}
