//! Key prefixes: what is compared first of a cell, kept beside the row or the choice that has it, so that few comparisons go to the cell itself.
ghost use Rattle.std.specs.Prelude.{◌≡◌, IfOk, map};
ghost use Rattle.pdq_mean.specs.CellRefs.{cell_of_ref};
ghost use Rattle.pdq_mean.specs.KeyPrefixes.{IsKeyPrefixOf, is_whole, prefix_cmp};

use crate::cell_ref::CellRef;
use pdq_base::Memory;
use pdq_value::text_prefix;
use std::alloc::Global;
use std::cmp::Ordering;

/// From this length on a text is more than its prefix.
const LONG: usize = 16;

/// The key prefix of a cell: its rank, 0 for nothing, 1 for a number and 2 for a text; its number in units of its last decimal place, or the key prefix
/// of its text; and its scale, or the length of its text, 16 where it is longer. The widest field stands first, so that none is padded.
#[derive(Clone, Copy)]
pub struct KeyPrefix {
    number: i128,
    rank: u32,
    rest: u32,
}

/// An item beside the key prefix of the cell that is compared first.
#[derive(Drop)]
pub struct Prefixed<T> {
    pub prefix: KeyPrefix,
    pub item: T,
}

/// The key prefix of a cell.
pub fn prefix_of(cell: CellRef<'_>) -> KeyPrefix
    ensures prefix { IsKeyPrefixOf result (cell_of_ref cell.entry) }
{
    match cell {
        CellRef::Nothing => KeyPrefix {
            number: 0,
            rank: 0,
            rest: 0,
        },
        CellRef::Number { unscaled, scale } => KeyPrefix {
            number: unscaled,
            rank: 1,
            rest: scale,
        },
        CellRef::Words(text) => KeyPrefix {
            number: text_prefix(text.bytes()) as i128,
            rank: 2,
            rest: text.bytes().len().min(LONG) as u32,
        },
    }
}

/// By rank, then by number, then by scale or length.
pub fn compare_prefixes(a: &KeyPrefix, b: &KeyPrefix) -> Ordering
    ensures order { result ≡ prefix_cmp a.now b.now }
{
    a.rank
        .cmp(&b.rank)
        .then(a.number.cmp(&b.number))
        .then(a.rest.cmp(&b.rest))
}

/// Whether no other cell has this prefix, so that cells that tie by it are the same.
pub fn is_whole(prefix: &KeyPrefix) -> bool
    ensures value { result ≡ is_whole prefix.now }
{
    prefix.rest < LONG as u32
}

/// The items without their prefixes.
///
/// # Errors
/// `Memory` where it is wanting.
pub fn items<T: Drop>(alloc: Global, prefixed: Vec<Prefixed<T>>) -> Result<Vec<T>, Memory>
    ensures items { IfOk result (λ v. v.items ≡ map (λ (l : Prefixed T). l.item) prefixed.items) }
{
    let Ok(mut items) = Vec::with_capacity(alloc, prefixed.len()) else {
        return Err(Memory);
    };
    for one in prefixed {
        if items.push(one.item).is_err() {
            return Err(Memory);
        }
    }
    Ok(items)
}
