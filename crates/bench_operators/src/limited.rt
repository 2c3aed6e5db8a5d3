//! A store in a file that may not grow beyond a limit.
ghost use Rattle.std.specs.Prelude.{◌≡◌, ◌+◌, ◌≤◌};

use pdq_edge::{FileSpill, Spill};
use std::io;
use std::path::Path;

/// The block of a number.
fn block_of(number: u32) -> [u8; 4096] {
    [(number % 251) as u8; 4096]
}

/// Puts so many blocks, or those before the first that is refused. Answers how many.
fn put_blocks<Sp: Spill>(store: &mut Sp, blocks: u32) -> u32
    ensures held { Sp.held store.new ≡ Sp.held store.old + result }
{
    for number in 0..blocks {
        if store.put(&block_of(number)).is_err() {
            return number;
        }
    }
    blocks
}

/// How many of the first blocks read as they were put.
fn read_blocks<Sp: Spill>(store: &mut Sp, blocks: u32) -> u32
    requires held { blocks ≤ Sp.held store.old }
{
    let mut same = 0u32;
    for number in 0..blocks {
        let mut into = [0; 4096];
        if store.get(number, &mut into).is_ok() && into == block_of(number) {
            same = same.saturating_add(1);
        }
    }
    same
}

/// Puts so many blocks or as many as it can, tries one more, reads them, and puts one after a clear.
pub fn run(rt: HostRuntime, blocks: u32) -> io::Result<()> {
    let Ok(mut store) = FileSpill::new(rt.alloc(), rt, Path::new(""), &mut 0) else {
        return println!(rt; "memory is wanting");
    };
    let put = put_blocks(&mut store, blocks);
    let refused = store.put(&block_of(put)).is_err();
    let same = read_blocks(&mut store, put);
    store.clear();
    let again = put_blocks(&mut store, put.min(1));
    println!(rt;
        "{put} blocks put, one more refused: {refused}; {same} read as they were put; {again} put after a clear"
    )
}
