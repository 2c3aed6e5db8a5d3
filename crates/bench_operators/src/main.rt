//! Times the operators on rows that it makes: how long they take for how many rows, which the script of the bench holds beside a plain program
//! in C. The words after the name say what; with none it writes nothing.
//!
//! `memory ROWS` puts so many rows into blocks of a store in memory, and reads them again; `file ROWS` does so with a store in a file of the working
//! folder. `hash BLOCKS` takes the digest of so many blocks twice.
//! `join FRAMES BUILDS PROBES` joins so many build rows with so many probe rows, in a region of so many frames.
//! `group FRAMES KEYS ROWS` groups so many rows by so many keys, with a sum and a count; `fold FRAMES KEYS ROWS` with all five folds.
//! `full BLOCKS` puts so many blocks into a store in a file, or as many as the system lets it, and tells what stands.
#![tactic(auto)]

mod grouping;
mod joining;
mod limited;
mod rows;
mod spilling;
mod watch;

use std::{env, io};

/// The number that a word is; 0 where it is none.
fn number_given(word: Option<String>) -> u32 {
    word.and_then(|word| word.parse().ok()).unwrap_or(0)
}

fn main(rt: HostRuntime) -> io::Result<()> {
    let mut words = env::args(&rt)?.skip(1);
    let Some(what) = words.next() else {
        return Ok(());
    };
    let first = number_given(words.next());
    let second = number_given(words.next());
    let third = number_given(words.next());
    let rows = joining::Load {
        frames: first,
        builds: second,
        probes: third,
    };
    let groups = grouping::Load {
        frames: first,
        keys: second,
        rows: third,
    };
    match what.as_str() {
        "memory" => spilling::run_in_memory(&rt, first),
        "file" => spilling::run_in_file(rt, first),
        "hash" => spilling::run_hashes(&rt, first),
        "join" => joining::run(&rt, &rows),
        "group" => grouping::run_two(&rt, &groups),
        "fold" => grouping::run_five(&rt, &groups),
        "full" => limited::run(rt, first),
        _ => println!(rt; "what is to be timed is not known"),
    }
}
