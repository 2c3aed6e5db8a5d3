//! The program: one command, from the words it is given, the files of the working folder, standard input and standard output.
//! The status is that of `run`.
#![tactic(auto)]

ghost use Rattle.std.specs.Prelude.{◌≡◌, IfOk, vec_len};

mod asking;
mod command_line;
mod file_names;
#[cfg(test)]
mod grant_tests;
mod input;
mod replying;
mod run;
#[cfg(test)]
mod script_tables_tests;
#[cfg(test)]
mod tables_tests;
#[cfg(test)]
mod tests;
mod words;

use pdq_base::Memory;
use pdq_edge::{FileSpill, Folder, Reading, Writing};
pub use run::run;
use std::path::{Path, PathBuf};
use std::process::ExitCode;
use std::{env, io};

/// The status where the words cannot be had, as where they are no text.
const NO_WORDS: u8 = 64;

/// The status for want of memory.
const NO_MEMORY: u8 = 71;

/// How many stores a run is handed.
const STORES: usize = 48;

/// The words after the program's name.
fn words_given(rt: &HostRuntime) -> io::Result<Vec<String>> {
    let mut words = Vec::new(rt.alloc());
    for word in env::args(rt)?.skip(1) {
        words.push(word)?;
    }
    Ok(words)
}

/// The stores for blocks that overflow, each in a file of its own in the working folder.
fn stores_made(rt: HostRuntime) -> Result<Vec<FileSpill<HostRuntime>>, Memory>
    ensures count { IfOk result (λ stores. vec_len stores ≡ 48) }
{
    let mut stores = Vec::with_capacity(rt.alloc(), STORES).map_err(|_| Memory)?;
    let mut counter = 0;
    for _ in 0..STORES {
        let store = FileSpill::new(rt.alloc(), rt, Path::new(""), &mut counter)?;
        stores.push(store).map_err(|_| Memory)?;
    }
    Ok(stores)
}

fn main(rt: HostRuntime) -> ExitCode {
    let alloc = rt.alloc();
    let Ok(words) = words_given(&rt) else {
        return ExitCode::from(NO_WORDS);
    };
    let Ok(mut stores) = stores_made(rt) else {
        return ExitCode::from(NO_MEMORY);
    };
    let mut files = Folder::new(&rt, PathBuf::new(alloc));
    let mut source = Reading::new(rt.stdin());
    let mut sink = Writing::new(rt.stdout());
    ExitCode::from(run(
        &rt,
        alloc,
        &words,
        &mut files,
        &mut source,
        &mut sink,
        &mut stores,
    ))
}
