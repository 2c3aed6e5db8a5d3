//! How rows go from lanes to desks.
ghost use Rattle.std.specs.Prelude.{◌≡◌, ◌<◌, ◌≤◌, All, IfOk, length};

use crate::load::Load;
use pdq_base::Memory;
use std::alloc::Global;
use std::marker::Model;
use std::num::NonZeroUsize;
use std::thread::{Threads, available_parallelism};

/// What a round of an exchange needs beside its lanes and desks: the places of the key words, and a batch for each lane's rows on their way. It
/// serves any number of rounds.
#[derive(Drop)]
pub struct Wave {
    pub(crate) loads: Vec<Load>,
    pub(crate) keys: Vec<u32>,
    pub(crate) width: u32,
    pub(crate) processors: Option<usize>,
}

impl Model for Wave {
    ghost use Rattle.pdq_exchange.specs.Loads.{rows_given, IsWave};
    ghost use Rattle.pdq_exchange.specs.Waves.{WaveView};

    ghost Value = { WaveView };

    ghost view = { λ w. record { width = w.width; keys = w.keys.items; given = rows_given w.loads.items } };

    ghost invariant = { λ w. IsWave w.width w.keys.items w.loads.items };
}

impl Wave {
    /// A wave between so many lanes and any desks, over rows of this width, whose keys are the words at these places. With no place all rows go to
    /// one owner. All memory of later rounds is taken here.
    pub fn new(alloc: Global, lanes: u32, width: u32, keys: &[u32]) -> Result<Wave, Memory>
        requires low { 1 ≤ width }
        requires high { width ≤ 511 }
        requires keys { All (λ k. k < width) keys.now }
        ensures { IfOk result (λ wave. (wave.width ≡ width) × (wave.keys ≡ keys.now) × (length wave.given ≡ lanes)) }
    {
        let Ok(copied) = keys.to_vec(alloc) else {
            return Err(Memory);
        };
        let loads = loads_of(alloc, lanes, width)?;
        Ok(Wave {
            loads,
            keys: copied,
            width,
            processors: None,
        })
    }
}

/// The most threads that a half of a round may keep busy: as many as there are processors, which is asked once, and two at least, so that two
/// scanners never wait for each other.
pub(crate) fn threads_for<R: Threads>(rt: &R, processors: &mut Option<usize>) -> usize
    ensures { 2 ≤ result }
{
    let count = match *processors {
        Some(count) => count,
        None => available_parallelism(rt).map_or(2, NonZeroUsize::get),
    };
    *processors = Some(count);
    count.max(2)
}

/// So many loads with no rows, of this width.
fn loads_of(alloc: Global, lanes: u32, width: u32) -> Result<Vec<Load>, Memory>
    requires low { 1 ≤ width }
    requires high { width ≤ 511 }
    ensures count { IfOk result (λ loads. length loads.items ≡ lanes) }
    ensures widths { IfOk result (λ loads. All (λ load. load.batch.width ≡ width) loads.items) }
{
    let mut loads = Vec::new(alloc);
    for _lane in 0..lanes {
        let load = Load::new(alloc, width)?;
        let Ok(()) = loads.push(load) else {
            return Err(Memory);
        };
    }
    Ok(loads)
}
