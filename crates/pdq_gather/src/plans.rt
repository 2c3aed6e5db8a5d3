//! How rows go to owners.
ghost use Rattle.std.specs.Prelude.{◌≡◌, ◌<◌, ◌≤◌, IfOk, length};
ghost use Rattle.std.specs.List.{range_with_len};

use pdq_base::Memory;
use pdq_exchange::Wave;
use std::alloc::Global;

/// The first places of a row.
fn places(alloc: Global, count: u32) -> Result<Vec<u32>, Memory>
    ensures { IfOk result (λ places. places.items ≡ range_with_len 0 count) }
{
    let mut places = Vec::new(alloc);
    'counting: for place in 0..count {
        let Ok(()) = places.push(place) else {
            return Err(Memory);
        };
    }
    Ok(places)
}

/// Rows of these lanes go to owners by their first words, so many of them.
pub(crate) fn plan_by_first(
    alloc: Global,
    lanes: u32,
    width: u32,
    keys: u32,
) -> Result<Wave, Memory>
    requires low { 1 ≤ width }
    requires high { width ≤ 511 }
    requires keys { keys ≤ width }
    ensures { IfOk result (λ wave. (wave.width ≡ width) × (wave.keys ≡ range_with_len 0 keys) × (length wave.given ≡ lanes)) }
{
    let places = places(alloc, keys)?;
    Wave::new(alloc, lanes, width, &places)
}
