//! Seats go home.
ghost use Rattle.std.specs.Prelude.{◌≡◌, ◌+◌, ◌*◌, ◌<◌, ◌≤◌, ◌++◌, ◌∷◌, [], length, vec_capacity, vec_len};
ghost use Rattle.pdq_frame.specs.Shares.{PartsView};
ghost use Rattle.pdq_seat.specs.Seating.{all_frames, laid};

use crate::seats::Seats;
use crate::values::{insert_first, last_of};
use pdq_frame::{Parts, Region};
use pdq_spill::Bench;

/// The last seat goes home.
fn home_one<Sp>(parts: &mut Parts, seats: &mut Seats<Sp>, stores: &mut Vec<Sp>)
    requires some { 0 < vec_len seats.old.benches }
    requires front_lengths { vec_len seats.old.fronts ≡ vec_len seats.old.benches }
    requires back_lengths { vec_len seats.old.backs ≡ vec_len seats.old.benches }
    requires room { vec_len stores.old + 3 ≤ vec_capacity stores.old }
    requires frames { all_frames seats.old.benches.items + parts.old.standing ≤ parts.old.frames }
    ensures stores { laid seats.new.benches.items seats.new.fronts.items seats.new.backs.items ++ stores.new.items ≡ laid seats.old.benches.items seats.old.fronts.items seats.old.backs.items ++ stores.old.items }
    ensures frames { all_frames seats.new.benches.items + parts.new.standing ≡ all_frames seats.old.benches.items + parts.old.standing }
    ensures same { parts.new.frames ≡ parts.old.frames }
    ensures capacity { vec_capacity stores.old ≤ vec_capacity stores.new }
    ensures length { vec_len stores.new ≡ vec_len stores.old + 3 }
    ensures bench_count { vec_len seats.new.benches + 1 ≡ vec_len seats.old.benches }
    ensures front_count { vec_len seats.new.fronts + 1 ≡ vec_len seats.old.fronts }
    ensures back_count { vec_len seats.new.backs + 1 ≡ vec_len seats.old.backs }
{
    let Bench { region, store } = last_of(&mut seats.benches);
    let front = last_of(&mut seats.fronts);
    let back = last_of(&mut seats.backs);
    parts.back(region);
    insert_first(stores, back);
    insert_first(stores, front);
    insert_first(stores, store);
}

/// All seats go home: their frames are one region again, and their stores stand before those that stayed.
pub fn home<Sp>(parts: Parts, seats: Seats<Sp>, stores: &mut Vec<Sp>) -> Region
    requires front_lengths { vec_len seats.fronts ≡ vec_len seats.benches }
    requires back_lengths { vec_len seats.backs ≡ vec_len seats.benches }
    requires room { vec_len stores.old + 3 * vec_len seats.benches ≤ vec_capacity stores.old }
    requires frames { all_frames seats.benches.items + parts.standing ≤ parts.frames }
    ensures stores { stores.new.items ≡ laid seats.benches.items seats.fronts.items seats.backs.items ++ stores.old.items }
    ensures frames { result.frames ≡ all_frames seats.benches.items + parts.standing }
{
    let mut parts = parts;
    let mut seats = seats;
    'homing: while seats.benches.len() > 0 {
        home_one(&mut parts, &mut seats, stores);
    }
    let Seats {
        benches,
        fronts,
        backs,
    } = seats;
    benches.destroy_empty();
    fronts.destroy_empty();
    backs.destroy_empty();
    parts.join()
}
