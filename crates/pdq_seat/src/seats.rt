//! Seats of owners.
ghost use Rattle.std.specs.Prelude.{◌≡◌, ◌+◌, ◌*◌, ◌<◌, ◌≤◌, ◌++◌, ◌∷◌, [], All, length, vec_capacity, vec_len, IfOk, IfErr, OnErr};
ghost use Rattle.pdq_frame.specs.Shares.{PartsView, still_due};
ghost use Rattle.pdq_seat.specs.Seating.{AreSeats, all_frames, laid};

use crate::values::{first_of, push_in_room};
use pdq_frame::{Parts, Region};
use pdq_spill::Bench;
use std::alloc::{AllocError, Global};

/// What the owners of a query work with, owner 0 first. They must go home.
pub struct Seats<Sp> {
    /// Of each owner its part of the region, and the store for what does not fit there.
    pub benches: Vec<Bench<Sp>>,
    /// Of each owner a store for the rows between two joins.
    pub fronts: Vec<Sp>,
    /// And another one.
    pub backs: Vec<Sp>,
}

/// Room for so many owners.
fn no_seats<Sp>(alloc: Global, owners: u32) -> Result<Seats<Sp>, AllocError>
    ensures benches { IfOk result (λ seats. (seats.benches.items ≡ []) × (owners ≤ vec_capacity seats.benches)) }
    ensures fronts { IfOk result (λ seats. (seats.fronts.items ≡ []) × (owners ≤ vec_capacity seats.fronts)) }
    ensures backs { IfOk result (λ seats. (seats.backs.items ≡ []) × (owners ≤ vec_capacity seats.backs)) }
{
    let many = owners as usize;
    let Ok(benches) = Vec::with_capacity(alloc, many) else {
        return Err(AllocError);
    };
    let Ok(fronts) = Vec::with_capacity(alloc, many) else {
        benches.destroy_empty();
        return Err(AllocError);
    };
    let Ok(backs) = Vec::with_capacity(alloc, many) else {
        benches.destroy_empty();
        fronts.destroy_empty();
        return Err(AllocError);
    };
    Ok(Seats {
        benches,
        fronts,
        backs,
    })
}

/// One seat more, over the first three stores.
fn seat_one<Sp>(region: Region, stores: &mut Vec<Sp>, seats: &mut Seats<Sp>)
    requires three { 3 ≤ length stores.old.items }
    requires benches { vec_len seats.old.benches < vec_capacity seats.old.benches }
    requires fronts { vec_len seats.old.fronts < vec_capacity seats.old.fronts }
    requires backs { vec_len seats.old.backs < vec_capacity seats.old.backs }
    requires front_lengths { length seats.old.fronts.items ≡ length seats.old.benches.items }
    requires back_lengths { length seats.old.backs.items ≡ length seats.old.benches.items }
    ensures stores { laid seats.new.benches.items seats.new.fronts.items seats.new.backs.items ++ stores.new.items ≡ laid seats.old.benches.items seats.old.fronts.items seats.old.backs.items ++ stores.old.items }
    ensures left { length stores.new.items + 3 ≡ length stores.old.items }
    ensures capacity { vec_capacity stores.new ≡ vec_capacity stores.old }
    ensures frames { all_frames seats.new.benches.items ≡ all_frames seats.old.benches.items + region.frames }
    ensures least { All (λ b. 2 ≤ b.region.frames) seats.old.benches.items → 2 ≤ region.frames → All (λ b. 2 ≤ b.region.frames) seats.new.benches.items }
    ensures bench_count { length seats.new.benches.items ≡ length seats.old.benches.items + 1 }
    ensures front_count { length seats.new.fronts.items ≡ length seats.old.fronts.items + 1 }
    ensures back_count { length seats.new.backs.items ≡ length seats.old.backs.items + 1 }
    ensures bench_room { vec_capacity seats.old.benches ≤ vec_capacity seats.new.benches }
    ensures front_room { vec_capacity seats.old.fronts ≤ vec_capacity seats.new.fronts }
    ensures back_room { vec_capacity seats.old.backs ≤ vec_capacity seats.new.backs }
{
    let store = first_of(stores);
    let front = first_of(stores);
    let back = first_of(stores);
    push_in_room(&mut seats.benches, Bench { region, store });
    push_in_room(&mut seats.fronts, front);
    push_in_room(&mut seats.backs, back);
}

/// The next part of a region.
fn next_part(parts: &mut Parts) -> Region
    requires some { parts.old.given < parts.old.parts }
    requires due { parts.old.standing ≡ still_due parts.old.frames parts.old.parts parts.old.given }
    requires enough { 2 * parts.old.parts ≤ parts.old.frames }
    ensures least { 2 ≤ result.frames }
    ensures frames { result.frames + parts.new.standing ≡ parts.old.standing }
    ensures due { parts.new.standing ≡ still_due parts.new.frames parts.new.parts parts.new.given }
    ensures given { parts.new.given ≡ parts.old.given + 1 }
    ensures same_frames { parts.new.frames ≡ parts.old.frames }
    ensures same_parts { parts.new.parts ≡ parts.old.parts }
{
    match parts.out() {
        Some(part) => part,
        None => unreachable!(),
    }
}

/// A seat for each part of a region, over the first stores.
fn seat_all<Sp>(parts: &mut Parts, owners: u32, stores: &mut Vec<Sp>, seats: &mut Seats<Sp>)
    requires owners { owners ≤ 16 }
    requires some { 1 ≤ owners }
    requires stores { length stores.old.items ≡ 48 }
    requires frames { 2 * owners ≤ parts.old.frames }
    requires parts { parts.old ≡ record { frames = parts.old.frames; parts = owners; given = 0; standing = parts.old.frames } }
    requires no_bench { seats.old.benches.items ≡ [] }
    requires no_front { seats.old.fronts.items ≡ [] }
    requires no_back { seats.old.backs.items ≡ [] }
    requires benches { owners ≤ vec_capacity seats.old.benches }
    requires fronts { owners ≤ vec_capacity seats.old.fronts }
    requires backs { owners ≤ vec_capacity seats.old.backs }
    ensures stores { laid seats.new.benches.items seats.new.fronts.items seats.new.backs.items ++ stores.new.items ≡ stores.old.items }
    ensures capacity { vec_capacity stores.new ≡ vec_capacity stores.old }
    ensures frames { all_frames seats.new.benches.items ≡ parts.old.frames }
    ensures standing { parts.new.standing ≡ 0 }
    ensures same { parts.new.frames ≡ parts.old.frames }
    ensures seats { AreSeats owners seats.new }
{
    for _owner in 0..owners {
        let part = next_part(parts);
        seat_one(part, stores, seats);
    }
}

/// Seats for so many owners, over the first stores; the others stay. Without memory the region comes back and the stores stay.
pub fn seated<Sp>(
    alloc: Global,
    region: Region,
    owners: u32,
    stores: &mut Vec<Sp>,
) -> Result<(Parts, Seats<Sp>), Region>
    requires some { 1 ≤ owners }
    requires owners { owners ≤ 16 }
    requires stores { length stores.old.items ≡ 48 }
    requires frames { 2 * owners ≤ region.frames }
    ensures stores { IfOk result (λ r. laid r.1.benches.items r.1.fronts.items r.1.backs.items ++ stores.new.items ≡ stores.old.items) }
    ensures capacity { vec_capacity stores.new ≡ vec_capacity stores.old }
    ensures frames { IfOk result (λ r. all_frames r.1.benches.items ≡ region.frames) }
    ensures standing { IfOk result (λ r. r.0.standing ≡ 0) }
    ensures parts { IfOk result (λ r. r.0.frames ≡ region.frames) }
    ensures seats { IfOk result (λ r. AreSeats owners r.1) }
    ensures back { IfErr result (λ back. back ≡ region) }
    ensures kept { OnErr result (stores.new.items ≡ stores.old.items) }
{
    let Ok(mut seats) = no_seats(alloc, owners) else {
        return Err(region);
    };
    match region.split(owners) {
        Ok(mut parts) => {
            seat_all(&mut parts, owners, stores, &mut seats);
            Ok((parts, seats))
        }
        Err(region) => {
            let Seats {
                benches,
                fronts,
                backs,
            } = seats;
            benches.destroy_empty();
            fronts.destroy_empty();
            backs.destroy_empty();
            Err(region)
        }
    }
}
