//! A uniform bucket draws its places in an order, no further than to the place that it needs.

ghost use Rattle.std.specs.Prelude.{◌≡◌, ℕ, ◌<◌, ◌≤◌, length, slice_index};
ghost use Rattle.std.specs.List.{range_with_len};
ghost use Rattle.rjenkins.specs.Jenkins.{hash3_of};
ghost use Rattle.buckets.specs.Limits.{max_items};
ghost use Rattle.buckets.specs.Uniform.{places_drawn, uniform_place};

use crate::limits::MAX_ITEMS;
use rjenkins::{hash3, hash3_each};

/// The places of the greatest bucket, in order.
const PLACES: [u8; MAX_ITEMS] = [
    0, 1, 2, 3, 4, 5, 6, 7, 8, 9, 10, 11, 12, 13, 14, 15, 16, 17, 18, 19, 20, 21, 22, 23, 24, 25,
    26, 27, 28, 29, 30, 31, 32, 33, 34, 35, 36, 37, 38, 39, 40, 41, 42, 43, 44, 45, 46, 47, 48, 49,
    50, 51, 52, 53, 54, 55, 56, 57, 58, 59, 60, 61, 62, 63,
];

/// The hashes of the first draws, side by side.
fn first_hashes(x: u32, id: u32) -> [u32; 4]
    ensures { (p : ℕ) → p < 4 → slice_index result p ≡ hash3_of x id p }
{
    hash3_each(x, [id; 4], [0, 1, 2, 3])
}

/// The hash of a draw: of the first draws, or its own.
fn hash_of(firsts: [u32; 4], x: u32, id: u32, p: u32) -> u32
    requires { p < 4 → slice_index firsts p ≡ hash3_of x id p }
    ensures { result ≡ hash3_of x id p }
{
    match firsts.get(p as usize) {
        Some(hash) => *hash,
        None => hash3(x, id, p),
    }
}

/// Draws the places one after another up to the one that comes to stand at `last`.
fn draw(places: &mut [u8], x: u32, id: u32, last: u32)
    requires last { last < length places.old }
    requires few { length places.old ≤ max_items }
    ensures { (i : ℕ) → i ≤ last →
        slice_index places.new i ≡ slice_index (places_drawn x id 0 (length places.old) places.old) i }
{
    let count = places.len() as u32;
    let firsts = first_hashes(x, id);
    for p in 0..last + 1 {
        let member = hash_of(firsts, x, id, p) % (count - p);
        places.swap(p as usize, (p + member) as usize);
    }
}

/// The place that a uniform bucket of `count` items picks. The first place drawn needs no others.
pub(super) fn uniform_pick(count: usize, x: u32, id: u32, r: u32) -> usize
    requires some { 0 < count }
    requires few { count ≤ max_items }
    ensures place { result ≡ uniform_place x id count r }
    ensures within { result < count }
{
    let last = r % count as u32;
    if last == 0 {
        return (hash3(x, id, 0) % count as u32) as usize;
    }
    let mut places = PLACES;
    let front = &mut places[..count];
    draw(front, x, id, last);
    usize::from(front[last as usize])
}

/// The places that a uniform bucket of `count` items picks for the replica numbers 0 to 3.
pub(super) fn uniform_picks(count: usize, x: u32, id: u32) -> [usize; 4]
    requires some { 0 < count }
    requires few { count ≤ max_items }
    ensures place { (r : ℕ) → r < 4 → slice_index result r ≡ uniform_place x id count r }
    ensures within { (r : ℕ) → r < 4 → slice_index result r < count }
{
    let mut places = PLACES;
    let front = &mut places[..count];
    draw(front, x, id, count.min(4) as u32 - 1);
    [
        usize::from(front[0]),
        usize::from(front[1 % count]),
        usize::from(front[2 % count]),
        usize::from(front[3 % count]),
    ]
}
