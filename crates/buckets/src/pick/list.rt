//! A list bucket picks the last item that wins its draw.

ghost use Rattle.std.specs.Prelude.{◌≡◌, ℕ, ◌+◌, ◌*◌, ◌/◌, ◌%◌, ◌^◌, ◌<◌, ◌≤◌, length, nat_lt, slice_index};
ghost use Rattle.rjenkins.specs.Jenkins.{hash4_of};
ghost use Rattle.buckets.specs.Items.{word, weight_of, item_at};
ghost use Rattle.buckets.specs.Listed.{list_place};

use crate::bucket::Item;
use crate::pick::total_weight;
use rjenkins::{hash4, hash4_each};

/// How many draws there are: those of the low 16 bits of a hash.
const DRAWS: u32 = 65_536;

/// Whether an item with this hash wins its draw against `upto`, the weight up to and with it.
fn wins_draw(item: Item, hash: u32, upto: u32) -> bool
    ensures { result ≡ nat_lt (hash % 2 ^ 16 * upto / 2 ^ 16) item.weight }
{
    u64::from(hash % DRAWS) * u64::from(upto) / u64::from(DRAWS) < u64::from(item.weight)
}

/// The hash of an item.
fn hash_of(item: Item, x: u32, id: u32, r: u32) -> u32
    ensures { result ≡ hash4_of x (word item.id) r id }
{
    hash4(x, item.id.cast_unsigned(), r, id)
}

/// The hashes of the four items from a place on, side by side.
fn hashes_from(items: &[Item], from: usize, x: u32, id: u32, r: u32) -> [u32; 4]
    requires { from + 4 ≤ length items.now }
    ensures { (at : ℕ) → at < 4 → slice_index result at ≡ hash4_of x (word (item_at items.now (from + at)).id) r id }
{
    let ids = [
        items[from].id.cast_unsigned(),
        items[from + 1].id.cast_unsigned(),
        items[from + 2].id.cast_unsigned(),
        items[from + 3].id.cast_unsigned(),
    ];
    hash4_each(x, ids, [r; 4], id)
}

/// The place that a list bucket picks. It goes by blocks of four from the end; the first place needs no draw.
pub(super) fn list_pick(items: &[Item], x: u32, id: u32, r: u32) -> usize
    requires some { 0 < length items.now }
    requires weight { weight_of items.now < 2 ^ 32 }
    ensures place { result ≡ list_place x id r items.now }
    ensures within { result < length items.now }
{
    let mut upto = total_weight(items);
    let head = items.len() % 4;
    for block in (0..items.len() / 4).rev() {
        let from = head + 4 * block;
        let hashes = hashes_from(items, from, x, id, r);
        for at in (0..4).rev() {
            let item = items[from + at];
            if wins_draw(item, hashes[at], upto) {
                return from + at;
            }
            upto -= item.weight;
        }
    }
    for place in (1..head).rev() {
        let item = items[place];
        if wins_draw(item, hash_of(item, x, id, r), upto) {
            return place;
        }
        upto -= item.weight;
    }
    0
}
