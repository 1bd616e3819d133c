//! A straw2 bucket picks the item that draws the longest straw.

ghost use Rattle.std.specs.Prelude.{◌≡◌, ℕ, ◌+◌, ◌-◌, ◌^◌, ◌<◌, ◌≤◌, min, length, slice_index};
ghost use Rattle.rjenkins.specs.Jenkins.{hash3_of};
ghost use Rattle.buckets.specs.Items.{word, item_at};
ghost use Rattle.buckets.specs.Limits.{max_straws};
ghost use Rattle.buckets.specs.Straw2.{straw2_place};

use crate::bucket::Item;
use crate::pick::logarithm::{crush_ln, least_shortfall};
use rjenkins::hash3_each;

/// How many draws there are: those of the low 16 bits of a hash.
const DRAWS: u32 = 65_536;

/// How far the straw of an item that weighs nothing falls short.
const FARTHEST: u64 = 1 << 63;

/// The longest straw so far: the place of its item, and how far it falls short.
#[derive(Clone, Copy)]
pub(crate) struct Longest {
    pub place: usize,
    pub short: u64,
}

impl Longest {
    ghost use Rattle.std.specs.Prelude.{◌≡◌, ◌^◌, ◌≤◌};
    ghost use Rattle.buckets.specs.Straw2.{shortfall};
    ghost use Rattle.buckets.specs.Straws.{longer_straw};

    /// The longest one with the straw of an item more. It takes the logarithm only where that straw may be longer, and
    /// divides only where it is.
    #[tactic(auto, using(crate::proofs::Logarithms::crush_ln_small), unfolding(crate::specs::Straw2::shortfall))]
    fn with(self, place: usize, weight: u32, hash: u32) -> Longest
        requires { self.short ≤ 2 ^ 63 }
        ensures { result ≡ longer_straw self place (shortfall weight hash) }
    {
        let longer_below = u128::from(self.short) * u128::from(weight);
        if u128::from(least_shortfall(hash % DRAWS)) >= longer_below {
            return self;
        }
        let short = (1 << 48) - crush_ln(hash % DRAWS);
        if u128::from(short) < longer_below {
            Longest {
                place,
                short: short / u64::from(weight),
            }
        } else {
            self
        }
    }
}

/// The places of four items from one on: past the last one, that one again.
fn places_from(from: usize, count: usize) -> [usize; 4]
    requires some { from < count }
    requires few { count ≤ max_straws }
    ensures { (at : ℕ) → at < 4 → slice_index result at ≡ min (from + at) (count - 1) }
{
    let last = count - 1;
    [
        from,
        last.min(from + 1),
        last.min(from + 2),
        last.min(from + 3),
    ]
}

/// The hashes of the items at four places, side by side.
fn hashes_at(items: &[Item], places: [usize; 4], x: u32, r: u32) -> [u32; 4]
    requires { (at : ℕ) → at < 4 → slice_index places at < length items.now }
    ensures { (at : ℕ) → at < 4 → let place = slice_index places at in
        slice_index result at ≡ hash3_of x (word (item_at items.now place).id) r }
{
    let ids = [
        items[places[0]].id.cast_unsigned(),
        items[places[1]].id.cast_unsigned(),
        items[places[2]].id.cast_unsigned(),
        items[places[3]].id.cast_unsigned(),
    ];
    hash3_each(x, ids, [r; 4])
}

/// The place that a straw2 bucket picks. An item that is the only one needs no straw. More go by blocks of four, the
/// last of which is filled up with the last item: a straw is no longer than itself.
pub(super) fn straw2_pick(items: &[Item], x: u32, r: u32) -> usize
    requires some { 0 < length items.now }
    requires few { length items.now ≤ max_straws }
    ensures place { result ≡ straw2_place x r items.now }
    ensures within { result < length items.now }
{
    if items.len() == 1 {
        return 0;
    }
    let mut longest = Longest {
        place: 0,
        short: FARTHEST,
    };
    for block in 0..items.len().div_ceil(4) {
        let places = places_from(4 * block, items.len());
        let hashes = hashes_at(items, places, x, r);
        for at in 0..4usize {
            let place = places[at];
            longest = longest.with(place, items[place].weight, hashes[at]);
        }
    }
    longest.place
}
