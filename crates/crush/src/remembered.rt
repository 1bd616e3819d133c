//! The picks that a run of a rule remembers, so that tries in vain make none twice.

use crate::placement::Placement;
use buckets::Bucket;

/// How many picks are remembered at most.
pub(crate) const PLACES: usize = 32_768;

/// How many tries for a leaf, or rounds, there are before picks are remembered.
pub(crate) const FREE_TRIES: u8 = 8;

/// How many places lie between those of two buckets with ids side by side.
const STRIDE: u64 = 2_341;

/// A pick that is remembered: which bucket, with which replica number, and the item.
#[derive(Clone, Copy, Debug)]
pub(crate) struct Remembered {
    pub bucket: i32,
    pub r: u32,
    pub item: i32,
}

/// After how many tries for a leaf picks are remembered, and the picks that are, if they are: each at its place. Where
/// two have one place, the last one stays.
#[derive(Debug, Drop)]
pub(crate) struct Picks {
    pub free_tries: u8,
    pub is_on: bool,
    pub by_place: Vec<Option<Remembered>>,
}

/// The place of a pick.
fn place_of(bucket: i32, r: u32) -> usize {
    let number = u64::from((!bucket).cast_unsigned());
    ((number * STRIDE + u64::from(r)) % PLACES as u64) as usize
}

impl Picks {
    ghost use Rattle.std.specs.Prelude.{◌≡◌, Some, IfSome};
    ghost use Rattle.buckets.specs.declared.bucket.Bucket.{Bucket};
    ghost use Rattle.crush.specs.Forest.{bucket_at};
    ghost use Rattle.buckets.specs.Buckets.{IsPickable};
    ghost use Rattle.buckets.specs.Pick.{pick_of};
    ghost use Rattle.crush.specs.Placed.{world};
    ghost use Rattle.crush.specs.Remembered.{IsPick, Remembers};
    ghost use Rattle.crush.specs.World.{World};

    /// Remembers nothing from here on.
    #[tactic(auto, unfolding(crate::specs::Remembered::Remembers))]
    pub(crate) fn forget(&mut self)
        ensures { (w : World) → Remembers w self.new }
    {
        self.free_tries = FREE_TRIES;
        self.is_on = false;
    }

    /// Remembers each pick from here on. It takes no memory where the room is there.
    #[cold]
    #[inline(never)]
    #[tactic(auto, unfolding(crate::specs::Remembered::Remembers))]
    fn begin(&mut self)
        ensures { (w : World) → Remembers w self.new }
    {
        self.free_tries = 0;
        self.by_place.clear();
        self.is_on = self.by_place.resize(PLACES, None).is_ok();
    }

    /// Remembers picks from here on, if it does not yet.
    fn start_remembering(&mut self)
        ensures { (w : World) → Remembers w self.old → Remembers w self.new }
    {
        if !self.is_on {
            self.begin();
        }
    }

    /// After so many rounds each later pick for a leaf is remembered, if they are many.
    #[inline(always)]
    #[tactic(auto, unfolding(crate::specs::Remembered::Remembers))]
    pub(crate) fn note_rounds(&mut self, rounds: u8)
        ensures { (w : World) → Remembers w self.old → Remembers w self.new }
    {
        if rounds >= FREE_TRIES {
            self.free_tries = 0;
        }
    }

    /// The item that is remembered of a bucket and a replica number.
    #[tactic(auto, unfolding(crate::specs::Remembered::Remembers))]
    fn known(&self, bucket: i32, r: u32) -> Option<i32>
        ensures { IfSome result (λ item. (w : World) → Remembers w self.now →
            (b : Bucket) → bucket_at w.buckets bucket ≡ Some b → item ≡ pick_of b w.x r) }
    {
        if !self.is_on {
            return None;
        }
        match self.by_place.get(place_of(bucket, r)) {
            Some(Some(pick)) if pick.bucket == bucket && pick.r == r => Some(pick.item),
            _ => None,
        }
    }

    /// Remembers a pick.
    #[tactic(auto, unfolding(crate::specs::Remembered::Remembers))]
    fn keep(&mut self, pick: Remembered)
        ensures { (w : World) → IsPick w pick → Remembers w self.old → Remembers w self.new }
    {
        let place = place_of(pick.bucket, pick.r);
        if place < self.by_place.len() {
            self.by_place[place] = Some(pick);
        }
    }

    /// The item that a bucket of the forest picks for a replica number, by its id: as it is remembered, or picked and
    /// remembered.
    pub(crate) fn pick(&mut self, placement: &Placement, id: i32, bucket: &Bucket, r: u32) -> i32
        requires within { IsPickable bucket.now }
        requires listed { bucket_at placement.now.forest.now id ≡ Some bucket.now }
        requires picks { Remembers (world placement.now) self.old }
        ensures value { result ≡ pick_of bucket.now placement.now.x r }
        ensures picks { Remembers (world placement.now) self.new }
    {
        self.start_remembering();
        if let Some(item) = self.known(id, r) {
            return item;
        }
        let item = bucket.pick(placement.x, r);
        self.keep(Remembered {
            bucket: id,
            r,
            item,
        });
        item
    }
}
