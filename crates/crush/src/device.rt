//! The descent to a device, by picks that are remembered where tries were many.

use crate::choose::{Draw, Picked};
use crate::placement::{Placement, Start, level_of};
use crate::remembered::Picks;
use buckets::Bucket;

impl Placement<'_> {
    ghost use Rattle.std.specs.Prelude.{◌≡◌, ◌^◌, ◌<◌, Some};
    ghost use Rattle.crush.specs.Forest.{bucket_at};
    ghost use Rattle.buckets.specs.Buckets.{IsPickable};
    ghost use Rattle.crush.specs.Remembered.{Remembers};
    ghost use Rattle.crush.specs.Placed.{world};
    ghost use Rattle.crush.specs.Descent.{item_below};
    ghost use Rattle.crush.specs.Indep.{replica_number};

    /// The device below a bucket of the forest, by its id, where each pick is remembered.
    #[inline(never)]
    fn device_again(&self, picks: &mut Picks, id: i32, start: &Bucket, draw: Draw) -> Option<Picked>
        requires within { IsPickable start.now }
        requires listed { bucket_at self.now.forest.now id ≡ Some start.now }
        requires some { 0 < draw.numrep }
        requires fits { draw.base < 2 ^ 31 }
        requires picks { Remembers (world self.now) picks.old }
        ensures value { let r = replica_number draw.numrep draw.base draw.round in
            result ≡ item_below (world self.now) r 0 start.now }
        ensures picks { Remembers (world self.now) picks.new }
    {
        let mut bucket = start;
        let mut item = picks.pick(self, id, start, draw.at(start));
        for met in 0..start.level {
            let found = self.forest.bucket(item);
            if level_of(found) == 0 {
                let r = draw.at(bucket);
                return Some(Picked { item, r });
            }
            match found {
                Some(below) => {
                    bucket = below;
                    item = picks.pick(self, item, below, draw.at(below));
                }
                None => return None,
            }
        }
        None
    }

    /// The device below a bucket of the forest, by its id, after so many tries.
    #[inline(always)]
    pub(crate) fn device(
        &self,
        picks: &mut Picks,
        id: i32,
        start: &Start,
        draw: Draw,
        tries: u8,
    ) -> Option<Picked>
        requires input { start.now.x ≡ self.now.x }
        requires listed { bucket_at self.now.forest.now id ≡ Some start.now.bucket.now }
        requires some { 0 < draw.numrep }
        requires fits { draw.base < 2 ^ 31 }
        requires picks { Remembers (world self.now) picks.old }
        ensures value { let r = replica_number draw.numrep draw.base draw.round in
            result ≡ item_below (world self.now) r 0 start.now.bucket.now }
        ensures picks { Remembers (world self.now) picks.new }
    {
        if tries < picks.free_tries {
            self.descend(start, 0, draw)
        } else {
            self.device_again(picks, id, start.bucket, draw)
        }
    }

    /// The device below a bucket of the forest, by its id, after so many tries, all picks made with one replica number.
    #[inline(always)]
    pub(crate) fn device_at(
        &self,
        picks: &mut Picks,
        id: i32,
        start: &Start,
        r: u32,
        tries: u8,
    ) -> Option<Picked>
        requires input { start.now.x ≡ self.now.x }
        requires listed { bucket_at self.now.forest.now id ≡ Some start.now.bucket.now }
        requires fits { r < 2 ^ 31 }
        requires picks { Remembers (world self.now) picks.old }
        ensures value { result ≡ item_below (world self.now) (λ _. r) 0 start.now.bucket.now }
        ensures picks { Remembers (world self.now) picks.new }
    {
        let draw = Draw {
            numrep: 1,
            base: r,
            round: 0,
        };
        self.device(picks, id, start, draw, tries)
    }
}
