//! A placement: its input, which devices are out, and the descent.

ghost use Rattle.std.specs.Prelude.{◌≡◌, IfSome};
ghost use Rattle.std.specs.Option.{option_copied, option_map_or};
ghost use Rattle.std.proofs.Props.{props};
ghost use Rattle.buckets.specs.Buckets.{IsPickable};
ghost use Rattle.buckets.specs.Pick.{AreFirstPicks};

use crate::choose::{Draw, Picked};
use crate::forest::Forest;
use crate::limits::FULL_WEIGHT;
use buckets::Bucket;
use rjenkins::hash2;

/// The type of an item, by its bucket if it is one: 0 for a device.
pub(crate) fn level_of(bucket: Option<&Bucket>) -> u8
    ensures { result ≡ option_map_or (λ b. b.level) (option_copied bucket.entry) 0 }
{
    match bucket {
        Some(bucket) => bucket.level,
        None => 0,
    }
}

/// A bucket to choose below, and what it picks for the first replica numbers.
#[derive(Clone, Copy)]
pub(crate) struct Start<'a> {
    pub bucket: &'a Bucket,
    x: u32,
    firsts: Option<[i32; 4]>,
    ghost within: { IsPickable bucket.now },
    ghost picked: { IfSome firsts (AreFirstPicks bucket.now x) } by { Prim.hlevel props },
}

impl<'a> Start<'a> {
    ghost use Rattle.std.specs.Prelude.{◌≡◌};
    ghost use Rattle.buckets.specs.Buckets.{IsPickable};
    ghost use Rattle.buckets.specs.Pick.{pick_of};

    /// The bucket, with its first picks made at once where more than one is sought.
    pub(crate) fn new(bucket: &'a Bucket, x: u32, numrep: u8) -> Self
        requires { IsPickable bucket.now }
        ensures bucket { result.bucket.now ≡ bucket.now }
        ensures input { result.x ≡ x }
    {
        let firsts = if numrep > 1 {
            bucket.first_picks(x)
        } else {
            None
        };
        Start { bucket, x, firsts }
    }

    /// The item that the bucket picks for a replica number.
    fn pick(&self, r: u32) -> i32
        ensures { result ≡ pick_of self.now.bucket.now self.now.x r }
    {
        match &self.firsts {
            Some(picks) if r < 4 => picks[r as usize],
            _ => self.bucket.pick(self.x, r),
        }
    }
}

/// What a placement goes by.
#[derive(Clone, Copy)]
pub struct Placement<'a> {
    /// The forest.
    pub forest: &'a Forest,
    /// The reweights by OSD: 65,536 for all of one and 0 for none; an OSD without one is out.
    pub weights: &'a [u32],
    /// The input.
    pub x: u32,
}

impl Placement<'_> {
    ghost use Rattle.std.specs.Prelude.{◌≡◌, ◌+◌, ◌^◌, ◌<◌, ◌≤◌, IfSome};
    ghost use Rattle.crush.specs.World.{is_out};
    ghost use Rattle.crush.specs.Placed.{world};
    ghost use Rattle.crush.specs.Descent.{item_below};
    ghost use Rattle.crush.specs.Indep.{replica_number};

    /// Whether a device is out.
    #[tactic(auto, unfolding(crate::specs::World::is_out))]
    pub(crate) fn is_out(&self, device: i32) -> bool
        ensures { result ≡ is_out (world self.now) device }
    {
        let number = device.cast_unsigned();
        let weight = self.weights.get(number as usize).copied().unwrap_or(0);
        weight < FULL_WEIGHT && weight <= hash2(self.x, number) % FULL_WEIGHT
    }

    /// The item of the wanted type below a bucket.
    #[inline(always)]
    pub(crate) fn descend(&self, start: &Start, wanted: u8, draw: Draw) -> Option<Picked>
        requires input { start.now.x ≡ self.now.x }
        requires some { 0 < draw.numrep }
        requires fits { draw.base < 2 ^ 31 }
        ensures value { let r = replica_number draw.numrep draw.base draw.round in
            result ≡ item_below (world self.now) r wanted start.now.bucket.now }
        ensures small { IfSome result (λ p. p.r ≤ draw.base + 65280) }
    {
        let base = draw.at(start.bucket);
        let first = start.pick(base);
        let mut bucket = start.bucket;
        let mut item = first;
        for met in 0..start.bucket.level {
            let found = self.forest.bucket(item);
            if level_of(found) == wanted {
                let r = draw.at(bucket);
                return Some(Picked { item, r });
            }
            match found {
                Some(below) => {
                    bucket = below;
                    item = below.pick(self.x, draw.at(below));
                }
                None => return None,
            }
        }
        None
    }

    /// The item of the wanted type below a bucket, all picks made with one replica number.
    #[inline(always)]
    pub(crate) fn descend_at(&self, start: &Start, wanted: u8, r: u32) -> Option<Picked>
        requires input { start.now.x ≡ self.now.x }
        requires fits { r < 2 ^ 31 }
        ensures { result ≡ item_below (world self.now) (λ _. r) wanted start.now.bucket.now }
    {
        let draw = Draw {
            numrep: 1,
            base: r,
            round: 0,
        };
        self.descend(start, wanted, draw)
    }
}
