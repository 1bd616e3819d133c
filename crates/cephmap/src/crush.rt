//! The CRUSH map.

ghost use Rattle.std.specs.Prelude.{◌≡◌, ℕ};
ghost use Rattle.cephbytes.specs.Encoding.{seen};
ghost use Rattle.cephmap.specs.Crush.{names, tunables, device_class, shadow, shadow_trees, classes, bucket_weights, weight_set, magic, crush};

use crate::bucket::{Bucket, Slot};
use crate::parts::Name;
use crate::rule::Rule;
use cephbytes::{FromBytes, Listed, ReadError, Refused, end_at, entries_at};
use std::alloc::Global;

/// The names of a CRUSH map.
#[derive(Debug, Drop)]
pub struct Names {
    /// Of types of buckets.
    pub types: Listed<Name>,
    /// Of devices and buckets.
    pub items: Listed<Name>,
    /// Of rules.
    pub rules: Listed<Name>,
}

impl FromBytes for Names {
    const LEAST: u32 = 12;

    ghost LEAST = { 12 };

    ghost form = { names };

    #[tactic(auto, unfolding(crate::specs::Crush::names))]
    fn read(alloc: Global, bytes: &[u8]) -> Result<(Names, &[u8]), ReadError> {
        let (types, rest) = Listed::<Name>::read(alloc, bytes)?;
        let (items, rest) = Listed::<Name>::read(alloc, rest)?;
        let (rules, rest) = Listed::<Name>::read(alloc, rest)?;
        Ok((
            Names {
                types,
                items,
                rules,
            },
            rest,
        ))
    }
}

/// The tunables of a CRUSH map.
#[derive(Clone, Copy, Debug, PartialEq, Eq)]
pub struct Tunables {
    /// How often a choice is tried again in the same bucket.
    pub choose_local_tries: u32,
    /// The same by a permutation.
    pub choose_local_fallback_tries: u32,
    /// How often a choice is tried in all, less one.
    pub choose_total_tries: u32,
    /// Whether the choice of a device is tried once alone.
    pub chooseleaf_descend_once: u32,
    /// By what the tries of a bucket shift those of a device below it.
    pub chooseleaf_vary_r: u8,
    /// How straws are made of weights.
    pub straw_calc_version: u8,
    /// The kinds of buckets that may be made, a bit for each.
    pub allowed_bucket_kinds: u32,
    /// Whether the choice of a device hangs on no other.
    pub chooseleaf_stable: u8,
}

impl FromBytes for Tunables {
    const LEAST: u32 = 23;

    ghost LEAST = { 23 };

    ghost form = { tunables };

    #[tactic(auto, unfolding(crate::specs::Crush::tunables))]
    fn read(alloc: Global, bytes: &[u8]) -> Result<(Tunables, &[u8]), ReadError> {
        let (choose_local_tries, rest) = u32::read(alloc, bytes)?;
        let (choose_local_fallback_tries, rest) = u32::read(alloc, rest)?;
        let (choose_total_tries, rest) = u32::read(alloc, rest)?;
        let (chooseleaf_descend_once, rest) = u32::read(alloc, rest)?;
        let (chooseleaf_vary_r, rest) = u8::read(alloc, rest)?;
        let (straw_calc_version, rest) = u8::read(alloc, rest)?;
        let (allowed_bucket_kinds, rest) = u32::read(alloc, rest)?;
        let (chooseleaf_stable, rest) = u8::read(alloc, rest)?;
        let tunables = Tunables {
            choose_local_tries,
            choose_local_fallback_tries,
            choose_total_tries,
            chooseleaf_descend_once,
            chooseleaf_vary_r,
            straw_calc_version,
            allowed_bucket_kinds,
            chooseleaf_stable,
        };
        Ok((tunables, rest))
    }
}

/// A device and its class.
#[derive(Clone, Copy, Debug, PartialEq, Eq)]
pub struct DeviceClass {
    /// The id of the device.
    pub device: i32,
    /// The number of the class.
    pub class: i32,
}

impl FromBytes for DeviceClass {
    const LEAST: u32 = 8;

    ghost LEAST = { 8 };

    ghost form = { device_class };

    #[tactic(auto, unfolding(crate::specs::Crush::device_class))]
    fn read(alloc: Global, bytes: &[u8]) -> Result<(DeviceClass, &[u8]), ReadError> {
        let (device, rest) = i32::read(alloc, bytes)?;
        let (class, rest) = i32::read(alloc, rest)?;
        Ok((DeviceClass { device, class }, rest))
    }
}

/// What stands for a bucket where devices of one class are wanted.
#[derive(Clone, Copy, Debug, PartialEq, Eq)]
pub struct Shadow {
    /// The number of the class.
    pub class: i32,
    /// The id of the bucket that stands for it.
    pub bucket: i32,
}

impl FromBytes for Shadow {
    const LEAST: u32 = 8;

    ghost LEAST = { 8 };

    ghost form = { shadow };

    #[tactic(auto, unfolding(crate::specs::Crush::shadow))]
    fn read(alloc: Global, bytes: &[u8]) -> Result<(Shadow, &[u8]), ReadError> {
        let (class, rest) = i32::read(alloc, bytes)?;
        let (bucket, rest) = i32::read(alloc, rest)?;
        Ok((Shadow { class, bucket }, rest))
    }
}

/// A bucket and what stands for it, class by class.
#[derive(Debug, Drop)]
pub struct ShadowTrees {
    /// The id of the bucket.
    pub bucket: i32,
    /// What stands for it.
    pub shadows: Listed<Shadow>,
}

impl FromBytes for ShadowTrees {
    const LEAST: u32 = 8;

    ghost LEAST = { 8 };

    ghost form = { shadow_trees };

    #[tactic(auto, unfolding(crate::specs::Crush::shadow_trees))]
    fn read(alloc: Global, bytes: &[u8]) -> Result<(ShadowTrees, &[u8]), ReadError> {
        let (bucket, rest) = i32::read(alloc, bytes)?;
        let (shadows, rest) = Listed::<Shadow>::read(alloc, rest)?;
        Ok((ShadowTrees { bucket, shadows }, rest))
    }
}

/// Classes of devices.
#[derive(Debug, Drop)]
pub struct Classes {
    /// The class of each device that has one.
    pub devices: Listed<DeviceClass>,
    /// The names of classes.
    pub names: Listed<Name>,
    /// What stands for buckets, class by class.
    pub shadows: Listed<ShadowTrees>,
}

impl FromBytes for Classes {
    const LEAST: u32 = 12;

    ghost LEAST = { 12 };

    ghost form = { classes };

    #[tactic(auto, unfolding(crate::specs::Crush::classes))]
    fn read(alloc: Global, bytes: &[u8]) -> Result<(Classes, &[u8]), ReadError> {
        let (devices, rest) = Listed::<DeviceClass>::read(alloc, bytes)?;
        let (names, rest) = Listed::<Name>::read(alloc, rest)?;
        let (shadows, rest) = Listed::<ShadowTrees>::read(alloc, rest)?;
        Ok((
            Classes {
                devices,
                names,
                shadows,
            },
            rest,
        ))
    }
}

/// What a weight set has in place of a bucket's own weights and items.
#[derive(Debug, Drop)]
pub struct BucketWeights {
    /// The bucket has the id -1 less this.
    pub place: u32,
    /// The weights of its items, in units of 1/65,536, for the first choice, the second, and so on; the last for all
    /// others.
    pub weights: Listed<Listed<u32>>,
    /// The ids by which its items are drawn; none where these are their own.
    pub ids: Listed<i32>,
}

impl FromBytes for BucketWeights {
    const LEAST: u32 = 12;

    ghost LEAST = { 12 };

    ghost form = { bucket_weights };

    #[tactic(auto, unfolding(crate::specs::Crush::bucket_weights))]
    fn read(alloc: Global, bytes: &[u8]) -> Result<(BucketWeights, &[u8]), ReadError> {
        let (place, rest) = u32::read(alloc, bytes)?;
        let (weights, rest) = Listed::<Listed<u32>>::read(alloc, rest)?;
        let (ids, rest) = Listed::<i32>::read(alloc, rest)?;
        Ok((
            BucketWeights {
                place,
                weights,
                ids,
            },
            rest,
        ))
    }
}

/// A weight set (`choose_args`).
#[derive(Debug, Drop)]
pub struct WeightSet {
    /// The id of its pool; -1 for all pools that have none of their own.
    pub pool: i64,
    /// What it has for buckets.
    pub buckets: Listed<BucketWeights>,
}

impl FromBytes for WeightSet {
    const LEAST: u32 = 12;

    ghost LEAST = { 12 };

    ghost form = { weight_set };

    #[tactic(auto, unfolding(crate::specs::Crush::weight_set))]
    fn read(alloc: Global, bytes: &[u8]) -> Result<(WeightSet, &[u8]), ReadError> {
        let (pool, rest) = i64::read(alloc, bytes)?;
        let (buckets, rest) = Listed::<BucketWeights>::read(alloc, rest)?;
        Ok((WeightSet { pool, buckets }, rest))
    }
}

/// A CRUSH map.
#[derive(Debug, Drop)]
pub struct Crush {
    /// Devices have ids below this.
    pub max_devices: u32,
    /// The buckets, each in the place of -1 less its id.
    pub buckets: Listed<Slot<Bucket>>,
    /// The rules, each in the place of its id.
    pub rules: Listed<Slot<Rule>>,
    /// Its names.
    pub names: Names,
    /// Its tunables.
    pub tunables: Tunables,
    /// Its classes of devices.
    pub classes: Classes,
    /// Its weight sets.
    pub weight_sets: Listed<WeightSet>,
}

/// Answers `Ok` where a number is the one by which a CRUSH map begins.
fn magic(number: u32) -> Result<(), Refused>
    ensures { seen (λ _. tt) result ≡ magic number }
{
    if number == 65_536 {
        Ok(())
    } else {
        Err(Refused::Unknown)
    }
}

impl FromBytes for Crush {
    const LEAST: u32 = 67;

    ghost LEAST = { 67 };

    ghost form = { crush };

    #[tactic(auto, unfolding(crate::specs::Crush::crush))]
    fn read(alloc: Global, bytes: &[u8]) -> Result<(Crush, &[u8]), ReadError> {
        let (first, rest) = u32::read(alloc, bytes)?;
        magic(first)?;
        let (max_buckets, rest) = u32::read(alloc, rest)?;
        let (max_rules, rest) = u32::read(alloc, rest)?;
        let (max_devices, rest) = u32::read(alloc, rest)?;
        let (buckets, rest) = entries_at::<Slot<Bucket>>(alloc, max_buckets, rest)?;
        let (rules, rest) = entries_at::<Slot<Rule>>(alloc, max_rules, rest)?;
        let (names, rest) = Names::read(alloc, rest)?;
        let (tunables, rest) = Tunables::read(alloc, rest)?;
        let (classes, rest) = Classes::read(alloc, rest)?;
        let (weight_sets, rest) = Listed::<WeightSet>::read(alloc, rest)?;
        end_at(rest)?;
        let crush = Crush {
            max_devices,
            buckets,
            rules,
            names,
            tunables,
            classes,
            weight_sets,
        };
        Ok((crush, rest))
    }
}
