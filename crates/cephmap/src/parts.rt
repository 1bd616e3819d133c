//! Small parts that stand in many places.

ghost use Rattle.std.specs.Prelude.{◌≡◌, ℕ};
ghost use Rattle.cephbytes.specs.Encoding.{seen, taken};
ghost use Rattle.cephmap.specs.Parts.{fsid, name, setting, settings, interval, snapshot};

use cephbytes::{FromBytes, Listed, ReadError, Refused, Text, section_at};
use std::alloc::Global;

/// A cluster's id: a UUID, its first byte first.
#[derive(Clone, Copy, Debug, PartialEq, Eq)]
pub struct Fsid {
    /// Its bytes.
    pub bytes: [u8; 16],
}

/// Sixteen bytes, and those behind them.
fn sixteen_at(bytes: &[u8]) -> Result<([u8; 16], &[u8]), Refused>
    ensures { seen (λ x. (x.0, x.1.now)) result ≡ taken 16 bytes.now }
{
    if bytes.len() < 16 {
        return Err(Refused::Short);
    }
    let (front, rest) = bytes.split_at(16);
    let mut sixteen = [0; 16];
    sixteen.copy_from_slice(front);
    Ok((sixteen, rest))
}

impl FromBytes for Fsid {
    const LEAST: u32 = 16;

    ghost LEAST = { 16 };

    ghost form = { fsid };

    #[tactic(auto, unfolding(crate::specs::Parts::fsid))]
    fn read(_alloc: Global, bytes: &[u8]) -> Result<(Fsid, &[u8]), ReadError> {
        let (bytes, rest) = sixteen_at(bytes)?;
        Ok((Fsid { bytes }, rest))
    }
}

/// A name, and what has it: a type of buckets, a device or a bucket, a rule, or a class of devices.
#[derive(Debug, Drop)]
pub struct Name {
    /// The number of what has it.
    pub id: i32,
    /// The name.
    pub name: Text,
}

impl FromBytes for Name {
    const LEAST: u32 = 8;

    ghost LEAST = { 8 };

    ghost form = { name };

    #[tactic(auto, unfolding(crate::specs::Parts::name))]
    fn read(alloc: Global, bytes: &[u8]) -> Result<(Name, &[u8]), ReadError> {
        let (id, rest) = i32::read(alloc, bytes)?;
        let (name, rest) = Text::read(alloc, rest)?;
        Ok((Name { id, name }, rest))
    }
}

/// A key and its value.
#[derive(Debug, Drop)]
pub struct Setting {
    /// The key.
    pub key: Text,
    /// The value.
    pub value: Text,
}

impl FromBytes for Setting {
    const LEAST: u32 = 8;

    ghost LEAST = { 8 };

    ghost form = { setting };

    #[tactic(auto, unfolding(crate::specs::Parts::setting))]
    fn read(alloc: Global, bytes: &[u8]) -> Result<(Setting, &[u8]), ReadError> {
        let (key, rest) = Text::read(alloc, bytes)?;
        let (value, rest) = Text::read(alloc, rest)?;
        Ok((Setting { key, value }, rest))
    }
}

/// Settings under a name, as those of a profile.
#[derive(Debug, Drop)]
pub struct Settings {
    /// The name.
    pub name: Text,
    /// The settings.
    pub settings: Listed<Setting>,
}

impl FromBytes for Settings {
    const LEAST: u32 = 8;

    ghost LEAST = { 8 };

    ghost form = { settings };

    #[tactic(auto, unfolding(crate::specs::Parts::settings))]
    fn read(alloc: Global, bytes: &[u8]) -> Result<(Settings, &[u8]), ReadError> {
        let (name, rest) = Text::read(alloc, bytes)?;
        let (settings, rest) = Listed::<Setting>::read(alloc, rest)?;
        Ok((Settings { name, settings }, rest))
    }
}

/// Numbers of snapshots that are removed.
#[derive(Debug, Drop)]
pub(crate) struct Interval {
    /// The first.
    first: u64,
    /// How many.
    length: u64,
}

impl FromBytes for Interval {
    const LEAST: u32 = 16;

    ghost LEAST = { 16 };

    ghost form = { interval };

    #[tactic(auto, unfolding(crate::specs::Parts::interval))]
    fn read(alloc: Global, bytes: &[u8]) -> Result<(Interval, &[u8]), ReadError> {
        let (first, rest) = u64::read(alloc, bytes)?;
        let (length, rest) = u64::read(alloc, rest)?;
        Ok((Interval { first, length }, rest))
    }
}

/// A snapshot, of which only the number is told.
#[derive(Debug, Drop)]
pub(crate) struct Snapshot {
    /// Its number.
    id: u64,
}

impl FromBytes for Snapshot {
    const LEAST: u32 = 14;

    ghost LEAST = { 14 };

    ghost form = { snapshot };

    #[tactic(auto, unfolding(crate::specs::Parts::snapshot))]
    fn read(alloc: Global, bytes: &[u8]) -> Result<(Snapshot, &[u8]), ReadError> {
        let (id, rest) = u64::read(alloc, bytes)?;
        let (_, rest) = section_at(rest, 255)?;
        Ok((Snapshot { id }, rest))
    }
}
