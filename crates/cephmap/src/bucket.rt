//! Buckets of the CRUSH map, and places that may be empty.

ghost use Rattle.std.specs.Prelude.{◌≡◌, ℕ};
ghost use Rattle.cephbytes.specs.Encoding.{Gives};
ghost use Rattle.cephmap.specs.Buckets.{weighed, weights_of, bucket, held, slot};

use cephbytes::{FromBytes, Listed, ReadError, Refused, entries_at};
use std::alloc::Global;

/// The weight of an item, in units of 1/65,536, and what was made of it.
#[derive(Clone, Copy, Debug, PartialEq, Eq)]
pub struct Weighed {
    /// The weight.
    pub weight: u32,
    /// In a list bucket the sum of the weights so far, in a straw bucket the length of the straw.
    pub made: u32,
}

impl FromBytes for Weighed {
    const LEAST: u32 = 8;

    ghost LEAST = { 8 };

    ghost form = { weighed };

    #[tactic(auto, unfolding(crate::specs::Buckets::weighed))]
    fn read(alloc: Global, bytes: &[u8]) -> Result<(Weighed, &[u8]), ReadError> {
        let (weight, rest) = u32::read(alloc, bytes)?;
        let (made, rest) = u32::read(alloc, rest)?;
        Ok((Weighed { weight, made }, rest))
    }
}

/// How a bucket picks, and the weights by which it does, in units of 1/65,536.
#[derive(Debug, Drop)]
pub enum Weights {
    /// Each item has this weight.
    Uniform(u32),
    /// The items of a list.
    List(Listed<Weighed>),
    /// The nodes of a tree. The item at place `i` is node `2 i + 1`.
    Tree(Listed<u32>),
    /// Straws.
    Straw(Listed<Weighed>),
    /// Straws whose lengths hang on no other item.
    Straw2(Listed<u32>),
}

/// The weights of `size` items, by the number of their bucket's kind.
#[tactic(auto, unfolding(crate::specs::Buckets::weights_of))]
fn weights_at(
    alloc: Global,
    kind: u8,
    size: u32,
    bytes: &[u8],
) -> Result<(Weights, &[u8]), ReadError>
    ensures { Gives (λ x. (x.0, x.1.now)) result (weights_of kind size bytes.now) }
{
    match kind {
        1 => {
            let (weight, rest) = u32::read(alloc, bytes)?;
            Ok((Weights::Uniform(weight), rest))
        }
        2 => {
            let (all, rest) = entries_at::<Weighed>(alloc, size, bytes)?;
            Ok((Weights::List(all), rest))
        }
        3 => {
            let (nodes, rest) = u8::read(alloc, bytes)?;
            let (all, rest) = entries_at::<u32>(alloc, nodes as u32, rest)?;
            Ok((Weights::Tree(all), rest))
        }
        4 => {
            let (all, rest) = entries_at::<Weighed>(alloc, size, bytes)?;
            Ok((Weights::Straw(all), rest))
        }
        5 => {
            let (all, rest) = entries_at::<u32>(alloc, size, bytes)?;
            Ok((Weights::Straw2(all), rest))
        }
        _ => Err(ReadError::Refused(Refused::Unknown)),
    }
}

/// A bucket.
#[derive(Debug, Drop)]
pub struct Bucket {
    /// Its id.
    pub id: i32,
    /// The number of its type.
    pub level: u16,
    /// How it hashes: 0 is rjenkins.
    pub hash: u8,
    /// Its own weight, in units of 1/65,536.
    pub weight: u32,
    /// Its items: devices, and buckets below 0.
    pub items: Listed<i32>,
    /// How it picks.
    pub weights: Weights,
}

impl FromBytes for Bucket {
    const LEAST: u32 = 16;

    ghost LEAST = { 16 };

    ghost form = { bucket };

    #[tactic(auto, unfolding(crate::specs::Buckets::bucket))]
    fn read(alloc: Global, bytes: &[u8]) -> Result<(Bucket, &[u8]), ReadError> {
        let (id, rest) = i32::read(alloc, bytes)?;
        let (level, rest) = u16::read(alloc, rest)?;
        let (kind, rest) = u8::read(alloc, rest)?;
        let (hash, rest) = u8::read(alloc, rest)?;
        let (weight, rest) = u32::read(alloc, rest)?;
        let (size, rest) = u32::read(alloc, rest)?;
        let (items, rest) = entries_at::<i32>(alloc, size, rest)?;
        let (weights, rest) = weights_at(alloc, kind, size, rest)?;
        Ok((
            Bucket {
                id,
                level,
                hash,
                weight,
                items,
                weights,
            },
            rest,
        ))
    }
}

/// A place that may be empty.
#[derive(Debug, Drop)]
pub struct Slot<T> {
    /// What stands there.
    pub holds: Option<T>,
}

/// What stands in a place, if a number is not 0.
fn held<T: FromBytes>(
    alloc: Global,
    number: u32,
    bytes: &[u8],
) -> Result<(Slot<T>, &[u8]), ReadError>
    ensures { Gives (λ x. (x.0, x.1.now)) result (held T.form number bytes.now) }
{
    if number == 0 {
        return Ok((Slot { holds: None }, bytes));
    }
    let (thing, rest) = T::read(alloc, bytes)?;
    Ok((Slot { holds: Some(thing) }, rest))
}

impl<T: FromBytes> FromBytes for Slot<T> {
    const LEAST: u32 = 4;

    ghost LEAST = { 4 };

    ghost form = { slot T.form };

    #[tactic(auto, unfolding(crate::specs::Buckets::slot))]
    fn read(alloc: Global, bytes: &[u8]) -> Result<(Slot<T>, &[u8]), ReadError> {
        let (number, rest) = u32::read(alloc, bytes)?;
        held(alloc, number, rest)
    }
}
