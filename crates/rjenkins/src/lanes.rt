//! The hashes of three and of four words, four side by side: less than twice the work of one.

ghost use Rattle.std.specs.Prelude.{◌≡◌, ℕ, ◌/◌, ◌^◌, ◌<◌, bit_xor, slice_index};
ghost use Rattle.rjenkins.specs.Jenkins.{minus, shifted_left, seed, third, mixed, hash3_of, hash4_of};

use crate::{SEED, X, Y};
use std::simd::u32x4;

/// In each lane a word less two others, xor the last of these shifted to the right.
#[inline(always)]
fn right(k: u32, a: u32x4, b: u32x4, c: u32x4) -> u32x4
    requires { k < 32 }
    ensures { (j : ℕ) → j < 4 → slice_index result j
        ≡ bit_xor (minus (minus (slice_index a j) (slice_index b j)) (slice_index c j)) (slice_index c j / 2 ^ k) }
{
    (a - b - c) ^ (c >> u32x4::splat(k))
}

/// In each lane a word less two others, xor the last of these shifted to the left.
#[inline(always)]
fn left(k: u32, a: u32x4, b: u32x4, c: u32x4) -> u32x4
    requires { k < 32 }
    ensures { (j : ℕ) → j < 4 → slice_index result j
        ≡ bit_xor (minus (minus (slice_index a j) (slice_index b j)) (slice_index c j))
        (shifted_left (slice_index c j) k) }
{
    (a - b - c) ^ (c << u32x4::splat(k))
}

/// One third of `mix` in each lane: to the right by `shifts.0`, to the left by `shifts.1`, to the right by `shifts.2`.
#[inline(always)]
fn third(shifts: (u32, u32, u32), a: u32x4, b: u32x4, c: u32x4) -> (u32x4, u32x4, u32x4)
    requires right { shifts.0 < 32 }
    requires left { shifts.1 < 32 }
    requires last { shifts.2 < 32 }
    ensures { (j : ℕ) → j < 4
        → (slice_index result.0 j, slice_index result.1 j, slice_index result.2 j)
        ≡ third shifts.0 shifts.1 shifts.2 (slice_index a j, slice_index b j, slice_index c j) }
{
    let a = right(shifts.0, a, b, c);
    let b = left(shifts.1, b, c, a);
    let c = right(shifts.2, c, a, b);
    (a, b, c)
}

/// Mixes the three words of each lane.
#[inline(always)]
fn mix(a: u32x4, b: u32x4, c: u32x4) -> (u32x4, u32x4, u32x4)
    ensures { (j : ℕ) → j < 4
        → (slice_index result.0 j, slice_index result.1 j, slice_index result.2 j)
        ≡ mixed (slice_index a j) (slice_index b j) (slice_index c j) }
{
    let (a, b, c) = third((13, 8, 13), a, b, c);
    let (a, b, c) = third((12, 16, 5), a, b, c);
    third((3, 10, 15), a, b, c)
}

/// One word in each lane.
#[inline(always)]
fn each(word: u32) -> u32x4
    ensures { (j : ℕ) → j < 4 → slice_index result j ≡ word }
{
    u32x4::splat(word)
}

/// What the hashes of three words begin from.
#[inline(always)]
fn start3(a: u32, b: u32x4, c: u32x4) -> u32x4
    ensures { (j : ℕ) → j < 4 → slice_index result j
        ≡ bit_xor (bit_xor (bit_xor seed a) (slice_index b j)) (slice_index c j) }
{
    u32x4::splat(SEED ^ a) ^ b ^ c
}

/// What the hashes of four words begin from.
#[inline(always)]
fn start4(a: u32, b: u32x4, c: u32x4, d: u32) -> u32x4
    ensures { (j : ℕ) → j < 4 → slice_index result j
        ≡ bit_xor (bit_xor (bit_xor (bit_xor seed a) (slice_index b j)) (slice_index c j)) d }
{
    u32x4::splat(SEED ^ a) ^ b ^ c ^ u32x4::splat(d)
}

/// The hashes of three words, the second and the third of each lane its own.
#[inline(always)]
fn hashes3(a: u32, b: u32x4, c: u32x4) -> u32x4
    ensures { (j : ℕ) → j < 4 → slice_index result j ≡ hash3_of a (slice_index b j) (slice_index c j) }
{
    let h = start3(a, b, c);
    let (a, b, h) = mix(each(a), b, h);
    let (c, x, h) = mix(c, each(X), h);
    let (y, _, h) = mix(each(Y), a, h);
    let (_, _, h) = mix(b, x, h);
    let (_, _, h) = mix(y, c, h);
    h
}

/// The hashes of four words, the second and the third of each lane its own.
#[inline(always)]
fn hashes4(a: u32, b: u32x4, c: u32x4, d: u32) -> u32x4
    ensures { (j : ℕ) → j < 4 → slice_index result j ≡ hash4_of a (slice_index b j) (slice_index c j) d }
{
    let h = start4(a, b, c, d);
    let (a, b, h) = mix(each(a), b, h);
    let (c, d, h) = mix(c, each(d), h);
    let (_, x, h) = mix(a, each(X), h);
    let (y, _, h) = mix(each(Y), b, h);
    let (_, _, h) = mix(c, x, h);
    let (_, _, h) = mix(y, d, h);
    h
}

/// The hashes of `a`, each word of `b`, and the word of `c` at the same place: for each what `hash3` answers.
#[inline(always)]
pub fn hash3_each(a: u32, b: [u32; 4], c: [u32; 4]) -> [u32; 4]
    ensures { (j : ℕ) → j < 4 → slice_index result j ≡ hash3_of a (slice_index b j) (slice_index c j) }
{
    hashes3(a, u32x4::from_array(b), u32x4::from_array(c)).to_array()
}

/// The hashes of `a`, each word of `b`, the word of `c` at the same place, and `d`: for each what `hash4` answers.
#[inline(always)]
pub fn hash4_each(a: u32, b: [u32; 4], c: [u32; 4], d: u32) -> [u32; 4]
    ensures { (j : ℕ) → j < 4 → slice_index result j ≡ hash4_of a (slice_index b j) (slice_index c j) d }
{
    hashes4(a, u32x4::from_array(b), u32x4::from_array(c), d).to_array()
}
