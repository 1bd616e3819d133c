//! Robert Jenkins' 32-bit hash of two, three and four words, as Ceph's placement uses it (Ceph, hash.c, rjenkins1).
//!
//! No function takes memory, and each answers for every word.
#![tactic(auto)]

ghost use Rattle.std.specs.Prelude.{◌≡◌, ◌<◌};
ghost use Rattle.rjenkins.specs.Jenkins.{third, mixed, hash2_of, hash3_of, hash4_of};

mod lanes;

pub use lanes::{hash3_each, hash4_each};

/// What every hash begins from (`crush_hash_seed`).
const SEED: u32 = 1_315_423_911;

/// The two words that a hash mixes in beside its arguments.
const X: u32 = 231_232;

const Y: u32 = 1_232;

/// One third of `mix`, three of its nine assignments: to the right by `shifts.0`, to the left by `shifts.1`, to the
/// right by `shifts.2`.
#[tactic(auto, unfolding(crate::specs::Jenkins::third))]
fn third(shifts: (u32, u32, u32), a: u32, b: u32, c: u32) -> (u32, u32, u32)
    requires right { shifts.0 < 32 }
    requires left { shifts.1 < 32 }
    requires last { shifts.2 < 32 }
    ensures { result ≡ third shifts.0 shifts.1 shifts.2 (a, b, c) }
{
    let a = a.wrapping_sub(b).wrapping_sub(c) ^ (c >> shifts.0);
    let b = b.wrapping_sub(c).wrapping_sub(a) ^ (a << shifts.1);
    let c = c.wrapping_sub(a).wrapping_sub(b) ^ (b >> shifts.2);
    (a, b, c)
}

/// Mixes three words (`crush_hashmix`).
#[tactic(auto, unfolding(crate::specs::Jenkins::mixed))]
pub fn mix(a: u32, b: u32, c: u32) -> (u32, u32, u32)
    ensures { result ≡ mixed a b c }
{
    let (a, b, c) = third((13, 8, 13), a, b, c);
    let (a, b, c) = third((12, 16, 5), a, b, c);
    third((3, 10, 15), a, b, c)
}

/// The hash of two words (`crush_hash32_rjenkins1_2`).
#[tactic(auto, unfolding(crate::specs::Jenkins::hash2_of))]
pub fn hash2(a: u32, b: u32) -> u32
    ensures { result ≡ hash2_of a b }
{
    let h = SEED ^ a ^ b;
    let (a, b, h) = mix(a, b, h);
    let (_, _, h) = mix(X, a, h);
    let (_, _, h) = mix(b, Y, h);
    h
}

/// The hash of three words (`crush_hash32_rjenkins1_3`).
#[tactic(auto, unfolding(crate::specs::Jenkins::hash3_of))]
pub fn hash3(a: u32, b: u32, c: u32) -> u32
    ensures { result ≡ hash3_of a b c }
{
    let h = SEED ^ a ^ b ^ c;
    let (a, b, h) = mix(a, b, h);
    let (c, x, h) = mix(c, X, h);
    let (y, _, h) = mix(Y, a, h);
    let (_, _, h) = mix(b, x, h);
    let (_, _, h) = mix(y, c, h);
    h
}

/// The hash of four words (`crush_hash32_rjenkins1_4`).
#[tactic(auto, unfolding(crate::specs::Jenkins::hash4_of))]
pub fn hash4(a: u32, b: u32, c: u32, d: u32) -> u32
    ensures { result ≡ hash4_of a b c d }
{
    let h = SEED ^ a ^ b ^ c ^ d;
    let (a, b, h) = mix(a, b, h);
    let (c, d, h) = mix(c, d, h);
    let (_, x, h) = mix(a, X, h);
    let (y, _, h) = mix(Y, b, h);
    let (_, _, h) = mix(c, x, h);
    let (_, _, h) = mix(y, d, h);
    h
}

#[cfg(test)]
mod tests {
    use super::*;

    // The values are those of Ceph's hash.c, compiled by a C compiler.

    #[test]
    fn mixes_as_published(rt: HostRuntime) {
        assert_eq!(rt; mix(0, 0, 0), (0, 0, 0));
        assert_eq!(rt; mix(1, 0, 0), (0xfda0dfc7, 0x790420aa, 0x8ec212aa));
        assert_eq!(rt;
            mix(0xffffffff, 0x80000000, 0x12345678),
            (0xc434092a, 0xd31fddf6, 0x89843ac7)
        );
    }

    #[test]
    fn hashes_as_published(rt: HostRuntime) {
        assert_eq!(rt; hash2(0, 0), 430787817);
        assert_eq!(rt; hash2(1, 2), 3079532188);
        assert_eq!(rt; hash2(0xffffffff, 0xffffffff), 2671514060);
        assert_eq!(rt; hash2(0x12345678, 0x9abcdef0), 1138898975);
        assert_eq!(rt; hash2(0xffffffff, 0), 3004783074);
        assert_eq!(rt; hash3(0, 0, 0), 2050749362);
        assert_eq!(rt; hash3(1, 2, 3), 1935332395);
        assert_eq!(rt; hash3(0xffffffff, 0xffffffff, 0xffffffff), 3112661447);
        assert_eq!(rt; hash3(0x12345678, 0x9abcdef0, 0x0fedcba9), 2207943352);
        assert_eq!(rt; hash3(0xffffffff, 0, 0x80000000), 2046873419);
        assert_eq!(rt; hash4(0, 0, 0, 0), 1068478541);
        assert_eq!(rt; hash4(1, 2, 3, 4), 1768759062);
        assert_eq!(rt;
            hash4(0xffffffff, 0xffffffff, 0xffffffff, 0xffffffff),
            2697901196
        );
        assert_eq!(rt;
            hash4(0x12345678, 0x9abcdef0, 0x0fedcba9, 0x87654321),
            166563560
        );
        assert_eq!(rt; hash4(0xffffffff, 0, 0x80000000, 1), 1191810674);
    }

    #[test]
    fn hashes_four_as_published(rt: HostRuntime) {
        let words = [2, 0, 0xffffffff, 0x80000000];
        assert_eq!(rt;
            hash3_each(1, [2; 4], words),
            [2275394229, 3898035282, 679460915, 2191141394]
        );
        assert_eq!(rt;
            hash3_each(1, words, [3, 3, 3, 5]),
            [1935332395, 1377757821, 53104019, 2733581716]
        );
        assert_eq!(rt;
            hash4_each(1, words, [3, 3, 3, 5], 4),
            [1768759062, 2266573609, 414988737, 3448379938]
        );
    }
}
