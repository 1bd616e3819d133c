//! What follows of the sum: laws that no call needs to run.

ghost use Rattle.std.specs.Prelude.{◌≡◌, ◌≢◌, ◌<◌, ◌^◌, ℕ, List, [], ◌∷◌, ◌++◌, bit_xor};
ghost use Rattle.cephbytes.specs.Crc.{crc32c_of, AreBytes};

/// The sum of "123456789", as it is printed in the standards (seed and end all ones).
pub fn the_worked_value()
    ensures { bit_xor (crc32c_of 4294967295 (49 ∷ 50 ∷ 51 ∷ 52 ∷ 53 ∷ 54 ∷ 55 ∷ 56 ∷ 57 ∷ [])) 4294967295 ≡ 3808858755 }
{}

/// The sum over two parts is that of the second, begun from that of the first.
pub fn the_sum_goes_on()
    ensures { (seed : ℕ) (front behind : List ℕ)
        → crc32c_of seed (front ++ behind) ≡ crc32c_of (crc32c_of seed front) behind }
{}

/// Two texts that differ in one byte have two sums, whatever stands before it and behind it.
pub fn a_changed_byte_is_seen()
    ensures { (seed : ℕ) (front : List ℕ) (b d : ℕ) (behind : List ℕ) → seed < 2 ^ 32 → AreBytes front → b < 256
        → d < 256 → AreBytes behind → b ≢ d → crc32c_of seed (front ++ b ∷ behind) ≢ crc32c_of seed (front ++ d ∷ behind) }
{}
