//! What was written is read again: laws that no call needs to run.

ghost use Rattle.std.specs.Prelude.{◌≡◌, ◌≤◌, ◌<◌, ◌^◌, ℕ, List, ◌∷◌, ◌++◌, length, Ok};
ghost use Rattle.cephbytes.specs.Encoding.{Front, text, section, section_of, written};

/// A text that was written is read, and what stands behind it is left.
pub fn a_text_is_read()
    ensures { (words behind : List ℕ) → length words < 2 ^ 32 → text (written words ++ behind) ≡ Ok (words, behind) }
{}

/// A section that was written is read by each reader that knows its least version, and what stands behind it is left.
pub fn a_section_is_read()
    ensures { (knows version least : ℕ) (own behind : List ℕ) → least ≤ knows → length own < 2 ^ 32 →
        section knows (version ∷ least ∷ (written own ++ behind))
        ≡ Ok (record { version = version; own = own }, behind) }
{}

/// Whatever a reader leaves of a section is passed: what it reads next is what stands behind the section.
pub fn an_unknown_end_is_passed()
    ensures { (knows version least : ℕ) (body : ℕ → Front ℕ) (own behind unknown : List ℕ) (x : ℕ) → least ≤ knows
        → length own < 2 ^ 32 → body version own ≡ Ok (x, unknown)
        → section_of knows body (version ∷ least ∷ (written own ++ behind)) ≡ Ok (x, behind) }
{}
