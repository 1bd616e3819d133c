//! How many changes an open leaves in a store.

ghost use Rattle.std.specs.Prelude.{◌≡◌};
ghost use Rattle.mapstore.specs.Kept.{kept_count, note_of};

use journalstore::Facts;

/// How many changes an open leaves where a store does not say it.
pub const KEPT: u32 = 1024;

/// How many changes an open leaves in a store.
#[derive(Clone, Copy, Debug, PartialEq, Eq)]
pub enum Keep {
    /// All that it finds.
    All,
    /// As many as the store says; 1,024 where it has no place to say it.
    AsNoted,
    /// So many; the store then says so, where it has a place for that.
    Only(u32),
}

impl Keep {
    /// How many they are in a store that notes this of itself.
    pub(crate) fn count(self, facts: Option<Facts>) -> u32
        ensures { result ≡ kept_count self facts }
    {
        match (self, facts) {
            (Keep::All, _) => u32::MAX,
            (Keep::Only(keep), _) => keep,
            (Keep::AsNoted, Some(facts)) => facts.keep,
            (Keep::AsNoted, None) => KEPT,
        }
    }

    /// The number that such a store is to note, where it notes another one.
    pub(crate) fn note(self, facts: Option<Facts>) -> Option<u32>
        ensures { result ≡ note_of self facts }
    {
        match (self, facts) {
            (Keep::Only(keep), Some(facts)) if facts.keep != keep => Some(keep),
            _ => None,
        }
    }
}
