//! What texts state, where their profile has it.

ghost use Rattle.std.specs.Prelude.{◌≡◌, ◌&&◌};
ghost use Rattle.mapparts.specs.Profiles.{has_kinds, has_words};
ghost use Rattle.partjson.specs.Profiles.{brings_kinds};

use mapparts::{CrushParts, MapParts, Profile};

/// Whether a profile has the kinds of all buckets of a CRUSH map, and the steps of its rules, where there is one.
pub(crate) fn brings_kinds(profile: Profile, crush: &Option<CrushParts>) -> bool
    ensures { result ≡ brings_kinds profile crush.now }
{
    match crush {
        Some(crush) => profile.has_kinds(&crush.buckets) && profile.has_words(&crush.rules),
        None => true,
    }
}

/// Whether it has those of a map.
pub(crate) fn has_all_kinds(profile: Profile, parts: &MapParts) -> bool
    ensures { result ≡ (has_kinds profile parts.now.buckets && has_words profile parts.now.rules) }
{
    profile.has_kinds(&parts.buckets) && profile.has_words(&parts.rules)
}
