//! The devices of the forest that comes: `BadForest` (13).

ghost use Rattle.std.specs.Prelude.{◌≡◌, ◌≤◌, pos, int_lt};
ghost use Rattle.std.specs.List.{list_all};
ghost use Rattle.buckets.specs.Limits.{max_devices};
ghost use Rattle.osdmap.specs.Changes.{has_devices_below};

use crate::map::OsdMap;
use buckets::Bucket;
use crush::Forest;
use maptypes::Change;

/// Whether each device of a bucket is below a number.
fn is_below(bucket: &Bucket, max_osd: u32) -> bool
    requires { max_osd ≤ max_devices }
    ensures { result ≡ list_all (λ i. int_lt i.id (pos max_osd)) bucket.now.items }
{
    bucket.items.iter().all(|item| item.id < max_osd as i32)
}

/// Whether each device of a forest is below a number.
#[tactic(auto, unfolding(crate::specs::Changes::has_devices_below))]
fn has_devices_below(forest: &Forest, max_osd: u32) -> bool
    requires { max_osd ≤ max_devices }
    ensures { result ≡ has_devices_below max_osd forest.now }
{
    forest.buckets().iter().all(
        |bucket: &Bucket| -> bool
            requires { max_osd ≤ max_devices }
            ensures { result ≡ list_all (λ i. int_lt i.id (pos max_osd)) bucket.now.items }
        { is_below(bucket, max_osd) },
    )
}

impl OsdMap {
    ghost use Rattle.std.specs.Prelude.{◌≡◌};
    ghost use Rattle.osdmap.specs.Changes.{brings_forest};

    /// Whether the forest that comes has no device but those of the map.
    #[tactic(auto, unfolding(crate::specs::Changes::brings_forest))]
    pub(crate) fn brings_forest(&self, change: &Change) -> bool
        ensures { result ≡ brings_forest self.now.map change.now }
    {
        match &change.parts().crush {
            Some(crush) => has_devices_below(crush.forest(), self.max_osd()),
            None => true,
        }
    }
}
