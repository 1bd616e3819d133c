//! What a map refuses of a change: where each number is looked for.

mod devices;
mod groups;
mod osds;
mod pools;
mod rules;

use crate::check::osds::weighs_rightly;
use crate::map::OsdMap;
use maptypes::Change;
use refusal::Refusal;

impl OsdMap {
    ghost use Rattle.std.specs.Prelude.{◌≡◌};
    ghost use Rattle.std.specs.Result.{result_err};
    ghost use Rattle.osdmap.specs.Changes.{change_fault};

    /// Whether the map refuses a change. It takes no memory.
    ///
    /// # Errors
    ///
    /// The first of these, each tested over all parts of the change:
    ///
    /// - `UnknownOsd` (21): an OSD of down, up, weight, an explicit set or a pair does not exist.
    /// - `BadWeight` (22): a reweight is above 65,536.
    /// - `UnknownPool` (23): an old pool is not there; or, once the old pools went and the new ones came, a pool that
    ///   grows or that of a group that is named is not.
    /// - `PoolExists` (24): a pool that stays has the id of a new one.
    /// - `BadForest` (13): a device of the forest that comes is not below `max_osd`.
    /// - `BadPool` (15): a pool that stays or comes has no rule of its kind then, there are more than 32 pools (256 by
    ///   the stock profile) or 1,048,576 groups, or a pool gets fewer groups than it has, or fewer for placement.
    /// - `UnknownGroup` (25): a group that is named is not there then.
    /// - `BadNewException` (26): an explicit set is empty, longer than its pool's size or has an OSD twice; or there
    ///   are no pairs, more than the pool's size, or one with equal sides.
    /// - `DuplicatePart` (27): a key stands twice in a part, or in both parts of a couple: old and new pools, new pools
    ///   and growths, down and up, old and new explicit sets, old and new pairs.
    pub fn check(&self, change: &Change) -> Result<(), Refusal>
        ensures { result_err result ≡ change_fault self.now.map change.now }
    {
        if !self.names_osds(change) {
            return Err(Refusal::UnknownOsd);
        }
        if !weighs_rightly(change) {
            return Err(Refusal::BadWeight);
        }
        if !self.names_pools(change) {
            return Err(Refusal::UnknownPool);
        }
        if !self.brings_new(change) {
            return Err(Refusal::PoolExists);
        }
        if !self.brings_forest(change) {
            return Err(Refusal::BadForest);
        }
        if !self.brings_rightly(change) {
            return Err(Refusal::BadPool);
        }
        if !self.names_groups(change) {
            return Err(Refusal::UnknownGroup);
        }
        if !self.excepts_soundly(change) {
            return Err(Refusal::BadNewException);
        }
        if !change.names_once() {
            return Err(Refusal::DuplicatePart);
        }
        Ok(())
    }
}
