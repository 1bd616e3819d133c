//! Whether groups may leave an OSD, wherever they would go.

ghost use Rattle.std.specs.Prelude.{◌≡◌};
ghost use Rattle.balancer.specs.Leaving.{may_leave};

use crate::domains::count_places;
use crate::group::Group;
use maptypes::Pool;

/// Whether a group of a pool may leave an OSD, wherever it would go.
#[tactic(auto, unfolding(crate::specs::Leaving::may_leave))]
pub(crate) fn may_leave(pool: &Pool, from: u32, group: &Group) -> bool
    ensures { result ≡ may_leave pool.now from group.now }
{
    !group.is_fixed
        && count_places(group.places.as_slice(), from) == 1
        && group.pairs.as_slice().len() < usize::from(pool.size())
}
