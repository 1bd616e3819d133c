//! Where groups may go.

use crate::domains::{count_places, domain_of, stands};
use crate::frame::Frame;
use crate::group::Group;

impl Frame<'_> {
    ghost use Rattle.std.specs.Prelude.{◌≡◌, true, false};
    ghost use Rattle.std.specs.List.{list_any};
    ghost use Rattle.maptypes.specs.Sets.{stands};
    ghost use Rattle.balancer.specs.Boards.{may_go};
    ghost use Rattle.balancer.specs.Moves.{is_in_way, has_way};
    ghost use Rattle.balancer.specs.Frames.{domain_in, level_in};

    /// The failure domain of an OSD, by the last type that the pool's rule chooses.
    pub fn domain(&self, osd: u32) -> Option<i64>
        ensures { result ≡ domain_in self.now osd }
    {
        match self.domains.get(osd as usize) {
            Some(domain) => *domain,
            None => domain_of(self.map, self.last_level(), osd),
        }
    }

    /// Whether a place has an OSD, but not the one that goes, in a failure domain.
    fn is_in_way(&self, from: u32, domain: Option<i64>, place: Option<u32>) -> bool
        ensures { result ≡ is_in_way self.now.map.now.map (level_in self.now) from domain place }
    {
        match place {
            Some(osd) => osd != from && self.domain(osd) == domain,
            None => false,
        }
    }

    /// Whether some place is in the way.
    fn are_in_way(&self, from: u32, domain: Option<i64>, places: &[Option<u32>]) -> bool
        ensures { result ≡ list_any (is_in_way self.now.map.now.map (level_in self.now) from domain) places.now }
    {
        places
            .iter()
            .any(|place| self.is_in_way(from, domain, *place))
    }

    /// Whether the OSD that comes has a failure domain, and no place of a set is in its way there.
    #[tactic(auto, unfolding(crate::specs::Moves::has_way))]
    pub fn has_way(&self, from: u32, to: u32, places: &[Option<u32>]) -> bool
        ensures { result ≡ has_way self.now.map.now.map (level_in self.now) from to places.now }
    {
        let domain = self.domain(to);
        domain.is_some() && !self.are_in_way(from, domain, places)
    }

    /// Whether a group may go from one OSD to another, where both are candidates and beside one another.
    #[tactic(auto, unfolding(crate::specs::Boards::may_go))]
    pub fn may_go(&self, from: u32, to: u32, group: &Group) -> bool
        ensures value { result ≡ may_go self.now.map.now.map self.now.pool from to group.now }
        ensures new { result ≡ true → stands to group.now.places ≡ false }
    {
        let places = group.places.as_slice();
        !group.is_fixed
            && count_places(places, from) == 1
            && !stands(places, to)
            && group.pairs.as_slice().len() < usize::from(self.pool.size())
            && self.has_way(from, to, places)
    }
}
