//! What is marked of where no group may go, once no group was found to go there, and once a group has moved.

use crate::board::Board;
use crate::group::Group;
use crate::leaving::may_leave;
use crate::marks::Marks;

impl Board<'_> {
    ghost use Rattle.std.specs.Prelude.{◌≡◌, ◌<◌, ℕ, ◌==◌, ◌||◌, length, true, false};
    ghost use Rattle.std.specs.List.{list_any};
    ghost use Rattle.maptypes.specs.Sets.{stands};
    ghost use Rattle.balancer.specs.Boards.{may_go};
    ghost use Rattle.balancer.specs.Leaving.{may_leave};
    ghost use Rattle.balancer.specs.Marks.{is_shut, AreNumbered, NumberAlike, NoneGoes, IsLookedAt};
    ghost use Rattle.balancer.specs.Reached.{cluster, takes_part, IsMarkedOn};

    /// Whether some group may leave an OSD.
    fn some_leaves(&self, from: u32) -> bool
        requires { takes_part self.now from ≡ true }
        ensures { result ≡ list_any (may_leave self.now.frame.pool from) self.now.groups.items }
    {
        for number in self.standing.at(from) {
            if may_leave(&self.frame.pool, from, &self.groups[*number as usize]) {
                return true;
            }
        }
        false
    }

    /// No group may leave an OSD: none goes from it to any candidate.
    #[cold]
    #[inline(never)]
    fn mark_all(&self, from: u32, marks: &mut Marks)
        requires none { list_any (may_leave self.now.frame.pool from) self.now.groups.items ≡ false }
        requires marks { IsMarkedOn self.now marks.old }
        ensures { IsMarkedOn self.now marks.new }
    {
        for domain in 0..marks.domain_count() {
            marks.shut(from, domain);
        }
    }

    /// No group may go from one OSD to another: nor to any other OSD in that one's failure domain; and where none may
    /// leave the first at all, to any OSD.
    pub(crate) fn mark_shut(&self, from: u32, to: u32, marks: &mut Marks)
        requires from { takes_part self.now from ≡ true }
        requires to { takes_part self.now to ≡ true }
        requires apart { (to == from) ≡ false }
        requires none { NoneGoes (cluster self.now) self.now.frame.pool self.now.groups.items from to }
        requires marks { IsMarkedOn self.now marks.old }
        ensures { IsMarkedOn self.now marks.new }
    {
        if self.some_leaves(from) {
            let domain = marks.number(to);
            marks.shut(from, domain);
        } else {
            self.mark_all(from, marks);
        }
    }

    /// Whether a group may go from one OSD to another, or that is the same.
    fn may_come(&self, from: u32, to: u32, group: &Group) -> bool
        ensures { result ≡ ((to == from) || may_go (cluster self.now) self.now.frame.pool from to group.now) }
    {
        to == from || self.frame.may_go(from, to, group)
    }

    /// Looks again at what is known to be shut from the OSD of a place, for a group on it: a failure domain to which
    /// that may go is open.
    fn look_again(&self, place: Option<u32>, group: &Group, marks: &mut Marks)
        requires { AreNumbered (cluster self.now) self.now.frame.pool (length (cluster self.now).presences)
            marks.old.numbers.items marks.old.firsts.items }
        ensures { IsLookedAt (cluster self.now) self.now.frame.pool place group.now marks.old marks.new }
    {
        let Some(from) = place else {
            return;
        };
        for domain in 0..marks.domain_count() {
            if !marks.is_shut_at(from, domain) {
                continue;
            }
            if self.may_come(from, marks.first(domain), group) {
                marks.open(from, domain);
            }
        }
    }

    /// Looks again at what is known to be shut from each OSD on which a group stands: where the group may go, it is
    /// open.
    pub(crate) fn look_again_at(&self, group: &Group, marks: &mut Marks)
        requires { AreNumbered (cluster self.now) self.now.frame.pool (length (cluster self.now).presences)
            marks.old.numbers.items marks.old.firsts.items }
        ensures alike { NumberAlike marks.new marks.old }
        ensures known { (from to : ℕ) → to < length (cluster self.now).presences → is_shut marks.new from to ≡ true
            → (is_shut marks.old from to ≡ true)
            × (stands from group.now.places ≡ true
            → may_go (cluster self.now) self.now.frame.pool from to group.now ≡ false) }
    {
        for place in group.places.as_slice() {
            self.look_again(*place, group, marks);
        }
    }
}
