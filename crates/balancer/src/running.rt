//! The moves of a plan, made one after another.

use crate::board::Board;
use crate::marks::Marks;
use crate::moves::Move;
use crate::widths::Widths;
use refusal::Memory;
use std::alloc::Global;

impl Board<'_> {
    ghost use Rattle.std.specs.Prelude.{◌≡◌, ◌<◌, [], ◌∷◌, ◌++◌, length, true, OnOk};
    ghost use Rattle.balancer.specs.Greedy.{good_moves, greedy, after_moves};
    ghost use Rattle.balancer.specs.Reached.{cluster, takes_part, IsMarkedOn, AreWidened, aim_in, AreOfOnePlan, IsGoodOn, AreBoundsOn};

    /// Moves to an OSD that has become emptier may go further than was known, but for those from OSDs of which it is
    /// known that no group may go there.
    fn widen(&self, emptier: u32, marks: &Marks, widths: &mut Widths)
        requires { takes_part self.now emptier ≡ true }
        ensures { AreWidened self.now emptier marks.now widths.old widths.new }
    {
        for from in &self.frame.osds {
            if marks.is_shut(*from, emptier) {
                continue;
            }
            widths.widen(*from, self.gap(*from, emptier));
        }
    }

    /// Makes a good move, and looks again at what was known of the OSDs on which its group then stands; or `Memory`
    /// (30).
    fn go(&mut self, step: Move, marks: &mut Marks, widths: &mut Widths) -> Result<(), Memory>
        requires good { IsGoodOn self.old step }
        requires marks { IsMarkedOn self.old marks.old }
        requires widths { AreBoundsOn self.old widths.old }
        ensures moves { OnOk result (self.new.moves.items ≡ self.old.moves.items ++ step ∷ []) }
        ensures same { AreOfOnePlan self.new self.old }
        ensures marks { OnOk result (IsMarkedOn self.new marks.new) }
        ensures widths { OnOk result (AreBoundsOn self.new widths.new) }
    {
        self.make(step)?;
        let Some(group) = self.groups.get(step.group as usize) else {
            return Ok(());
        };
        self.look_again_at(group, marks);
        widths.forget(group.places.as_slice());
        self.widen(step.from, marks, widths);
        Ok(())
    }

    /// Makes the best move again and again, until no move is good or so many are made; or `Memory` (30).
    pub fn run(&mut self, alloc: Global, limit: u32) -> Result<(), Memory>
        requires { self.old.moves.items ≡ [] }
        ensures moves { OnOk result (self.new.moves.items
            ≡ greedy (cluster self.old) self.old.frame.pool (aim_in self.old) limit) }
        ensures done { OnOk result (length self.new.moves.items < limit →
            good_moves (after_moves (cluster self.old) self.old.frame.pool self.new.moves.items)
            self.old.frame.pool (aim_in self.old) ≡ []) }
        ensures same { AreOfOnePlan self.new self.old }
    {
        let mut marks = Marks::new(alloc, &self.frame)?;
        let mut widths = Widths::new(alloc, self.frame.map.max_osd())?;
        let mut order = self.list_candidates(alloc)?;
        for _count in 0..limit {
            match self.find_best(&mut marks, &mut widths, &mut order)? {
                Some(step) => self.go(step, &mut marks, &mut widths)?,
                None => return Ok(()),
            }
        }
        Ok(())
    }
}
