//! The candidates in order, the emptiest first.

use crate::board::Board;
use refusal::Memory;
use std::alloc::Global;

impl Board<'_> {
    ghost use Rattle.std.specs.Prelude.{IfOk, OnOk};
    ghost use Rattle.balancer.specs.Reached.{AreAll, AreMeasured, IsOrderOf};

    /// The candidates, without an order yet; or `Memory` (30).
    pub(crate) fn list_candidates(&self, alloc: Global) -> Result<Vec<(i128, u32)>, Memory>
        ensures { IfOk result (λ order. AreAll self.now order.items) }
    {
        let mut order = Vec::with_capacity(alloc, self.frame.osds.len())?;
        for osd in &self.frame.osds {
            order.push((0, *osd))?;
        }
        Ok(order)
    }

    /// Gives each candidate its deviation.
    fn measure(&self, order: &mut Vec<(i128, u32)>)
        requires { AreAll self.now order.old.items }
        ensures { AreMeasured self.now order.new.items }
    {
        for k in 0..order.len() {
            let osd = order[k].1;
            order[k].0 = self.deviation(osd);
        }
    }

    /// Puts the candidates in order, the emptiest first, to which a move would rather go; or `Memory` (30). They are
    /// mostly in order but for the two of the last move.
    pub(crate) fn sort_candidates(&self, order: &mut Vec<(i128, u32)>) -> Result<(), Memory>
        requires { AreAll self.now order.old.items }
        ensures { OnOk result (IsOrderOf self.now order.new.items) }
    {
        self.measure(order);
        order.sort()?;
        Ok(())
    }
}
