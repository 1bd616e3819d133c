//! Balancing the groups of a pool.

use crate::state::{Proposal, State};
use balancer::{PlannedChange, Request, plan};
use epochlog::{Keeps, Pass, Row};
use refusal::Refusal;
use std::thread::Threads;

/// What balancing did.
#[derive(Clone, Copy, Debug, PartialEq, Eq)]
pub struct Balance {
    /// The epoch then.
    pub epoch: u64,
    /// How many moves the plan has.
    pub moves: usize,
}

impl<K: Keeps + Drop> State<K> {
    ghost use Rattle.std.specs.Prelude.{◌≡◌, IfErr};
    ghost use Rattle.refusal.specs.declared.refused.Refusal.TheVariants.{NotStored};
    ghost use Rattle.balancer.specs.Requests.{asked_aim};
    ghost use Rattle.state.specs.Balances.{Balances};

    /// Plans the moves that are asked for, which balance the groups of a pool, and commits their change at the present
    /// epoch: the epoch then, and how many moves. Where no move is good, nothing is committed and the epoch stays, also
    /// where the journal is full. `pass` is as in `commit`.
    ///
    /// # Errors
    ///
    /// `UnknownPool` (23) where there is no such pool; else `BalanceRule` (29) where the pool's rule has more than one
    /// block; else `Memory` (30) where there is no memory for it, or where a move is good `JournalFull` (28),
    /// `NotStored` (35) or `NotSealed` (32) as in `commit`. After an error all is as before, but for what `commit` may
    /// leave.
    pub fn balance<R: Threads + Sync>(
        &mut self,
        rt: &R,
        row: &Row,
        pass: &mut Pass,
        request: Request<'_>,
    ) -> Result<Balance, Refusal>
        requires row { self.old.pass.row ≡ row.now }
        requires pass { pass.old ≡ self.old.pass }
        ensures balances { Balances self.old self.new
            request.entry.pool (asked_aim request.entry) request.entry.limit result }
        ensures stored { IfErr result (λ e. e ≡ NotStored → K.may_fail) }
        ensures pass { pass.new ≡ self.new.pass }
    {
        let PlannedChange { change, moves } = plan(self.alloc, &self.map, &self.table, request)?;
        let current = self.map.epoch();
        if moves == 0 {
            return Ok(Balance {
                epoch: current,
                moves,
            });
        }
        let proposal = Proposal {
            base: current,
            change,
        };
        let epoch = self.commit(rt, row, pass, proposal)?.epoch;
        Ok(Balance { epoch, moves })
    }
}
