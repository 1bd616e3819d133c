//! How a monitor is opened.

ghost use Rattle.std.specs.Prelude.{◌≡◌, length, All, IfOk};
ghost use Rattle.ticketlock.specs.Callers.{IsNewOf, first_of, limit_of};
ghost use Rattle.ticketlock.specs.Errors.{IsWithin};
ghost use Rattle.monitor.specs.Opening.{can_open, can_open_with, StartsWith};

use crate::locked::Locked;
use crate::member::Member;
use crate::monitor::Monitor;
use crate::tally::{Tally, tallies};
use epochlog::{Keeps, MAX_CAPACITY, MAX_FIRST_EPOCH, Nothing, Row};
use mapparts::Profile;
use osdmap::OsdMap;
use refusal::{Memory, Refusal};
use state::State;
use std::alloc::Global;
use std::thread::Threads;
use ticketlock::limits::{MAX_DRAWS, MAX_SEATS};
use ticketlock::{Lock, LockError, Seat};
use tip::{Seen, Tip};

/// How much a monitor has room for.
#[derive(Clone, Copy, Debug, PartialEq, Eq)]
pub struct Limits {
    /// How many changes its journal takes: 1 to 65,536.
    pub journal: u32,
    /// How many members it has: 1 to 1,024.
    pub seats: u32,
    /// How often each of them may draw at the lock: 1 to 2^40.
    pub draws: u64,
}

/// Whether each of these is within its limits.
fn can_open(epoch: u64, limits: Limits) -> bool
    ensures { result ≡ can_open_with epoch limits }
{
    (1..=MAX_FIRST_EPOCH).contains(&epoch)
        && (1..=MAX_CAPACITY).contains(&limits.journal)
        && (1..=MAX_SEATS).contains(&limits.seats)
        && (1..=MAX_DRAWS).contains(&limits.draws)
}

/// What the members of a new monitor know of its changes: the count of all, and their own.
#[derive(Drop)]
struct Counting {
    seen: Seen,
    tallies: Vec<Tally>,
}

/// A state under a lock at its beginning, and the seats, where both numbers are within their limits; or `Memory` (30).
fn lock_state<K: Keeps + Drop>(
    alloc: Global,
    state: State<K>,
    seats: u32,
    draws: u64,
) -> Result<(Lock<Locked<K>>, Vec<Seat>, Counting), Memory>
    requires within { IsWithin seats draws }
    requires start { length state.pass.history ≡ 0 }
    ensures seats { IfOk result (λ r. (length r.1.items ≡ seats) × All (IsNewOf r.0) r.1.items) }
    ensures lock { IfOk result (λ r. ((first_of r.0).state.value ≡ state) × (limit_of r.0 ≡ draws)) }
    ensures counting { IfOk result (λ r. StartsWith (first_of r.0) seats r.2) }
{
    let state = Box::new(alloc, state)?;
    let tip = Tip::new();
    let seen = tip.seen();
    let (kept, tallies) = tallies(alloc, seats)?;
    let counting = Counting { seen, tallies };
    match Lock::with_limit(alloc, Locked { state, tip, kept }, seats, draws) {
        Ok((lock, seats)) => Ok((lock, seats, counting)),
        Err(LockError::Memory) => Err(Memory),
        Err(LockError::BadLimit) => unreachable!(),
    }
}

impl<K: Keeps + Drop> Monitor<K> {
    ghost use Rattle.std.specs.Prelude.{◌≡◌, ◌+◌, [], true, length, All, IfOk, MatchOption};
    ghost use Rattle.refusal.specs.declared.refused.Refusal.TheVariants.{BadLimit};
    ghost use Rattle.refusal.specs.Outcomes.{refused_unless, Gives};
    ghost use Rattle.ticketlock.specs.Callers.{IsNewAt};
    ghost use Rattle.state.specs.States.{journal};
    ghost use Rattle.monitor.specs.Opening.{can_open_with, IsOpeningWith};
    ghost use Rattle.monitor.specs.Tallies.{IsNewTallyOf};
    ghost use Rattle.monitor.specs.Members.{IsNewMemberOf, Knows};

    /// A member with this seat, who has seen nothing.
    #[tactic(auto, using(crate::proofs::Histories::lawful_none))]
    fn member(&self, alloc: Global, seat: Seat, seen: Seen, tally: Tally) -> Result<Member, Memory>
        requires seat { IsNewAt self.now.words seat }
        requires knows { Knows self.now seen tally [] }
        ensures { IfOk result (IsNewMemberOf self.now) }
    {
        let pass = self.row.pass(alloc)?;
        let own = vec![in alloc; false; self.row.capacity() as usize]?;
        Ok(Member {
            seat: Some(seat),
            pass,
            own,
            seen,
            tally,
        })
    }

    /// Takes one of the tallies that are left.
    fn take_tally(&self, tallies: &mut Vec<Tally>) -> Option<Tally>
        requires { All (IsNewTallyOf self.now.tallies) tallies.old.items }
        ensures rest { All (IsNewTallyOf self.now.tallies) tallies.new.items }
        ensures next { MatchOption result (length tallies.old.items ≡ 0) (λ tally.
            IsNewTallyOf self.now.tallies tally × (length tallies.new.items + 1 ≡ length tallies.old.items)) }
    {
        tallies.pop()
    }

    /// Members with these seats, who have seen nothing.
    fn members(
        &self,
        alloc: Global,
        seats: Vec<Seat>,
        counting: Counting,
    ) -> Result<Vec<Member>, Memory>
        requires seats { All (IsNewAt self.now.words) seats.items }
        requires seen { (counting.seen.name ≡ self.now.count) × (counting.seen.count ≡ 0) }
        requires tallies { All (IsNewTallyOf self.now.tallies) counting.tallies.items }
        requires many { length counting.tallies.items ≡ length seats.items }
        ensures { IfOk result (λ members.
            (length members.items ≡ length seats.items) × All (IsNewMemberOf self.now) members.items) }
    {
        let Counting { seen, tallies } = counting;
        let mut members = Vec::with_capacity(alloc, seats.len())?;
        let mut left = tallies;
        for seat in seats {
            let Some(tally) = self.take_tally(&mut left) else {
                unreachable!()
            };
            members.push(self.member(alloc, seat, seen.again(), tally)?)?;
        }
        Ok(members)
    }

    /// The monitor with these limits, which hold, and its members.
    fn open_within<R: Threads + Sync>(
        rt: &R,
        alloc: Global,
        map: OsdMap,
        limits: Limits,
        store: K,
    ) -> Result<(Monitor<K>, Vec<Member>), Memory>
        requires limits { can_open_with map.map.epoch limits ≡ true }
        requires held { K.holds store (journal map.map []) }
        ensures { IfOk result (λ r. IsOpeningWith map.map limits r.0 r.1.items) }
    {
        let row = Row::of_fitting(alloc, map.epoch(), limits.journal)?;
        let state = State::new(rt, alloc, map, &row, store)?;
        let first = state.share_first()?;
        let (lock, seats, counting) = lock_state(alloc, state, limits.seats, limits.draws)?;
        let monitor = Monitor {
            lock,
            row,
            first,
            profile: Profile::Plain,
            alone: limits.seats == 1,
        };
        let members = monitor.members(alloc, seats, counting)?;
        Ok((monitor, members))
    }

    /// A monitor that begins with this map, with this room and what keeps its journal, which holds the map and no
    /// change yet; and its members. Each call of a member that takes the lock spends a draw of its seat. The members
    /// have seen nothing.
    ///
    /// # Errors
    ///
    /// `BadLimit` (12) exactly where the map's epoch is not 1 to 2,147,483,648, or one of the limits is not within its
    /// own; else `Memory` (30) where there is no memory for it.
    pub fn open_stored<R: Threads + Sync>(
        rt: &R,
        alloc: Global,
        map: OsdMap,
        limits: Limits,
        store: K,
    ) -> Result<(Monitor<K>, Vec<Member>), Refusal>
        requires { K.holds store (journal map.map []) }
        ensures { Gives result (refused_unless (can_open_with map.map.epoch limits) BadLimit)
            (λ r. IsOpeningWith map.map limits r.0 r.1.items) }
    {
        if !can_open(map.epoch(), limits) {
            return Err(Refusal::BadLimit);
        }
        Ok(Monitor::open_within(rt, alloc, map, limits, store)?)
    }
}

impl Monitor<Nothing> {
    ghost use Rattle.refusal.specs.declared.refused.Refusal.TheVariants.{BadLimit};
    ghost use Rattle.refusal.specs.Outcomes.{refused_unless, Gives};
    ghost use Rattle.monitor.specs.Opening.{can_open, max_draws, IsOpening};

    /// A monitor as [`Monitor::open_stored`] opens it, which keeps its journal in memory alone.
    ///
    /// # Errors
    ///
    /// `BadLimit` (12) exactly where the map's epoch is not 1 to 2,147,483,648, `journal` not 1 to 65,536 epochs,
    /// `seats` not 1 to 1,024 or `draws` not 1 to 2^40; else `Memory` (30) where there is no memory for it.
    pub fn open_limited<R: Threads + Sync>(
        rt: &R,
        alloc: Global,
        map: OsdMap,
        limits: Limits,
    ) -> Result<(Monitor<Nothing>, Vec<Member>), Refusal>
        ensures { Gives result
            (refused_unless (can_open map.map.epoch limits.journal limits.seats limits.draws) BadLimit)
            (λ r. IsOpening map.map limits.journal limits.seats limits.draws Profile.Plain r.0 r.1.items) }
    {
        Monitor::open_stored(rt, alloc, map, limits, Nothing)
    }

    /// A monitor as [`Monitor::open_limited`] opens it, each seat with the most draws, which are 2^40.
    ///
    /// # Errors
    ///
    /// Those of [`Monitor::open_limited`].
    pub fn open<R: Threads + Sync>(
        rt: &R,
        alloc: Global,
        map: OsdMap,
        journal: u32,
        seats: u32,
    ) -> Result<(Monitor<Nothing>, Vec<Member>), Refusal>
        ensures { Gives result (refused_unless (can_open map.map.epoch journal seats max_draws) BadLimit)
            (λ r. IsOpening map.map journal seats max_draws Profile.Plain r.0 r.1.items) }
    {
        let limits = Limits {
            journal,
            seats,
            draws: MAX_DRAWS,
        };
        Monitor::open_limited(rt, alloc, map, limits)
    }
}
