//! The monitor, and how one is opened.

ghost use Rattle.std.specs.Prelude.{◌≡◌};

use crate::ended::Ended;
use crate::locked::Locked;
use epochlog::{Keeps, Nothing, Pass, Row};
use mapparts::Profile;
use refusal::Memory;
use state::{SharedMap, State};
use std::alloc::Global;
use std::marker::Model;
use ticketlock::{Fact, Lock};

/// A monitor: a state that its members share by a lock, and beside the lock the row of sealed epochs, the first map and
/// by which profile the texts of its changes are read. Many threads may use it.
#[derive(Drop)]
pub struct Monitor<K: Keeps + Drop = Nothing>
where
    Locked<K>: Fact,
{
    pub(crate) lock: Lock<Locked<K>>,
    pub(crate) row: Row,
    pub(crate) first: SharedMap,
    pub(crate) profile: Profile,
    // Whether it has one member.
    pub(crate) alone: bool,
}

impl<K: Keeps + Drop> Monitor<K> {
    ghost use Rattle.std.specs.Prelude.{◌≡◌, ◌+◌, ◌<◌, ◌≤◌, [], length, true, false, IfOk, IfSome};
    ghost use Rattle.monitor.specs.Members.{IsPassOf, IsStateOf};
    ghost use Rattle.monitor.specs.Ends.{IsEndOf};

    /// Whether the monitor has reached an epoch by now: it is the first map's or one before it, or the row shows it. It
    /// takes no turn at the lock, no memory, and waits for no one. Who then shares the lock finds the state there, or
    /// further on.
    pub fn has_reached(&self, epoch: u64) -> bool
        ensures first { epoch ≤ self.now.first.epoch → result ≡ true }
        ensures last { self.now.first.epoch + length self.now.row.cells < epoch → result ≡ false }
    {
        self.row.is_sealed(epoch)
    }

    /// The epoch of the first map.
    pub fn first_epoch(&self) -> u64
        ensures map { result ≡ self.now.first.epoch }
        ensures row { result ≡ self.now.row.first }
    {
        self.first.map().epoch()
    }

    /// This monitor, but that the texts of its changes are read by this profile.
    pub fn with_profile(self, profile: Profile) -> Self
        ensures { result ≡ record self { profile = profile } }
    {
        Monitor { profile, ..self }
    }

    /// What the monitor ends with: its state, which has seen all that its members have. `None` only where a writer at
    /// the lock has lost it, as [`ticketlock::Lock::into_value`] says.
    pub fn end(self) -> Option<Ended<K>>
        ensures { IfSome result (IsEndOf self) }
    {
        let Monitor { lock, .. } = self;
        let Locked { state, tip, .. } = lock.into_value()?;
        Some(Ended { state, tip })
    }

    /// The state, with which the monitor ends. `None` only where [`Monitor::end`] is.
    pub fn into_state(self) -> Option<Box<State<K>>>
        ensures { IfSome result (λ state. IsStateOf self state.value) }
    {
        Some(self.end()?.into_state())
    }

    /// By which profile the texts of its changes are read: which kinds of buckets they may state, by whose limits.
    pub fn profile(&self) -> Profile
        ensures { result ≡ self.now.profile }
    {
        self.profile
    }

    /// How many OSDs its maps have room for: the first map's `max_osd`, which no change alters.
    pub fn max_osd(&self) -> u32
        ensures { result ≡ length self.now.first.presences }
    {
        self.first.map().max_osd()
    }

    /// A pass that has seen nothing, to join what members have seen.
    ///
    /// # Errors
    ///
    /// `Memory` (30) where there is no memory for it.
    #[tactic(auto, using(crate::proofs::Histories::lawful_none))]
    pub fn pass(&self, alloc: Global) -> Result<Pass, Memory>
        ensures { IfOk result (λ pass. IsPassOf self.now pass × (pass.history ≡ [])) }
    {
        self.row.pass(alloc)
    }
}

impl<K: Keeps + Drop> Model for Monitor<K>
where
    Locked<K>: Fact,
{
    ghost use Rattle.ticketlock.specs.Callers.{first_of};
    ghost use Rattle.monitor.specs.Members.{Monitored, IsOpened, monitored};

    ghost Value = { Monitored };

    ghost view = { λ m. monitored m.first.map m.row m.lock.words (first_of m.lock) m.profile m.alone };

    ghost invariant = { λ m.
        IsOpened (monitored m.first.map m.row m.lock.words (first_of m.lock) m.profile m.alone) };
}
