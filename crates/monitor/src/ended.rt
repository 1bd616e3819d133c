//! What a monitor ends with.

use crate::member::Member;
use epochlog::{Keeps, Nothing};
use state::State;
use tip::Tip;

/// What a monitor ends with: its state, and the count of its changes, by which it has seen all that a member has.
#[derive(Drop)]
pub struct Ended<K: Keeps + Drop = Nothing> {
    pub(crate) state: Box<State<K>>,
    pub(crate) tip: Tip,
}

impl<K: Keeps + Drop> Ended<K> {
    ghost use Rattle.std.specs.Prelude.{◌≡◌, ◌≤◌, length};
    ghost use Rattle.monitor.specs.Ends.{IsCounted};

    /// The state.
    pub fn state(&self) -> &State<K>
        ensures { result.now ≡ self.now.state.value }
    {
        &self.state
    }

    /// The state alone.
    pub fn into_state(self) -> Box<State<K>>
        ensures { result ≡ self.state }
    {
        let Ended { state, .. } = self;
        state
    }

    /// That the state has seen all that a member has.
    pub fn bounds(&self, member: &Member)
        requires { IsCounted self.now member.now }
        ensures { length member.now.pass.history ≤ length self.now.state.value.pass.history }
    {
        self.tip.bounds(&member.seen);
    }
}
