//! A hold of the lock that is shared.

use crate::locked::Locked;
use epochlog::{Keeps, Nothing};
use ticketlock::ReadGuard;

/// A hold of a monitor's lock that other members may share: nobody commits while it lasts. It must be spent, by
/// [`Monitor::give_back`](crate::Monitor::give_back), and stays in its thread.
pub struct Shared<'a, K: Keeps + Drop = Nothing> {
    pub(crate) guard: ReadGuard<'a, Locked<K>>,
}
