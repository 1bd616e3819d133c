//! Of two holds of a monitor's lock one that writes is beside no other: who calls these would have both at once, and
//! proves anything. No call can meet what they ask for; that is what they say.

ghost use Rattle.std.specs.Prelude.{◌≡◌};
ghost use Rattle.monitor.specs.Members.{Holds, IsCountedBy, Shares};

use crate::locked::Locked;
use crate::monitor::Monitor;
use crate::shared::Shared;
use crate::turns::locked_of;
use epochlog::Keeps;
use ticketlock::WriteGuard;

/// There is no hold that is shared beside one of a member that commits: it would see the one count of the state's
/// changes rise while it holds it still.
pub(crate) fn shared_beside_writer<K: Keeps + Drop>(
    monitor: &Monitor<K>,
    writer: &mut WriteGuard<'_, Locked<K>>,
    shared: &Shared<'_, K>,
)
    requires writer { Holds monitor.now writer.old × IsCountedBy monitor.now writer.old.value }
    requires shared { Shares monitor.now shared.now.guard }
    ensures { ⊥ }
{
    let _ = monitor;
    let theirs = locked_of(&shared.guard);
    let mine = writer.value_mut();
    mine.tip.bounds(&theirs.tip.seen());
    theirs.tip.bounds(&mine.tip.seen());
    mine.tip.rise(1);
    theirs.tip.bounds(&mine.tip.seen());
}

/// Nor are there two of members that commit.
pub(crate) fn writer_beside_writer<K: Keeps + Drop>(
    monitor: &Monitor<K>,
    one: &mut WriteGuard<'_, Locked<K>>,
    other: &WriteGuard<'_, Locked<K>>,
)
    requires one { Holds monitor.now one.old × IsCountedBy monitor.now one.old.value }
    requires other { Holds monitor.now other.now × IsCountedBy monitor.now other.now.value }
    ensures { ⊥ }
{
    let _ = monitor;
    let theirs = other.value();
    let mine = one.value_mut();
    mine.tip.bounds(&theirs.tip.seen());
    theirs.tip.bounds(&mine.tip.seen());
    mine.tip.rise(1);
    theirs.tip.bounds(&mine.tip.seen());
}
