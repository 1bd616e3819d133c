//! The looks of an `await`, for an epoch that another is to make. They need no lock.
ghost use Rattle.std.specs.Prelude.{◌≡◌, ◌+◌, ◌<◌, ◌≤◌, true, false, length};
ghost use Rattle.session.specs.Watches.{max_looks, HasWatched};

use crossbeam_utils::Backoff;
use epochlog::Keeps;
use monitor::Monitor;
use std::sync::Wait;
use std::sync::atomic::AtomicU64;
use std::time::Duration;

/// How often `await` looks for the epoch.
const MAX_LOOKS: u32 = 1_000_000;

/// The looks before the one of this number let others run, where the epoch is near: while a few sessions hand changes
/// on to one another, it is mostly there by then.
const FIRST_LOOKS: u32 = 256;

/// How many epochs before it an epoch is near.
const NEAR: u64 = 4;

/// How many looks follow one another before `await` sleeps.
const LOOKS_AT_ONCE: u32 = 512;

/// How long it sleeps then, in microseconds.
const SLEEP: u64 = 250;

/// How often an `await` has looked, and whether it has seen the epoch.
#[derive(Clone, Copy, Debug)]
pub(crate) struct Looks {
    pub count: u32,
    pub seen: bool,
}

/// Looks once more whether a monitor has reached an epoch by now.
fn look<K: Keeps + Drop>(monitor: &Monitor<K>, wanted: u64, looks: Looks) -> Looks
    requires { looks.count < max_looks }
    ensures count { result.count ≡ looks.count + 1 }
    ensures first { wanted ≤ monitor.now.first.epoch → result.seen ≡ true }
    ensures last { monitor.now.first.epoch + length monitor.now.row.cells < wanted → result.seen ≡ false }
{
    Looks {
        count: looks.count + 1,
        seen: monitor.has_reached(wanted),
    }
}

/// Looks until a monitor has reached an epoch, at most 1,000,000 times. Where the epoch is near it lets others run
/// after each of the first looks; then it sleeps after some.
pub(crate) fn watch<R: Wait, K: Keeps + Drop>(rt: &R, monitor: &Monitor<K>, wanted: u64) -> Looks
    ensures { HasWatched monitor.now wanted result }
{
    let backoff = Backoff::new();
    let alarm = AtomicU64::new(0);
    let mut looks = Looks {
        count: 0,
        seen: false,
    };
    for _ in 0..MAX_LOOKS {
        looks = look(monitor, wanted, looks);
        if looks.seen {
            break;
        }
        if looks.count < FIRST_LOOKS && monitor.has_reached(wanted.saturating_sub(NEAR)) {
            backoff.snooze();
        } else if looks.count % LOOKS_AT_ONCE == 0 {
            alarm.park_timeout(rt, 0, Duration::from_micros(SLEEP));
        }
    }
    looks
}
