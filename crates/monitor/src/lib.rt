//! The monitor: the state behind a lock, the row of sealed epochs beside it, the members who ask and commit by the
//! lock, and followers who read the row without it. What each call answers is that of the state of one thread after
//! one history, which goes on from all that the caller has seen.
//!
//! - `monitor`, `open`: a monitor, and how one is opened
//! - `member`, `question`, `asking`: who asks a monitor, what is asked, and how it is answered
//! - `calls`: what a member commits
//! - `turns`, `locked`: a member's turns at the lock, and what lies under it
//! - `shared`, `look`: holds of the lock that members share
//! - `beside`: of two holds one that writes is beside no other
//! - `news`: what one member has seen, told to another
//! - `tally`: how many changes each member has made
//! - `ended`: what a monitor ends with
//! - `follower`: who reads the row of sealed epochs without the lock
#![tactic(auto)]

mod asking;
mod beside;
mod calls;
mod ended;
mod follower;
mod locked;
mod look;
mod member;
mod monitor;
mod news;
mod open;
mod question;
mod shared;
mod tally;
mod turns;

pub use balancer::Request;
pub use ended::Ended;
pub use epochlog::{Keeps, Nothing};
pub use follower::Follower;
pub use look::Look;
pub use member::Member;
pub use monitor::Monitor;
pub use news::News;
pub use open::Limits;
pub use question::{Answer, Question};
pub use shared::Shared;
pub use state::{Balance, Commit, State};
pub use ticketlock::limits::{MAX_DRAWS, MAX_SEATS};
pub use upmap_cleanup::{Cause, Remnant};
