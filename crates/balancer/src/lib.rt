//! The balancer: the greedy plan of moves by which the groups of a pool come to stand where the weights of the OSDs
//! want them, as a change of the map.
//!
//! - `limits`: how many moves a plan may have, and how far apart two OSDs may have to be at least
//! - `moves`: moves of groups
//! - `request`, `planned`: what a plan is asked for, and what it answers
//! - `plans`: plans, and the change that makes one
//! - `frame`, `board`: what a plan goes by and no move changes, and the state of a plan after the moves so far
//! - `group`, `domains`: groups as a plan keeps them, and what stands above OSDs
//! - `ways`: where groups may go
//! - `load`: what OSDs carry beside a pool, in 256ths of a group
//! - `weights`, `shares`, `standing`: what OSDs weigh, who is a candidate, and which groups stand on each OSD
//! - `ordering`, `compare`, `search`: the candidates in order, which moves are taken rather than others, and the search
//!   for the best one
//! - `running`: the moves, made one after another
//! - `leaving`: whether a group may leave an OSD, wherever it would go
//! - `numbering`, `marks`, `widths`: the failure domains, numbered; to which of them no group may go from an OSD, and
//!   how far moves from an OSD go at most, as far as it is known
//! - `marking`: how marks come and go
#![tactic(auto)]

mod board;
mod compare;
mod domains;
mod frame;
pub mod group;
mod leaving;
pub mod limits;
mod load;
mod marking;
mod marks;
pub mod moves;
mod numbering;
mod ordering;
pub mod planned;
mod plans;
pub mod request;
mod running;
mod search;
mod shares;
mod standing;
mod ways;
mod weights;
mod widths;

pub use moves::Move;
pub use planned::PlannedChange;
pub use plans::plan;
pub use request::Request;
