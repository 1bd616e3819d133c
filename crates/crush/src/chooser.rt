//! What a choose step goes by.

use crate::choose::Tries;
use crate::placement::Placement;
use crate::step::Choose;

/// What a choose step goes by: the placement and the size of its pool, the step, how often it tries, and how many items
/// it seeks below each bucket.
#[derive(Clone, Copy)]
pub(crate) struct Chooser<'a> {
    pub placement: Placement<'a>,
    pub size: u8,
    pub choose: Choose,
    pub tries: Tries,
    pub numrep: u8,
}
