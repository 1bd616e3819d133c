//! All rows of a kept journal, one after the other.

ghost use Rattle.replay.specs.Replays.{Stands};

use crate::fault::Fault;
use crate::row::{Row, make_row};
use mapjson::read_map;
use mapparts::Profile;
use osdmap::OsdMap;
use std::alloc::Global;

/// The map that a text states, with the changes of the rows made one after the other.
///
/// # Errors
///
/// [`Fault::First`] where [`read_map`] refuses the text; else [`Fault::Row`] with the first row that [`make_row`]
/// refuses.
pub fn replay(alloc: Global, text: &[u8], rows: &[Row], profile: Profile) -> Result<OsdMap, Fault>
    ensures { Stands profile text.now rows.now (λ m. m.map) result }
{
    let mut map = match read_map(alloc, text, profile) {
        Ok(map) => map,
        Err(refusal) => return Err(Fault::First(refusal)),
    };
    for row in rows {
        if let Err(refusal) = make_row(&mut map, alloc, row, profile) {
            return Err(Fault::Row {
                epoch: row.epoch,
                refusal,
            });
        }
    }
    Ok(map)
}
