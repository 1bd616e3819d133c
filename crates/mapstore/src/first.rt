//! The text of a first map.

ghost use Rattle.std.specs.Prelude.{◌≡◌, string_bytes, IfOk, OnOk};
ghost use Rattle.mapjson.specs.Written.{written};
ghost use Rattle.mapstore.specs.JournalTexts.{IsTextedMap};

use mapjson::write_map;
use osdmap::OsdMap;
use refusal::Memory;
use std::alloc::Global;

/// The text of a first map: JSON.
///
/// # Errors
///
/// `Memory` (30) where there is no memory for it.
pub(crate) fn write_first(alloc: Global, map: &OsdMap) -> Result<String, Memory>
    ensures text { IfOk result (λ t. string_bytes t ≡ written map.now.map) }
    ensures texted { OnOk result (IsTextedMap map.now.map) }
{
    map.holds_together();
    match String::from_utf8(write_map(alloc, map)?) {
        Ok(text) => Ok(text),
        Err(_) => unreachable!(),
    }
}
