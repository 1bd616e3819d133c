//! What a store is opened with that held the journal of a monitor, and behind it what a crash leaves of later runs.

ghost use Rattle.mapstore_laws.specs.OpeningLaws.{AreOpened};

use map_laws::change_texts::journals_are_read_back;
use map_laws::texts::written_map_is_read_back;
use osdmap::OsdMap;

/// A store may hold the texts of a lawful journal, and behind them what a crash leaves of later runs: all that was
/// accepted, and at most the next change more. Such texts stand for the map after all of these changes and for no
/// other, where memory can hold each text (of less than 2^63 bytes). No such journal is refused as a store is opened,
/// but out of memory, or where that map has an epoch above 2,147,483,648.
pub fn kept_journals_are_opened(first: &OsdMap)
    ensures { AreOpened first.now.map }
{
    first.holds_together();
    written_map_is_read_back(first);
    journals_are_read_back();
}
