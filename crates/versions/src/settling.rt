// The part of a settle that writes.
ghost use Rattle.std.specs.Prelude.{◌≡◌};
ghost use Rattle.files.specs.Control.{end_of};
ghost use Rattle.store.specs.Reading.{leader_at};
ghost use Rattle.versions.specs.Written.{settled_mst, settled_xrf};
ghost use Rattle.versions.specs.Asked.{HasSlot, RecordRead};

use layout::entry::{Mark, Place};
use layout::sizes::Mfn;

// Clears the back pointer and the mark of a pending record.
pub fn settle_place(mst: &mut [u8], xrf: &mut [u8], m: Mfn, place: Place)
    requires has_slot { HasSlot xrf.old m.0 }
    requires record_read { RecordRead mst.old (end_of mst.old) place (leader_at mst.old place) }
    ensures master { mst.new ≡ settled_mst mst.old place }
    ensures cross { xrf.new ≡ settled_xrf xrf.old m.0 place }
{
    let at = layout::entry::place_address(place);
    drafts::writer::clear_back(&mut mst[at..]);
    let settled = Place {
        mark: Mark::Settled,
        ..place
    };
    files::cross_reference::put_entry(xrf, m, settled);
}
