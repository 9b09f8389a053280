// The parts of update and delete that write: a new version at the end or in place. The settled
// version is never written over.
ghost use Rattle.std.specs.Prelude.{◌≡◌, true, false, ◌+◌, ◌≤◌, length};
ghost use Rattle.files.specs.Control.{end_of, counted_less};
ghost use Rattle.files.specs.CrossReference.{with_entry};
ghost use Rattle.layout.specs.Entry.{placed, place_address};
ghost use Rattle.drafts.specs.Draft.{need_of, fields_in};
ghost use Rattle.drafts.specs.Lent.{lent};
ghost use Rattle.drafts.specs.Bytes.{need_for};
ghost use Rattle.store.specs.Reading.{leader_at, current_fields};
ghost use Rattle.versions.specs.Written.{appended, place_at_end, pending_mark, version_leader, version_appended, version_in_place};
ghost use Rattle.versions.specs.Asked.{HasSlot, AtEnd, DraftFits, RecordRead};
ghost use Rattle.layout.specs.Sizes.{fields_most, record_most};

use drafts::draft::Draft;
use layout::entry::{Mark, Place};
use layout::leader::Leader;
use layout::sizes::Mfn;
use store::gate::Reached;

// The need of the fields of a record that was reached.
pub fn own_need(mst: &[u8], was: Reached) -> usize
    requires { RecordRead mst.now was.end was.place was.leader }
    ensures { (result ≡ need_for (current_fields mst.now was.place)) × (18 ≤ result) × (result ≤ record_most) }
{
    let at = layout::entry::place_address(was.place);
    drafts::draft::need(
        was.leader.nvf as usize,
        record::fields::data_length(&mst[at..was.end]),
    )
}

// The leader of a new version: its back pointer is to the old version if that is settled, else the
// old version's own.
#[tactic(auto, unfolding(crate::specs::Written::version_leader))]
fn version_leader(m: Mfn, was: Reached, mfrl: u16, deleted: bool, nvf: u16) -> Leader
    requires { nvf ≤ fields_most }
    ensures is { result ≡ version_leader m.0 was.place was.leader mfrl deleted nvf }
    ensures mfrl { result.mfrl ≡ mfrl }
{
    let (block, offset) = match was.place.mark {
        Mark::Settled => (was.place.block, was.place.offset),
        Mark::Changed | Mark::New => (was.leader.mfbwb, was.leader.mfbwp),
    };
    drafts::writer::leader_for(m, mfrl, block, offset, deleted, nvf)
}

// The mark after a change.
fn pending_mark(mark: Mark) -> Mark
    ensures { result ≡ pending_mark mark }
{
    match mark {
        Mark::Settled | Mark::Changed => Mark::Changed,
        Mark::New => Mark::New,
    }
}

// Writes an update at the end, and its entry.
#[tactic(auto, using(crate::proofs::Writes::draft_versioned))]
pub fn update_at_end(mst: &mut [u8], xrf: &mut [u8], m: Mfn, was: Reached, draft: Draft<'_>)
    requires has_slot { HasSlot xrf.old m.0 }
    requires draft_fits { DraftFits draft.tags.now draft.lens.now draft.data.now }
    requires at_end { AtEnd mst.old was.end (need_of (length draft.tags.now) (length draft.data.now)) }
    ensures master { mst.new ≡ version_appended mst.old m.0 was.place was.leader false (fields_in (lent draft.entry)) }
    ensures cross { xrf.new ≡ with_entry xrf.old m.0 (place_at_end mst.old false (pending_mark was.place.mark)) }
{
    let leader = version_leader(m, was, draft.need() as u16, false, draft.tags.len() as u16);
    crate::create::append_draft(mst, was.end, leader, draft);
    let place = crate::create::end_place(was.end, false, pending_mark(was.place.mark));
    files::cross_reference::put_entry(xrf, m, place);
}

// Writes an update over the pending version.
pub fn update_in_place(mst: &mut [u8], m: Mfn, was: Reached, draft: Draft<'_>)
    requires le_block { (1 ≤ was.place.block.0) × (place_address was.place + was.leader.mfrl ≤ length mst.old) }
    requires draft_fits { (DraftFits draft.tags.now draft.lens.now draft.data.now) × (need_of (length draft.tags.now) (length draft.data.now) ≤ was.leader.mfrl) }
    ensures { mst.new ≡ version_in_place mst.old m.0 was.place was.leader false (fields_in (lent draft.entry)) }
{
    let leader = version_leader(m, was, was.leader.mfrl, false, draft.tags.len() as u16);
    let at = layout::entry::place_address(was.place);
    drafts::writer::write_record(&mut mst[at..], leader, draft);
}

// Copies the fields of the record at a place to the end, under the leader `l`, and moves the end.
fn append_copy(mst: &mut [u8], end: usize, place: Place, l: Leader)
    requires record_read { RecordRead mst.old end place (leader_at mst.old place) }
    requires at_end { (AtEnd mst.old end l.mfrl) × (need_for (current_fields mst.old place) ≤ l.mfrl) }
    ensures { mst.new ≡ appended mst.old l (current_fields mst.old place) }
{
    let at = layout::entry::place_address(place);
    crate::copying::copy_record(mst, at, end, l);
    files::control::put_end(mst, layout::sizes::end_moved(end + l.mfrl as usize));
}

// Copies a settled record to the end as deleted, and writes RECCNT and its entry.
#[tactic(auto, using(crate::proofs::Writes::copy_versioned))]
pub fn delete_at_end(mst: &mut [u8], xrf: &mut [u8], m: Mfn, was: Reached)
    requires has_slot { HasSlot xrf.old m.0 }
    requires record_read { RecordRead mst.old was.end was.place was.leader }
    requires at_end { AtEnd mst.old was.end (need_for (current_fields mst.old was.place)) }
    ensures master { mst.new ≡ counted_less (version_appended mst.old m.0 was.place was.leader true (current_fields mst.old was.place)) }
    ensures cross { xrf.new ≡ with_entry xrf.old m.0 (place_at_end mst.old true Mark.Changed) }
{
    let need = own_need(mst, was);
    let leader = version_leader(m, was, need as u16, true, was.leader.nvf);
    append_copy(mst, was.end, was.place, leader);
    files::control::count_less(mst);
    let place = crate::create::end_place(was.end, true, Mark::Changed);
    files::cross_reference::put_entry(xrf, m, place);
}

// Rewrites a pending record as deleted, RECCNT and its entry.
pub fn delete_in_place(mst: &mut [u8], xrf: &mut [u8], m: Mfn, was: Reached)
    requires has_slot { HasSlot xrf.old m.0 }
    requires record_read { RecordRead mst.old (end_of mst.old) was.place was.leader }
    ensures master { mst.new ≡ counted_less (version_in_place mst.old m.0 was.place was.leader true (current_fields mst.old was.place)) }
    ensures cross { xrf.new ≡ with_entry xrf.old m.0 (placed was.place.block.0 was.place.offset true was.place.mark) }
{
    let leader = version_leader(m, was, was.leader.mfrl, true, was.leader.nvf);
    let at = layout::entry::place_address(was.place);
    drafts::writer::rewrite_record(&mut mst[at..], leader);
    files::control::count_less(mst);
    let place = Place {
        deleted: true,
        ..was.place
    };
    files::cross_reference::put_entry(xrf, m, place);
}
