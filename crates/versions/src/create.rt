// A record at the end: the part of a create that writes, and the two steps that every record at the
// end shares.
ghost use Rattle.std.specs.Prelude.{◌≡◌, true, ◌+◌, ◌/◌, ◌%◌, ◌≤◌, length};
ghost use Rattle.files.specs.Control.{next_of};
ghost use Rattle.layout.specs.Sizes.{mfn_most, mst_most, block_at, offset_at};
ghost use Rattle.layout.specs.Entry.{placed};
ghost use Rattle.drafts.specs.Draft.{need_of, is_right, fields_in};
ghost use Rattle.drafts.specs.Lent.{lent};
ghost use Rattle.versions.specs.Written.{appended, created_mst, created_xrf};
ghost use Rattle.versions.specs.Asked.{HasSlot, AtEnd, DraftFits};

use drafts::draft::Draft;
use layout::entry::{Mark, Place};
use layout::leader::Leader;
use layout::sizes::{Block, Mfn};

// The place at the end.
pub(crate) fn end_place(end: usize, deleted: bool, mark: Mark) -> Place
    requires { end ≤ mst_most }
    ensures is { result ≡ placed (block_at end) (offset_at end) deleted mark }
    ensures numbers { (result.block.0 ≡ end / 512 + 1) × (result.offset ≡ end % 512) }
{
    Place {
        block: layout::sizes::block_at(end),
        offset: layout::sizes::offset_at(end),
        deleted,
        mark,
    }
}

// Writes a draft's record at the end, and moves the end.
pub(crate) fn append_draft(mst: &mut [u8], end: usize, l: Leader, draft: Draft<'_>)
    requires right { is_right (lent draft) ≡ true }
    requires at_end { (AtEnd mst.old end l.mfrl) × (need_of (length draft.tags.now) (length draft.data.now) ≤ l.mfrl) }
    ensures { mst.new ≡ appended mst.old l (fields_in (lent draft.entry)) }
{
    drafts::writer::write_record(&mut mst[end..], l, draft);
    files::control::put_end(mst, layout::sizes::end_moved(end + l.mfrl as usize));
}

// Writes a draft's record at the end under the next MFN, NXTMFN, RECCNT and the entry.
pub fn create_at_end(
    mst: &mut [u8],
    xrf: &mut [u8],
    next: Mfn,
    end: usize,
    need: usize,
    draft: Draft<'_>,
)
    requires has_slot { (HasSlot xrf.old next.0) × (next.0 ≡ next_of mst.old) × (next.0 ≤ mfn_most) }
    requires at_end { (AtEnd mst.old end need) × (need ≡ need_of (length draft.tags.now) (length draft.data.now)) }
    requires draft_fits { DraftFits draft.tags.now draft.lens.now draft.data.now }
    ensures master { mst.new ≡ created_mst mst.old (fields_in (lent draft.entry)) }
    ensures cross { xrf.new ≡ created_xrf mst.old xrf.old }
{
    let l = drafts::writer::leader_for(
        next,
        need as u16,
        Block(0),
        0,
        false,
        draft.tags.len() as u16,
    );
    append_draft(mst, end, l, draft);
    files::control::put_next(mst, Mfn(next.0 + 1));
    files::control::count_more(mst, true);
    files::cross_reference::put_entry(xrf, next, end_place(end, false, Mark::New));
}
