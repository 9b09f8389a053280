// A record's fields written again at the end.
ghost use Rattle.std.specs.Prelude.{◌≡◌, ◌+◌, ◌-◌, ◌≤◌, length};
ghost use Rattle.word.specs.Overwrite.{overwrite, part};
ghost use Rattle.record.specs.Fields.{fields_of};
ghost use Rattle.record.specs.Record.{Readable};
ghost use Rattle.drafts.specs.Bytes.{need_for, record_bytes};

use layout::leader::Leader;

// Copies what stands behind the leader, up to byte `used`.
#[tactic(auto, using(crate::proofs::Body::body_copied))]
fn copy_body(mst: &mut [u8], at: usize, end: usize, used: usize)
    requires { (18 ≤ used) × (at + used ≤ end) × (end + used ≤ length mst.old) }
    ensures { mst.new ≡ overwrite mst.old (end + 18) (part mst.old (at + 18) (used - 18)) }
{
    let (before, behind) = mst.split_at_mut(end);
    word::bytes::copy_to(behind, 18, &before[at + 18..at + used]);
}

// Writes the fields of the record at `at`, which stops at or before the end, as a record at the end
// under the leader `l`.
pub(crate) fn copy_record(mst: &mut [u8], at: usize, end: usize, l: Leader)
    requires readable { Readable (part mst.old at (end - at)) }
    requires at_le_end { (at ≤ end) × (end + l.mfrl ≤ length mst.old) × (need_for (fields_of (part mst.old at (end - at))) ≤ l.mfrl) }
    ensures { mst.new ≡ overwrite mst.old end (record_bytes l (fields_of (part mst.old at (end - at)))) }
{
    let used = drafts::writer::used_by(&mst[at..end]);
    copy_body(mst, at, end, used);
    drafts::writer::frame_record(&mut mst[end..], used, l);
}
