// The record writer: leader, directory, data and zeros, into the front of a lent slice.
ghost use Rattle.std.specs.Prelude.{◌≡◌, true, [], ◌∷◌, ◌+◌, ◌*◌, ◌≤◌, ◌<◌, length, replicate};
ghost use Rattle.word.specs.Overwrite.{overwrite};
ghost use Rattle.layout.specs.Sizes.{fields_most};
ghost use Rattle.layout.specs.Leader.{leader_of};
ghost use Rattle.record.specs.Fields.{fields_of};
ghost use Rattle.record.specs.Record.{Readable};
ghost use Rattle.drafts.specs.Draft.{need_of, is_right, fields_in};
ghost use Rattle.drafts.specs.Lent.{lent};
ghost use Rattle.drafts.specs.Bytes.{entry_bytes, directory_bytes, used_by, record_bytes, leader_for};
ghost use Rattle.drafts.specs.Inner.{framed};

use crate::draft::Draft;
use layout::leader::Leader;
use layout::sizes::{Block, Mfn, Tag};
use record::directory::DirectoryEntry;

// The leader of a record of `nvf` fields.
pub fn leader_for(mfn: Mfn, mfrl: u16, back: Block, offset: u16, deleted: bool, nvf: u16) -> Leader
    requires { nvf ≤ fields_most }
    ensures { result ≡ leader_for mfn.0 mfrl back.0 offset deleted nvf }
{
    Leader {
        mfn,
        mfrl,
        mfbwb: back,
        mfbwp: offset,
        base: 18 + 6 * nvf,
        nvf,
        status: record::test::status_for(deleted),
    }
}

// Writes one directory entry at `at`.
fn put_directory_entry(out: &mut [u8], at: usize, e: DirectoryEntry)
    requires { at + 6 ≤ length out.old }
    ensures { out.new ≡ overwrite out.old at (entry_bytes e.tag.0 e.pos e.len) }
{
    word::integer::put_u16(out, at, e.tag.0);
    word::integer::put_u16(out, at + 2, e.pos);
    word::integer::put_u16(out, at + 4, e.len);
}

// Writes the directory of a draft from byte 18 on. Each POS is the sum of the lengths before it.
fn put_directory(out: &mut [u8], draft: Draft<'_>)
    requires right { is_right (lent draft) ≡ true }
    requires room { 18 + 6 * length draft.tags.now ≤ length out.old }
    ensures { out.new ≡ overwrite out.old 18 (directory_bytes 0 (fields_in (lent draft.entry))) }
{
    let mut pos = 0;
    for (i, &tag) in draft.tags.iter().enumerate() {
        let len = draft.lens[i];
        let tag = Tag(tag);
        put_directory_entry(out, 18 + 6 * i, DirectoryEntry { tag, pos, len });
        pos += len;
    }
}

// Writes the leader `l` before a body that stands already, up to `used`, and zeros behind it up to MFRL.
pub fn frame_record(out: &mut [u8], used: usize, l: Leader)
    requires { (18 ≤ used) × (used ≤ l.mfrl) × (l.mfrl ≤ length out.old) }
    ensures { out.new ≡ framed out.old used l }
{
    layout::leader::put_leader(out, l);
    word::bytes::fill(out, used, usize::from(l.mfrl) - used, 0);
}

// Writes a draft's record under the leader `l`, MFRL bytes.
pub fn write_record(out: &mut [u8], l: Leader, draft: Draft<'_>)
    requires right { is_right (lent draft) ≡ true }
    requires room { (need_of (length draft.tags.now) (length draft.data.now) ≤ l.mfrl) × (l.mfrl ≤ length out.old) }
    ensures { out.new ≡ overwrite out.old 0 (record_bytes l (fields_in (lent draft.entry))) }
{
    let base = 18 + 6 * draft.tags.len();
    put_directory(out, draft);
    word::bytes::copy_to(out, base, draft.data);
    frame_record(out, base + draft.data.len(), l);
}

// The bytes of the record at the front of `rec` up to the end of its data.
pub fn used_by(rec: &[u8]) -> usize
    requires { Readable rec.now }
    ensures { (result ≡ used_by (fields_of rec.now)) × (18 ≤ result) × (result ≤ (leader_of rec.now).mfrl) }
{
    usize::from(word::integer::u16_at(rec, 12)) + record::fields::data_length(rec)
}

// Writes one byte of a record.
#[tactic(auto, using(word::proofs::Overwrite::overwrite_one))]
pub fn put_byte(out: &mut [u8], at: usize, b: u8)
    requires { at < length out.old }
    ensures { out.new ≡ overwrite out.old at (b ∷ []) }
{
    out[at] = b;
}

// Rewrites the record at the front of `rec` in place, with its own fields, under the leader `l`.
pub fn rewrite_record(rec: &mut [u8], l: Leader)
    requires readable { Readable rec.old }
    requires mfrl_value { l.mfrl ≡ (leader_of rec.old).mfrl }
    ensures { rec.new ≡ overwrite rec.old 0 (record_bytes l (fields_of rec.old)) }
{
    let used = used_by(rec);
    frame_record(rec, used, l);
}

// Sets the back pointer of the record at the front of `rec` to 0/0.
pub fn clear_back(rec: &mut [u8])
    requires { 18 ≤ length rec.old }
    ensures { rec.new ≡ overwrite rec.old 6 (replicate 6 0) }
{
    word::bytes::fill(rec, 6, 6, 0);
}
