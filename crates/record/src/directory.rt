// The directory of a record: entries of TAG, POS, LEN from byte 18 on.
ghost use Rattle.std.specs.Prelude.{◌≡◌, ◌+◌, ◌*◌, ◌≤◌, ◌<◌, length, IfOk};
ghost use Rattle.record.specs.Directory.{isis, tag_at, pos_at, len_at, entry_right, first_broken};
ghost use Rattle.record.specs.Inner.{past, told};

use layout::sizes::Tag;
use word::integer::u16_at;

// A directory entry.
#[derive(Clone, Copy)]
pub struct DirectoryEntry {
    pub tag: Tag,
    pub pos: u16,
    pub len: u16,
}

// TAG of entry `i`, counted from 0.
pub fn tag_at(rec: &[u8], i: usize) -> Tag
    requires { 24 + 6 * i ≤ length rec.now }
    ensures { result.0 ≡ tag_at rec.now i }
{
    Tag(u16_at(rec, 18 + 6 * i))
}

// POS of entry `i`.
pub fn pos_at(rec: &[u8], i: usize) -> usize
    requires { 24 + 6 * i ≤ length rec.now }
    ensures { (result ≡ pos_at rec.now i) × (result < 65536) }
{
    usize::from(u16_at(rec, 20 + 6 * i))
}

// LEN of entry `i`.
pub fn len_at(rec: &[u8], i: usize) -> usize
    requires { 24 + 6 * i ≤ length rec.now }
    ensures { (result ≡ len_at rec.now i) × (result < 65536) }
{
    usize::from(u16_at(rec, 22 + 6 * i))
}

// Whether entry `i` keeps the rules, after lengths that sum to `pos` and with `room` bytes for the data.
#[tactic(auto, unfolding(crate::specs::Directory::entry_right))]
fn entry_right(rec: &[u8], room: usize, i: usize, pos: usize) -> bool
    requires { (24 + 6 * i ≤ length rec.now) × (pos ≤ 65535) }
    ensures { result ≡ entry_right isis rec.now room i pos }
{
    layout::sizes::tag_permitted(tag_at(rec, i))
        && pos_at(rec, i) == pos
        && pos + len_at(rec, i) <= room
}

// The sum of the lengths behind entry `i`, after lengths that sum to `pos`; or its number, counted from 1, where it breaks a rule.
#[tactic(auto, unfolding(crate::specs::Inner::past))]
fn past_entry(rec: &[u8], room: usize, i: usize, pos: usize) -> Result<usize, u32>
    requires { (24 + 6 * i ≤ length rec.now) × (pos ≤ room) × (room ≤ 65535) × (i ≤ 65535) }
    ensures is { result ≡ past isis rec.now room 1 i pos }
    ensures fits { IfOk result (λ sum. sum ≤ room) }
{
    if !entry_right(rec, room, i, pos) {
        return Err(i as u32 + 1);
    }
    Ok(pos + len_at(rec, i))
}

// The same of the four entries from `i` on: the sum behind them, or the number of the first that breaks a rule.
#[tactic(auto, unfolding(crate::specs::Inner::past))]
fn past_four(rec: &[u8], room: usize, i: usize, pos: usize) -> Result<usize, u32>
    requires { (42 + 6 * i ≤ length rec.now) × (pos ≤ room) × (room ≤ 65535) × (i ≤ 65532) }
    ensures is { result ≡ past isis rec.now room 4 i pos }
    ensures fits { IfOk result (λ sum. sum ≤ room) }
{
    let second = past_entry(rec, room, i, pos)?;
    let third = past_entry(rec, room, i + 1, second)?;
    let fourth = past_entry(rec, room, i + 2, third)?;
    past_entry(rec, room, i + 3, fourth)
}

// Tests `nvf` entries, and tells the number of the first that breaks a rule, counted from 1. One walk, which ends at that entry: four entries in a
// turn while there are four, which is faster than one, and then one.
pub(crate) fn test_directory(rec: &[u8], nvf: usize, room: usize) -> Result<(), u32>
    requires { (18 + 6 * nvf ≤ length rec.now) × (nvf ≤ 65535) × (room ≤ 65535) }
    ensures { result ≡ told (first_broken isis rec.now room nvf 0 0) }
{
    let mut pos = 0;
    for k in 0..nvf / 4 {
        pos = past_four(rec, room, 4 * k, pos)?;
    }
    for i in nvf / 4 * 4..nvf {
        pos = past_entry(rec, room, i, pos)?;
    }
    Ok(())
}
