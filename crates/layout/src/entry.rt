// The cross-reference entry: its kinds, and its 32 bits. Signed division lives only here.
ghost use Rattle.std.specs.Prelude.{◌≡◌, ◌+◌, ◌≤◌};
ghost use Rattle.layout.specs.Sizes.{mst_blocks, offset_most};
ghost use Rattle.layout.specs.Entry.{well_placed, place_of, entry_of, mark_bits, encode_of, place_address};

use crate::sizes::{Block, OFFSET_MOST};

// What is pending: nothing, a change of a settled record, or a record never settled.
#[derive(Clone, Copy, Debug, PartialEq, Eq)]
pub enum Mark {
    Settled,
    Changed,
    New,
}

// Where a record stands, and what its entry says of it.
#[derive(Clone, Copy, Debug, PartialEq, Eq)]
pub struct Place {
    pub block: Block,
    pub offset: u16,
    pub deleted: bool,
    pub mark: Mark,
}

// The kinds of entry below NXTMFN.
#[derive(Clone, Copy, Debug, PartialEq, Eq)]
pub enum Entry {
    Gone,
    Malformed,
    At(Place),
}

// Whether a record may stand at `offset` of `block`, before the end.
#[tactic(auto, unfolding(crate::specs::Entry::well_placed))]
pub fn well_placed(end: usize, block: Block, offset: u16) -> bool
    ensures { result ≡ well_placed end block.0 offset }
{
    if block.0 < 1 {
        return false;
    }
    let at = crate::sizes::address(block, offset);
    offset % 2 == 0 && offset <= OFFSET_MOST && 64 <= at && at + 18 <= end
}

// What a mark adds to the offset.
impl From<Mark> for u32 {
    ghost from_gives = { λ m n. n ≡ mark_bits m };

    #[tactic(auto, unfolding(crate::specs::Entry::mark_bits))]
    fn from(m: Mark) -> u32 {
        match m {
            Mark::Settled => 0,
            Mark::Changed => 512,
            Mark::New => 1024,
        }
    }
}

// The entry of a block, its deleted flag and a low part: the offset, and above it the 512s of the mark.
#[tactic(auto, unfolding(crate::specs::Entry::place_of, crate::specs::Entry::marked_place))]
fn place_of(end: usize, block: Block, deleted: bool, low: u32) -> Entry
    ensures { result ≡ place_of end block.0 deleted low }
{
    let offset = (low % 512) as u16;
    if !well_placed(end, block, offset) {
        return Entry::Malformed;
    }
    let mark = match low / 512 {
        0 => Mark::Settled,
        1 => Mark::Changed,
        2 => Mark::New,
        _ => return Entry::Malformed,
    };
    Entry::At(Place {
        block,
        offset,
        deleted,
        mark,
    })
}

// Which kind of entry `e` is, with the end known.
#[tactic(auto, unfolding(crate::specs::Entry::entry_of))]
pub fn decode(end: usize, e: i32) -> Entry
    ensures { result ≡ entry_of end e }
{
    if e == -2048 {
        return Entry::Gone;
    }
    let block = Block(e.div_euclid(2048).unsigned_abs());
    place_of(end, block, e < 0, e.rem_euclid(2048) as u32)
}

// The entry that names a place.
pub fn encode(p: Place) -> i32
    requires { (1 ≤ p.block.0) × (p.block.0 ≤ mst_blocks) × (p.offset ≤ offset_most) }
    ensures { result ≡ encode_of p }
{
    let low = (u32::from(p.offset) + u32::from(p.mark)) as i32;
    let base = (p.block.0 * 2048) as i32;
    if p.deleted { low - base } else { low + base }
}

// Where a place's record begins.
pub fn place_address(p: Place) -> usize
    requires { 1 ≤ p.block.0 }
    ensures { result ≡ place_address p }
{
    crate::sizes::address(p.block, p.offset)
}
