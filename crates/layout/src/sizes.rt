// Sizes, addresses, and the three kinds of number.
ghost use Rattle.std.specs.Prelude.{◌≡◌, ◌+◌, ◌≤◌, ◌<◌};
ghost use Rattle.layout.specs.Sizes.{blocks_within, mst_blocks, address_limit, mst_permitted, xrf_permitted, capacity_of, address_of, block_at, offset_at, end_moved, record_length, tag_permitted};

// The most blocks of an MST and of an XRF.
const MST_BLOCKS: usize = 1048575;

const XRF_BLOCKS: usize = 4096;

// The most bytes of a record, and the most fields.
pub const RECORD_MOST: usize = 32766;

pub const FIELDS_MOST: usize = 5458;

// The highest tag.
const TAG_MOST: u16 = 32767;

// The highest offset in its block at which a record begins.
pub const OFFSET_MOST: u16 = 498;

// A master file number, counted from 1.
#[derive(Clone, Copy, Debug, PartialEq, Eq, PartialOrd, Ord)]
pub struct Mfn(pub u32);

// A block number, counted from 1.
#[derive(Clone, Copy, Debug, PartialEq, Eq, PartialOrd, Ord)]
pub struct Block(pub u32);

// A field tag.
#[derive(Clone, Copy, Debug, PartialEq, Eq, PartialOrd, Ord)]
pub struct Tag(pub u16);

#[tactic(auto, unfolding(crate::specs::Sizes::blocks_within))]
fn blocks_within(most: usize, n: usize) -> bool
    requires { most ≤ mst_blocks }
    ensures { result ≡ blocks_within most n }
{
    n % 512 == 0 && (512..=512 * most).contains(&n)
}

// Whether an MST may be `n` bytes long.
pub fn mst_permitted(n: usize) -> bool
    ensures { result ≡ mst_permitted n }
{
    blocks_within(MST_BLOCKS, n)
}

// Whether an XRF may be `n` bytes long.
pub fn xrf_permitted(n: usize) -> bool
    ensures { result ≡ xrf_permitted n }
{
    blocks_within(XRF_BLOCKS, n)
}

// How many MFNs an XRF of `n` bytes has slots for.
pub fn capacity(n: usize) -> usize
    ensures { result ≡ capacity_of n }
{
    127 * (n / 512)
}

// Where the byte at `offset` of a block stands.
pub fn address(block: Block, offset: u16) -> usize
    requires { 1 ≤ block.0 }
    ensures { result ≡ address_of block.0 offset }
{
    (block.0 as usize - 1) * 512 + usize::from(offset)
}

// The block of an address in an MST, or of an end.
pub fn block_at(a: usize) -> Block
    requires { a < address_limit }
    ensures { result.0 ≡ block_at a }
{
    Block((a / 512 + 1) as u32)
}

// The offset of an address in its block.
pub fn offset_at(a: usize) -> u16
    ensures is { result ≡ offset_at a }
    ensures small { result < 512 }
{
    (a % 512) as u16
}

// The end after a record that stops at `a`.
#[tactic(auto, unfolding(crate::specs::Sizes::end_moved))]
pub fn end_moved(a: usize) -> usize
    requires { a < address_limit }
    ensures { result ≡ end_moved a }
{
    if 500 <= a % 512 {
        (a / 512 + 1) * 512
    } else {
        a
    }
}

// Whether a record may be `n` bytes long.
#[tactic(auto, unfolding(crate::specs::Sizes::record_length))]
pub fn record_length(n: usize) -> bool
    ensures { result ≡ record_length n }
{
    n % 2 == 0 && (18..=RECORD_MOST).contains(&n)
}

// Whether a field may have the tag.
#[tactic(auto, unfolding(crate::specs::Sizes::tag_permitted))]
pub fn tag_permitted(t: Tag) -> bool
    ensures { result ≡ tag_permitted t.0 }
{
    (1..=TAG_MOST).contains(&t.0)
}
