// A segment's header: where it stands, and its five numbers.
ghost use Rattle.std.specs.Prelude.{◌≡◌, ◌+◌, ◌≤◌, ◌<◌, length, IsTrue};
ghost use Rattle.postings.specs.Segment.{offset_of, is_end, header_inside, count_right, header_of};

use word::integer::u32_at;

// A place in the file: a block, counted from 1, and a word in it, as their 32 bits stand.
#[derive(Clone, Copy, Debug, PartialEq, Eq)]
pub struct Place {
    pub block: u32,
    pub word: u32,
}

impl Place {
    // Whether it is the next place that ends a list.
    pub fn is_end(self) -> bool
        ensures { result ≡ is_end self }
    {
        self.block == 0 && self.word == 0
    }

    // The offset of its word.
    fn offset(self) -> usize
        requires { 1 ≤ self.block }
        ensures { (result ≡ offset_of self) × (result < 4398046511104) }
    {
        (self.block as usize - 1) * 512 + 4 + 4 * (self.word as usize)
    }

    // Whether a header can stand there, in a file of `len` bytes.
    #[tactic(auto, unfolding(crate::specs::Segment::header_inside))]
    fn holds_header(self, len: usize) -> bool
        ensures is { result ≡ header_inside len self }
        ensures inside { IsTrue result → (1 ≤ self.block) × (offset_of self + 20 ≤ len) }
    {
        1 <= self.block && self.block < 2147483648 && self.word <= 120 && self.offset() + 20 <= len
    }
}

// What a header says: the postings in the segment, the total, the next place, and the offset of the first posting.
#[derive(Clone, Copy, Debug, PartialEq, Eq)]
pub struct Segment {
    pub count: u32,
    pub total: u32,
    pub next: Place,
    pub first: usize,
}

// Whether a header's count and capacity are right.
#[tactic(auto, unfolding(crate::specs::Segment::count_right))]
fn count_right(ifp: &[u8], place: Place) -> bool
    requires { (1 ≤ place.block) × (offset_of place + 20 ≤ length ifp.now) }
    ensures { result ≡ count_right ifp.now place }
{
    let at = place.offset();
    let count = u32_at(ifp, at + 12);
    let capacity = u32_at(ifp, at + 16);
    count < 2147483648 && capacity < 2147483648 && count <= capacity
}

// The header at a place, if it is inside the file and its count is right.
#[tactic(auto, unfolding(crate::specs::Segment::header_of))]
pub fn read_header(ifp: &[u8], place: Place) -> Option<Segment>
    ensures { result ≡ header_of ifp.now place }
{
    if !place.holds_header(ifp.len()) {
        return None;
    }
    if !count_right(ifp, place) {
        return None;
    }
    let at = place.offset();
    Some(Segment {
        count: u32_at(ifp, at + 12),
        total: u32_at(ifp, at + 8),
        next: Place {
            block: u32_at(ifp, at),
            word: u32_at(ifp, at + 4),
        },
        first: at + 20,
    })
}
