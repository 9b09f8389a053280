// The draft of a record, and its rules.
ghost use Rattle.std.specs.Prelude.{◌≡◌, ◌≤◌, length};
ghost use Rattle.std.specs.List.{list_all};
ghost use Rattle.layout.specs.Sizes.{fields_most, tag_permitted};
ghost use Rattle.drafts.specs.Draft.{sum, need_of, is_right};
ghost use Rattle.drafts.specs.Lent.{lent};

use layout::sizes::{FIELDS_MOST, RECORD_MOST, Tag};

// The sum of the lengths. By index: a chain over the slice, compiled for a key's core, whose addresses
// have 32 bits, refused every draft with a field (`board/tests`).
#[tactic(auto, using(crate::proofs::DraftFields::total_more, crate::proofs::DraftFields::sum_whole))]
fn total(lens: &[u16]) -> usize
    requires { length lens.now ≤ fields_most }
    ensures { result ≡ sum lens.now }
{
    let mut total = 0;
    for i in 0..lens.len() {
        total += usize::from(lens[i]);
    }
    total
}

// Whether every tag is in range. By index, likewise.
fn tags_permitted(tags: &[u16]) -> bool
    ensures { result ≡ list_all tag_permitted tags.now }
{
    for i in 0..tags.len() {
        if !layout::sizes::tag_permitted(Tag(tags[i])) {
            return false;
        }
    }
    true
}

// The bytes that a record of so many fields and so much data needs.
#[tactic(auto, unfolding(crate::specs::Draft::need_of))]
pub fn need(fields: usize, size: usize) -> usize
    requires { (fields ≤ 65535) × (size ≤ 65535) }
    ensures { result ≡ need_of fields size }
{
    (18 + 6 * fields + size).next_multiple_of(2)
}

// The draft of a record: the tags and the lengths of its fields, and their data one after the other, all lent.
#[derive(Clone, Copy)]
pub struct Draft<'a> {
    pub tags: &'a [u16],
    pub lens: &'a [u16],
    pub data: &'a [u8],
}

impl<'a> Draft<'a> {
    // The bytes that its record needs.
    pub fn need(self) -> usize
        requires { (length self.tags.now ≤ 65535) × (length self.data.now ≤ 65535) }
        ensures { result ≡ need_of (length self.entry.tags.now) (length self.entry.data.now) }
    {
        need(self.tags.len(), self.data.len())
    }

    // Whether it is right.
    #[tactic(auto, using(crate::proofs::DraftFields::draft_answers), unfolding(crate::specs::Draft::draft_right))]
    pub fn is_right(self) -> bool
        ensures { result ≡ is_right (lent self.entry) }
    {
        self.tags.len() == self.lens.len()
            && self.tags.len() <= FIELDS_MOST
            && self.data.len() <= RECORD_MOST
            && self.need() <= RECORD_MOST
            && tags_permitted(self.tags)
            && total(self.lens) == self.data.len()
    }
}
