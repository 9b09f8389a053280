// The field walker: it keeps the record that it walks, how many fields that has and its place in the directory, and hands out tag and
// field in directory order, as an iterator. `list_fields` walks.
ghost use Rattle.std.specs.Prelude.{◌≡◌, ◌+◌, ◌<◌, ◌^◌, length, set};
ghost use Rattle.std.specs.Iterator.{YieldsFirst, item_count};
ghost use Rattle.word.specs.Overwrite.{overwrite};
ghost use Rattle.layout.specs.Leader.{leader_of};
ghost use Rattle.walking.specs.Inner.{AtField, Listable};
ghost use Rattle.record.specs.Record.{Readable};
ghost use Rattle.walking.specs.Walker.{spot_at, spots_of, spot_tag, spot_start, spot_length, walked_at, tags_of, starts_of, lengths_of};

use layout::sizes::Tag;
use record::directory::{len_at, pos_at, tag_at};
use word::integer::u16_at;

// A field as a walk hands it out: its tag, and where in the record it lies.
#[derive(Clone, Copy, Debug, PartialEq, Eq)]
pub struct Spot {
    pub tag: Tag,
    pub start: usize,
    pub len: usize,
}

// How many fields a record has.
#[tactic(auto, using(record::proofs::Facts::readable_facts), unfolding(layout::specs::Leader::leader_of))]
pub fn field_count(rec: &[u8]) -> usize
    requires { Readable rec.now }
    ensures { result ≡ (leader_of rec.now).nvf }
{
    usize::from(u16_at(rec, 14))
}

// The field at an index of a record that has `count` fields: its data begin behind that many directory entries.
fn spot_at(rec: &[u8], count: usize, index: usize) -> Spot
    requires { AtField rec.now count index }
    ensures { result ≡ spot_at rec.now index }
{
    Spot {
        tag: tag_at(rec, index),
        start: 18 + 6 * count + pos_at(rec, index),
        len: len_at(rec, index),
    }
}

// A walk over the fields of a record that can be read: the record's bytes, how many fields it has, and the directory index that the walk
// has come to. It hands out the fields in directory order.
#[derive(Clone, Copy)]
pub struct FieldWalker<'a> {
    pub rec: &'a [u8],
    pub count: usize,
    pub index: usize,
    ghost readable: { Readable rec.now },
    ghost counted: { count ≡ (leader_of rec.now).nvf },
}

impl<'a> FieldWalker<'a> {
    ghost use Rattle.walking.specs.Walk.{spots_left};

    // The walk from the first field on, of a record that has `count`.
    fn new(rec: &'a [u8], count: usize) -> FieldWalker<'a>
        requires { (Readable rec.now) × (count ≡ (leader_of rec.now).nvf) }
        ensures { spots_left result ≡ spots_of rec.now }
    {
        FieldWalker {
            rec,
            count,
            index: 0,
        }
    }
}

impl<'a> Iterator for FieldWalker<'a> {
    ghost use Rattle.walking.specs.Walk.{spots_left};

    type Item = Spot;

    ghost next_gives = { YieldsFirst spots_left };

    ghost remaining = { item_count spots_left };

    fn next(&mut self) -> Option<Spot> {
        if self.count <= self.index {
            return None;
        }
        let spot = spot_at(self.rec, self.count, self.index);
        self.index += 1;
        Some(spot)
    }
}

// Writes a field down at an index of three lists: tag, start behind `at`, and length.
fn note(
    spot: Spot,
    index: usize,
    at: usize,
    tags: &mut [u16],
    starts: &mut [usize],
    lens: &mut [usize],
)
    requires { (index < length tags.old) × (index < length starts.old) × (index < length lens.old) × (at + spot.start < 2 ^ 64) }
    ensures { (tags.new ≡ set tags.old index (spot_tag spot)) × (starts.new ≡ set starts.old index (spot_start at spot)) × (lens.new ≡ set lens.old index (spot_length spot)) }
{
    tags[index] = spot.tag.0;
    starts[index] = at + spot.start;
    lens[index] = spot.len;
}

// Lists the `count` fields of a record that begins at `at`, in one walk and in directory order: their tags, starts and lengths go to the
// front of the three lists. Gives how many were listed.
pub fn list_fields(
    rec: &[u8],
    count: usize,
    at: usize,
    tags: &mut [u16],
    starts: &mut [usize],
    lens: &mut [usize],
) -> usize
    requires { Listable rec.now count at tags.old starts.old lens.old }
    ensures { (result ≡ (leader_of rec.now).nvf) × (tags.new ≡ overwrite tags.old 0 (tags_of rec.now)) × (starts.new ≡ overwrite starts.old 0 (starts_of at rec.now)) × (lens.new ≡ overwrite lens.old 0 (lengths_of rec.now)) }
{
    for (index, spot) in FieldWalker::new(rec, count).enumerate() {
        note(spot, index, at, tags, starts, lens);
    }
    count
}

// What stands at an index, whatever the index, for callers that ask for one field alone.
#[tactic(auto, unfolding(crate::specs::Walker::walked_at))]
pub fn field_span(rec: &[u8], index: usize) -> Option<Spot>
    requires { Readable rec.now }
    ensures { result ≡ walked_at rec.now index }
{
    let count = field_count(rec);
    if count <= index {
        return None;
    }
    Some(spot_at(rec, count, index))
}
