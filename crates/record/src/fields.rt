// The fields of a record that passed its test, and the search among them.
ghost use Rattle.std.specs.Prelude.{◌≡◌, ◌<◌, length, get_or};
ghost use Rattle.record.specs.Fields.{fields_of, find_of, data_of};
ghost use Rattle.record.specs.Record.{Readable};

use crate::directory::{len_at, pos_at, tag_at};
use layout::sizes::Tag;
use word::integer::u16_at;

// Where in its record a field lies.
#[derive(Clone, Copy, Debug, Default, PartialEq, Eq)]
pub struct Span {
    pub start: usize,
    pub len: usize,
}

// Why a field is not found: its tag does not occur, or it occurs fewer times than asked.
#[derive(Clone, Copy, Debug, PartialEq, Eq)]
pub enum NotFound {
    Missing,
    Fewer { occurrences: u32 },
}

// Finds the field of a tag by its occurrence, counted from 1. What was met of a tag on the way is what `left` fell by.
pub fn find_field(rec: &[u8], tag: Tag, occurrence: u32) -> Result<Span, NotFound>
    requires { Readable rec.now }
    ensures { result ≡ find_of rec.now tag.0 occurrence }
{
    if occurrence == 0 {
        return Err(NotFound::Missing);
    }
    let base = usize::from(u16_at(rec, 12));
    let nvf = usize::from(u16_at(rec, 14));
    let mut left = occurrence;
    for i in 0..nvf {
        if tag_at(rec, i) == tag {
            if left == 1 {
                return Ok(Span {
                    start: base + pos_at(rec, i),
                    len: len_at(rec, i),
                });
            }
            left -= 1;
        }
    }
    match occurrence - left {
        0 => Err(NotFound::Missing),
        occurrences => Err(NotFound::Fewer { occurrences }),
    }
}

// One byte of a record.
pub fn byte_at(rec: &[u8], i: usize) -> u8
    requires { i < length rec.now }
    ensures { result ≡ get_or rec.now i 0 }
{
    rec[i]
}

// How many bytes of data the fields have: the last entry's POS plus its LEN.
pub fn data_length(rec: &[u8]) -> usize
    requires { Readable rec.now }
    ensures { result ≡ length (data_of (fields_of rec.now)) }
{
    match usize::from(u16_at(rec, 14)).checked_sub(1) {
        None => 0,
        Some(last) => pos_at(rec, last) + len_at(rec, last),
    }
}
