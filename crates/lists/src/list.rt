// The lengths of a list of calls.
ghost use Rattle.std.specs.Prelude.{◌≤◌, length};

use crate::numbers::Numbers;

// How long a list wants the buffers and the two rooms; and how many numbers, MFNs, tags, lengths and bytes it has.
#[derive(Clone, Copy)]
pub struct Lengths {
    pub mst: u32,
    pub xrf: u32,
    pub answers: u32,
    pub shown: u32,
    pub ops: u32,
    pub mfns: u32,
    pub tags: u32,
    pub lens: u32,
    pub bytes: u32,
}

impl Lengths {
    // The nine lengths at the head of a list, of which the first was read.
    pub fn read(mst: u32, numbers: &mut Numbers) -> Lengths
        ensures { length numbers.new.text.now ≤ length numbers.old.text.now }
    {
        Lengths {
            mst,
            xrf: numbers.next_or_zero(),
            answers: numbers.next_or_zero(),
            shown: numbers.next_or_zero(),
            ops: numbers.next_or_zero(),
            mfns: numbers.next_or_zero(),
            tags: numbers.next_or_zero(),
            lens: numbers.next_or_zero(),
            bytes: numbers.next_or_zero(),
        }
    }
}
