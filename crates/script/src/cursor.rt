// Where a run stands in its list of calls and in its two rooms.
ghost use Rattle.std.specs.Prelude.{◌≡◌, ◌≤◌};
ghost use Rattle.script.specs.Cursor.{left_at, moved, UsedWithin, Movable};

use crate::calls::Counts;

// How far a run is: calls reported, MFNs, tags, lengths and bytes used, and numbers and bytes written.
#[derive(Clone, Copy, Debug, Default, PartialEq, Eq)]
pub struct Cursor {
    pub calls: usize,
    pub used: Counts,
    pub numbers: usize,
    pub shown: usize,
}

impl Cursor {
    // The cursor after a call with MFNs or a draft that is reported by `size` numbers and `len` bytes.
    pub fn moved(self, n: Counts, size: usize, len: usize) -> Cursor
        requires { Movable self n size len }
        ensures { result ≡ moved self n size len }
    {
        Cursor {
            calls: self.calls + 1,
            used: Counts {
                mfns: self.used.mfns + n.mfns,
                tags: self.used.tags + n.tags,
                lens: self.used.lens + n.lens,
                bytes: self.used.bytes + n.bytes,
            },
            numbers: self.numbers + size,
            shown: self.shown + len,
        }
    }

    // How much of all the MFNs and drafts is left.
    pub fn left(self, all: Counts) -> Counts
        requires { UsedWithin self all }
        ensures { result ≡ left_at all self }
    {
        Counts {
            mfns: all.mfns - self.used.mfns,
            tags: all.tags - self.used.tags,
            lens: all.lens - self.used.lens,
            bytes: all.bytes - self.used.bytes,
        }
    }
}
