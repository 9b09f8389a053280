// A list of calls as numbers, with the MFNs and the drafts that its calls take.
ghost use Rattle.std.specs.Prelude.{◌≡◌, length};
ghost use Rattle.script.specs.Ops.{counts};

use crate::calls::Counts;

// The numbers of the calls, the MFNs that are settled as lists, and the drafts' tags, lengths and bytes, each behind the one before it.
#[derive(Clone, Copy)]
pub struct Script<'a> {
    pub ops: &'a [u32],
    pub mfns: &'a [u32],
    pub tags: &'a [u16],
    pub lens: &'a [u16],
    pub bytes: &'a [u8],
}

impl<'a> Script<'a> {
    // How many MFNs, tags, lengths and bytes there are.
    pub fn counts(&self) -> Counts
        ensures { result ≡ counts (length self.now.mfns.now) (length self.now.tags.now) (length self.now.lens.now) (length self.now.bytes.now) }
    {
        Counts {
            mfns: self.mfns.len(),
            tags: self.tags.len(),
            lens: self.lens.len(),
            bytes: self.bytes.len(),
        }
    }
}
