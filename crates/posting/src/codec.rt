// A posting: eight bytes, most significant first.
ghost use Rattle.std.specs.Prelude.{◌≡◌, ◌+◌, ◌<◌, ◌≤◌, length};
ghost use Rattle.posting.specs.Posting.{posting_at, posting_of, mfn_of, narrow, posting_read, read_of, write_answer, write_out, compare_of};

use crate::answer::Refusal;
use std::cmp::Ordering;

// The four numbers of a posting, also where they are too wide for its bits.
#[derive(Clone, Copy, Debug, Default, PartialEq, Eq)]
pub struct Posting {
    pub mfn: u32,
    pub tag: u32,
    pub occurrence: u32,
    pub sequence: u32,
}

impl Posting {
    // Whether the four numbers fit their bits.
    #[tactic(auto, unfolding(crate::specs::Posting::narrow))]
    fn fits(self) -> bool
        ensures { result ≡ narrow self.mfn self.tag self.occurrence self.sequence }
    {
        self.mfn < 16777216 && self.tag < 65536 && self.occurrence < 256 && self.sequence < 65536
    }

    // The 64 bits of four numbers that fit.
    fn bits(self) -> u64
        requires { (self.mfn < 16777216) × (self.tag < 65536) × (self.occurrence < 256) × (self.sequence < 65536) }
        ensures { result ≡ posting_of self.mfn self.tag self.occurrence self.sequence }
    {
        (self.mfn as u64) * 1099511627776
            + (self.tag as u64) * 16777216
            + (self.occurrence as u64) * 65536
            + (self.sequence as u64)
    }
}

// The posting at `at`: the number of its eight bytes, the highest first. On x86-64 the compiler makes one load and one exchange of them.
#[tactic(auto, unfolding(crate::specs::Posting::posting_at, crate::specs::Posting::quad_at))]
pub fn posting_at(s: &[u8], at: usize) -> u64
    requires { at + 8 ≤ length s.now }
    ensures { result ≡ posting_at s.now at }
{
    u64::from_be_bytes([
        s[at],
        s[at + 1],
        s[at + 2],
        s[at + 3],
        s[at + 4],
        s[at + 5],
        s[at + 6],
        s[at + 7],
    ])
}

// PMFN of the posting at `at`.
pub fn mfn_at(s: &[u8], at: usize) -> u32
    requires { at + 8 ≤ length s.now }
    ensures { (result ≡ mfn_of (posting_at s.now at)) × (result < 16777216) }
{
    u32::from_be_bytes([0, s[at], s[at + 1], s[at + 2]])
}

// The four numbers of the posting in the first eight bytes.
#[tactic(auto, unfolding(crate::specs::Posting::read_of))]
pub fn read(bytes: &[u8]) -> Result<Posting, Refusal>
    ensures { posting_read result ≡ read_of bytes.now }
{
    if bytes.len() < 8 {
        return Err(Refusal::Broken);
    }
    let p = posting_at(bytes, 0);
    Ok(Posting {
        mfn: (p / 1099511627776) as u32,
        tag: (p / 16777216 % 65536) as u32,
        occurrence: (p / 65536 % 256) as u32,
        sequence: (p % 65536) as u32,
    })
}

// Writes the posting of four numbers into the first eight bytes.
#[tactic(auto, unfolding(crate::specs::Posting::write_answer, crate::specs::Posting::write_out))]
pub fn write(p: Posting, out: &mut [u8]) -> Result<(), Refusal>
    ensures answers { result ≡ write_answer p.mfn p.tag p.occurrence p.sequence out.old }
    ensures writes { out.new ≡ write_out p.mfn p.tag p.occurrence p.sequence out.old }
{
    if !p.fits() {
        return Err(Refusal::Broken);
    }
    if out.len() < 8 {
        return Err(Refusal::NoRoom);
    }
    out[..8].copy_from_slice(&p.bits().to_be_bytes());
    Ok(())
}

// 0 where `a` is less, 1 equal, 2 greater.
pub fn compare(a: u64, b: u64) -> u32
    ensures { result ≡ compare_of a b }
{
    match a.cmp(&b) {
        Ordering::Less => 0,
        Ordering::Equal => 1,
        Ordering::Greater => 2,
    }
}
