// A cursor over the postings of a list, by value: it moves by runs, the postings of a segment that stand in one block. Nothing is remembered
// but the numbers here.
ghost use Rattle.std.specs.Prelude.{◌≡◌, ◌≤◌, ◌<◌, ◌%◌};
ghost use Rattle.postings.specs.Cursor.{InBlock, SettledFrom, run_size, past_of};

use crate::segment::{Place, read_header};
use posting::answer::Refusal;

#[derive(Clone, Copy, Debug, PartialEq, Eq)]
pub struct Cursor {
    // Where the segment's next posting stands, and how many are left in it.
    pub at: usize,
    pub left: u32,
    // The next segment, and how many more the file has room for.
    pub next: Place,
    pub fuel: usize,
}

// The cursor at the next posting, none where the list is over: it moves on over segments with no posting left.
pub fn settle(ifp: &[u8], start: Cursor) -> Result<Option<Cursor>, Refusal>
    requires { InBlock ifp.now start }
    ensures { SettledFrom ifp.now start result }
{
    let mut c = start;
    // a walk along links: each segment says where the next one is, so no range or chain names them
    while c.left == 0 {
        if c.next.is_end() {
            return Ok(None);
        }
        if c.fuel == 0 {
            return Err(Refusal::Broken);
        }
        let Some(s) = read_header(ifp, c.next) else {
            return Err(Refusal::Broken);
        };
        let fuel = c.fuel - 1;
        c = Cursor {
            at: s.first,
            left: s.count,
            next: s.next,
            fuel,
        };
    }
    Ok(Some(c))
}

// How many of `left` postings from `at` on stand in its block.
pub fn run_size(at: usize, left: u32) -> u32
    requires { at % 512 ≤ 504 }
    ensures { (result ≡ run_size at left) × (result ≤ 64) }
{
    let n = ((512 - at % 512) / 8) as u32;
    left.min(n)
}

// The cursor behind its run of `n` postings.
pub fn past(c: Cursor, n: u32) -> Cursor
    requires { (n ≤ c.left) × (c.at < 18446744073709550000) }
    ensures { result ≡ past_of c n }
{
    Cursor {
        at: c.at / 512 * 512 + 516,
        left: c.left - n,
        ..c
    }
}
