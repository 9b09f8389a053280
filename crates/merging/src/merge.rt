// The common and the joined MFNs of two lists: one merge of two heads, with nothing stored between. It runs a first time, only to count, where
// the lists are longer than the room.
ghost use Rattle.std.specs.Prelude.{◌≡◌, true, false, cond, ◌+◌, ◌≤◌, ◌<◌, length};
ghost use Rattle.word.specs.Overwrite.{overwrite};
ghost use Rattle.postings.specs.Cursor.{InBlock, rest_of, stands_right};
ghost use Rattle.merging.specs.Merge.{mfns_of, merged};
ghost use Rattle.merging.specs.Heads.{unread_of, Headed, Reads, behind_of, leading_of, gives_of, writes_of, most_of};
ghost use Rattle.postings.specs.Calls.{given, given_of, given_out};
ghost use Rattle.merging.specs.Calls.{both_of, mfns_given, mfns_out};

use posting::answer::Refusal;
use posting::codec::mfn_at;
use postings::cursor::{Cursor, past, run_size, settle};
use postings::list::{find, right};
use postings::segment::Place;

// Which MFNs of two lists are asked for.
#[derive(Clone, Copy, Debug, PartialEq, Eq)]
pub enum Which {
    Common,
    Joined,
}

impl Which {
    // An MFN that is 2^24 where nothing is left to give: of two lists that are joined the lower one, and of common MFNs the higher, since with a
    // list that is over nothing is in common.
    #[tactic(auto, unfolding(crate::specs::Heads::leading_of))]
    fn leading(self, a: u32, b: u32) -> u32
        ensures { result ≡ leading_of (both_of self) a b }
    {
        match self {
            Which::Common => a.max(b),
            Which::Joined => a.min(b),
        }
    }

    // Whether a turn gives m, the lower MFN of two, after `last`: a common one only if they are equal.
    #[tactic(auto, unfolding(crate::specs::Heads::gives_of))]
    fn gives(self, a: u32, b: u32, last: u32, m: u32) -> bool
        ensures { result ≡ gives_of (both_of self) a b last m }
    {
        match self {
            Which::Common => (m != last) & (a == b),
            Which::Joined => m != last,
        }
    }

    // Whether a turn writes its MFN. Of joined lists it does also where it gives none: then the MFN stands there.
    #[tactic(auto, unfolding(crate::specs::Heads::writes_of))]
    fn writes(self, put: bool, given: bool) -> bool
        ensures { result ≡ writes_of put (both_of self) given }
    {
        match self {
            Which::Common => put & given,
            Which::Joined => put,
        }
    }

    // The most MFNs that two lists of so many postings have.
    #[tactic(auto, unfolding(crate::specs::Heads::most_of))]
    fn most(self, a: u32, b: u32) -> usize
        ensures { (result ≡ most_of (both_of self) a b) × (result ≤ 8589934592) }
    {
        match self {
            Which::Common => a.min(b) as usize,
            Which::Joined => (a as usize) + (b as usize),
        }
    }
}

// An MFN, the postings of its run that stand behind its own, from `at` up to `end`, and the cursor behind the run. The MFN is 2^24 where none is
// read: the list is over, or, where `end` is below `at`, its next run is still to be read. With an Option for it a merge takes a fifth to a third
// longer.
#[derive(Clone, Copy, Debug, PartialEq, Eq)]
pub struct Head {
    pub mfn: u32,
    pub at: usize,
    pub end: usize,
    pub cursor: Cursor,
}

// A head of which nothing is read.
fn unread(c: Cursor) -> Head
    ensures { result ≡ unread_of c }
{
    Head {
        mfn: 16777216,
        at: 8,
        end: 0,
        cursor: c,
    }
}

// The head of the postings behind a cursor. It is seldom called: inlined, it takes the registers of the loop around it.
#[inline(never)]
fn refill(ifp: &[u8], start: Cursor) -> Head
    requires { InBlock ifp.now start × (stands_right ifp.now start ≡ true) }
    ensures { Headed ifp.now (rest_of ifp.now start) result }
{
    let Ok(Some(d)) = settle(ifp, start) else {
        return Head {
            mfn: 16777216,
            at: 0,
            end: 0,
            cursor: start,
        };
    };
    let n = run_size(d.at, d.left);
    Head {
        mfn: mfn_at(ifp, d.at),
        at: d.at + 8,
        end: d.at + 8 * (n as usize),
        cursor: past(d, n),
    }
}

// The MFN of the posting at `at`; 2^24 where the run is over there: with an Option a merge took a third longer.
fn behind(ifp: &[u8], at: usize, end: usize) -> u32
    requires { at < end → at + 8 ≤ length ifp.now }
    ensures { (result ≡ behind_of ifp.now at end) × (at < end → result < 16777216) }
{
    if at < end { mfn_at(ifp, at) } else { 16777216 }
}

// Takes the MFNs of the lists behind two cursors one by one, into the list where `put`; how many they are. Which list has the lower MFN cannot be
// predicted, so nothing branches on it, and the MFN that comes next in a run is read before it is known whether it is needed.
fn take(ifp: &[u8], a: Cursor, b: Cursor, which: Which, put: bool, out: &mut [u32]) -> usize
    requires { Reads ifp.now a × Reads ifp.now b × (length (merged (both_of which) (mfns_of (rest_of ifp.now a)) (mfns_of (rest_of ifp.now b))) ≤ 8589934592) × (put ≡ true → length (merged (both_of which) (mfns_of (rest_of ifp.now a)) (mfns_of (rest_of ifp.now b))) ≤ length out.old) }
    ensures counts { result ≡ length (merged (both_of which) (mfns_of (rest_of ifp.now a)) (mfns_of (rest_of ifp.now b))) }
    ensures writes { out.new ≡ cond put (overwrite out.old 0 (merged (both_of which) (mfns_of (rest_of ifp.now a)) (mfns_of (rest_of ifp.now b)))) out.old }
{
    let mut x = unread(a);
    let mut y = unread(b);
    // No MFN is 2^24. With an Option for the last one a merge takes a quarter to a half longer.
    let mut last: u32 = 16777216;
    let mut i: usize = 0;
    // two walks in step, by which head is lower: no index is counted, `i` is how many MFNs were given
    loop {
        if x.end < x.at {
            x = refill(ifp, x.cursor);
        }
        if y.end < y.at {
            y = refill(ifp, y.cursor);
        }
        if 16777216 <= which.leading(x.mfn, y.mfn) {
            return i;
        }
        loop {
            let p = x.mfn;
            let q = y.mfn;
            let behind_x = behind(ifp, x.at, x.end);
            let behind_y = behind(ifp, y.at, y.end);
            let m = p.min(q);
            let given = which.gives(p, q, last, m);
            i += usize::from(given);
            if which.writes(put, given) {
                out[i - 1] = m;
            }
            // A selection by "below" is one step of a processor, one by "below or equal" may be two.
            if !(q < p) {
                x.mfn = behind_x;
                x.at += 8;
            }
            if !(p < q) {
                y.mfn = behind_y;
                y.at += 8;
            }
            last = m;
            if x.end < x.at {
                break;
            }
            if y.end < y.at {
                break;
            }
        }
    }
}

// The MFNs of the lists behind two cursors, of both or of either; there are `most` at most.
fn merge(
    ifp: &[u8],
    a: Cursor,
    b: Cursor,
    most: usize,
    which: Which,
    out: &mut [u32],
) -> Result<usize, Refusal>
    requires { Reads ifp.now a × Reads ifp.now b × (length (merged (both_of which) (mfns_of (rest_of ifp.now a)) (mfns_of (rest_of ifp.now b))) ≤ most) × (most ≤ 8589934592) }
    ensures answers { given result ≡ given_of true (merged (both_of which) (mfns_of (rest_of ifp.now a)) (mfns_of (rest_of ifp.now b))) out.old }
    ensures writes { out.new ≡ given_out true (merged (both_of which) (mfns_of (rest_of ifp.now a)) (mfns_of (rest_of ifp.now b))) out.old }
{
    if out.len() < most && out.len() < take(ifp, a, b, which, false, out) {
        return Err(Refusal::NoRoom);
    }
    Ok(take(ifp, a, b, which, true, out))
}

// The common or the joined MFNs of the lists at two places, ascending, each MFN once; how many they are.
pub fn mfns(ifp: &[u8], a: Place, b: Place, which: Which, out: &mut [u32]) -> Result<usize, Refusal>
    ensures answers { given result ≡ mfns_given (both_of which) ifp.now a.block a.word b.block b.word out.old }
    ensures writes { out.new ≡ mfns_out (both_of which) ifp.now a.block a.word b.block b.word out.old }
{
    let x = find(ifp, a)?;
    let y = find(ifp, b)?;
    if !right(ifp, x) || !right(ifp, y) {
        return Err(Refusal::Broken);
    }
    merge(
        ifp,
        x.cursor,
        y.cursor,
        which.most(x.total, y.total),
        which,
        out,
    )
}
