// The postings of a list: a first pass asks the rules, a second one gives. Both go by runs, so that nothing but the ascent is asked of each
// posting.
ghost use Rattle.std.specs.Prelude.{◌≡◌, true, false, ◌&&◌, suc, ◌+◌, ◌*◌, ◌≤◌, ◌<◌, leb, length, IfOk, IfErr};
ghost use Rattle.word.specs.Overwrite.{overwrite};
ghost use Rattle.posting.specs.declared.answer.Refusal.TheVariants.{Broken};
ghost use Rattle.postings.specs.Rules.{above, list_of, list_right};
ghost use Rattle.postings.specs.Cursor.{InBlock, rest_of, stands_right, keeps_rules, floor_of, row, OpensList};
ghost use Rattle.postings.specs.Calls.{given, postings_given, postings_out};

use crate::cursor::{Cursor, past, run_size, settle};
use crate::segment::{Place, read_header};
use posting::answer::Refusal;
use posting::codec::posting_at;

// The cursor before a list's first posting, and its total.
#[derive(Clone, Copy, Debug, PartialEq, Eq)]
pub struct Opened {
    pub total: u32,
    pub cursor: Cursor,
}

// Finds the list at a place, if its first header can be read and has a total.
pub fn find(ifp: &[u8], place: Place) -> Result<Opened, Refusal>
    ensures opens { IfOk result (OpensList ifp.now place) }
    ensures broken { IfErr result (λ r. (r ≡ Broken) × (list_right ifp.now place ≡ false)) }
{
    match read_header(ifp, place) {
        Some(s) if s.total < 2147483648 => Ok(Opened {
            total: s.total,
            cursor: Cursor {
                at: s.first,
                left: s.count,
                next: s.next,
                fuel: ifp.len() / 4 - 1,
            },
        }),
        _ => Err(Refusal::Broken),
    }
}

// Opens the list at a place. One that is not found is a list that keeps no rule: its total promises a posting, and there is none.
pub fn open(ifp: &[u8], place: Place) -> Opened
    ensures right { keeps_rules ifp.now result.cursor result.total 0 ≡ list_right ifp.now place }
    ensures rest { list_right ifp.now place ≡ true → rest_of ifp.now result.cursor ≡ list_of ifp.now place }
    ensures stands { InBlock ifp.now result.cursor }
{
    find(ifp, place).unwrap_or(Opened {
        total: 1,
        cursor: Cursor {
            at: 0,
            left: 0,
            next: Place { block: 0, word: 0 },
            fuel: 0,
        },
    })
}

// Whether a posting may come after the last one, if there is one.
fn rises(last: Option<u64>, p: u64) -> bool
    ensures { result ≡ leb (floor_of last) p }
{
    last.is_none_or(|l| l < p)
}

// Whether four postings ascend strictly, from above `last` on.
#[tactic(auto, unfolding(crate::specs::Rules::above, crate::specs::Cursor::row))]
fn four_climb(ifp: &[u8], at: usize, last: u64) -> bool
    requires { at + 32 ≤ length ifp.now }
    ensures { result ≡ above (suc last) (row ifp.now 4 at) }
{
    let p = posting_at(ifp, at);
    let q = posting_at(ifp, at + 8);
    let r = posting_at(ifp, at + 16);
    last < p && p < q && q < r && r < posting_at(ifp, at + 24)
}

// Whether `n` postings ascend strictly, from above `first` on. They are asked four by four, and those that are left one by one.
fn climbs(ifp: &[u8], start: usize, n: usize, first: u64) -> bool
    requires { start + 8 * n ≤ length ifp.now }
    ensures { result ≡ above (suc first) (row ifp.now n start) }
{
    let mut last = first;
    for k in 0..n / 4 {
        if !four_climb(ifp, start + 32 * k, last) {
            return false;
        }
        last = posting_at(ifp, start + 32 * k + 24);
    }
    for i in n / 4 * 4..n {
        let p = posting_at(ifp, start + 8 * i);
        if p <= last {
            return false;
        }
        last = p;
    }
    true
}

// Whether a run is inside the file and may come after the last posting, if there is one.
fn run_right(ifp: &[u8], at: usize, n: usize, last: Option<u64>) -> bool
    requires { (1 ≤ n) × (n ≤ 64) × (at < 18446744073709550000) }
    ensures { result ≡ (leb (at + 8 * n) (length ifp.now) && above (floor_of last) (row ifp.now n at)) }
{
    if ifp.len() < at + 8 * n {
        return false;
    }
    let p = posting_at(ifp, at);
    if !rises(last, p) {
        return false;
    }
    climbs(ifp, at + 8, n - 1, p)
}

// Whether an opened list keeps the rules.
pub fn right(ifp: &[u8], list: Opened) -> bool
    requires { InBlock ifp.now list.cursor }
    ensures { result ≡ keeps_rules ifp.now list.cursor list.total 0 }
{
    let mut c = list.cursor;
    let mut due = list.total;
    let mut last = None;
    // run by run, as the cursor finds them: how many runs there are, nothing tells before
    loop {
        let Ok(reached) = settle(ifp, c) else {
            return false;
        };
        let Some(d) = reached else {
            return due == 0;
        };
        let n = run_size(d.at, d.left);
        if due < n {
            return false;
        }
        if !run_right(ifp, d.at, n as usize, last) {
            return false;
        }
        let end = posting_at(ifp, d.at + 8 * (n as usize - 1));
        last = Some(end);
        due -= n;
        c = past(d, n);
    }
}

// Gives `n` postings from `at` on, into the list from `i` on.
fn copy_run(ifp: &[u8], at: usize, n: usize, out: &mut [u64], i: usize)
    requires { (at + 8 * n ≤ length ifp.now) × (i + n ≤ length out.old) }
    ensures { out.new ≡ overwrite out.old i (row ifp.now n at) }
{
    for k in 0..n {
        out[i + k] = posting_at(ifp, at + 8 * k);
    }
}

// Gives the postings behind a cursor.
fn give(ifp: &[u8], start: Cursor, out: &mut [u64])
    requires { InBlock ifp.now start × (stands_right ifp.now start ≡ true) × (length (rest_of ifp.now start) ≤ length out.old) }
    ensures { out.new ≡ overwrite out.old 0 (rest_of ifp.now start) }
{
    let mut c = start;
    let mut i: usize = 0;
    while let Ok(Some(d)) = settle(ifp, c) {
        let n = run_size(d.at, d.left);
        copy_run(ifp, d.at, n as usize, out, i);
        i += n as usize;
        c = past(d, n);
    }
}

// The postings of the list at a place, in stored order; how many they are.
pub fn postings(ifp: &[u8], place: Place, out: &mut [u64]) -> Result<usize, Refusal>
    ensures answers { given result ≡ postings_given ifp.now place.block place.word out.old }
    ensures writes { out.new ≡ postings_out ifp.now place.block place.word out.old }
{
    let list = find(ifp, place)?;
    if !right(ifp, list) {
        return Err(Refusal::Broken);
    }
    let count = list.total as usize;
    if out.len() < count {
        return Err(Refusal::NoRoom);
    }
    give(ifp, list.cursor, out);
    Ok(count)
}
