// The passes of the whole-store check. Two over the XRF look at the first integers and at the free slots. Then the first over the MFNs tests
// each entry but for the steps, and counts the steps that the entries name and the entries that are live; the second walks the steps, and counts
// those that the entry of the MFN written there names. Each entry names steps only exactly if the two counts agree.
ghost use Rattle.std.specs.Prelude.{◌≡◌, true, ◌+◌, ◌≤◌, ◌<◌, length};
ghost use Rattle.layout.specs.Sizes.{xrf_most, capacity_of};
ghost use Rattle.layout.specs.declared.entry.Entry.TheVariants.{At};
ghost use Rattle.store.specs.Reading.{entry_for};
ghost use Rattle.soundness.specs.Sound.{elem, heads_right, rest_free};
ghost use Rattle.soundness.specs.Passes.{names_of, named_under, entry_tally, entries_fine, tally_of, hit, walk_of, Names};
ghost use Rattle.store.specs.Store.{store};

use layout::entry::{Entry, Mark, Place};
use layout::sizes::Mfn;
use store::answer::Refusal;
use store::gate::{OpenStore, Record};

// What the first pass finds: how many steps the entries name and how many of them are live.
#[derive(Clone, Copy, Debug, PartialEq, Eq)]
pub(crate) struct Tally {
    pub named: u32,
    pub live: u32,
}

// Whether the first integer of every XRF block is right.
pub(crate) fn heads_right(xrf: &[u8]) -> bool
    requires { length xrf.now ≤ xrf_most }
    ensures { result ≡ heads_right xrf.now }
{
    let n = xrf.len() / 512;
    (1..n + 1).all(|k| files::cross_reference::head_right(xrf, k))
}

// Whether every slot from NXTMFN on holds 0.
pub(crate) fn rest_free(xrf: &[u8], next: Mfn) -> bool
    requires { (1 ≤ next.0) × (next.0 ≤ capacity_of (length xrf.now) + 1) × (length xrf.now ≤ xrf_most) }
    ensures { result ≡ rest_free xrf.now next.0 }
{
    let past = layout::sizes::capacity(xrf.len()) as u32 + 1;
    (next.0..past).all(|m| files::cross_reference::slot_free(xrf, Mfn(m)))
}

// How many steps a place names: its own, and under the changed mark its back place.
fn named_under(mark: Mark) -> u32
    ensures { result ≡ named_under mark }
{
    1 + u32::from(mark == Mark::Changed)
}

// The tally of one entry, where it is right: of those with no record only 7, physically deleted.
#[tactic(auto, using(crate::proofs::PassAnswers::tally_answers))]
fn tally_entry(opened: &OpenStore, m: Mfn) -> Option<Tally>
    requires { (1 ≤ m.0) × (m.0 < opened.now.control.next.0) }
    ensures { result ≡ entry_tally opened.now.mst.now m.0 (entry_for (store opened.now.mst.now opened.now.xrf.now) m.0) }
{
    match opened.find_both(m) {
        Ok(Record { place, leader: _ }) => Some(Tally {
            named: named_under(place.mark),
            live: u32::from(!place.deleted),
        }),
        Err(Refusal::Gone) => Some(Tally { named: 0, live: 0 }),
        Err(_) => None,
    }
}

// The first pass: every entry below NXTMFN.
pub(crate) fn tally_entries(opened: &OpenStore) -> Option<Tally>
    ensures { result ≡ tally_of (store opened.now.mst.now opened.now.xrf.now) }
{
    let mut named: u32 = 0;
    let mut live: u32 = 0;
    for m in 1..opened.control.next.0 {
        let one = tally_entry(opened, Mfn(m))?;
        named += one.named;
        live += one.live;
    }
    Some(Tally { named, live })
}

// Whether the place `p`, or its back place, is the step `s`.
#[tactic(auto, using(crate::proofs::PassAnswers::hit_answers))]
fn place_hit(mst: &[u8], end: usize, p: Place, s: usize) -> bool
    requires { Names mst.now end p }
    ensures { result ≡ elem s (names_of mst.now (At p)) }
{
    let at = layout::entry::place_address(p);
    if at == s {
        return true;
    }
    if p.mark != Mark::Changed {
        return false;
    }
    let l = layout::leader::read_leader(&mst[at..end]);
    layout::sizes::address(l.mfbwb, l.mfbwp) == s
}

// Whether the entry of the MFN written at the step `s` names this step.
fn step_hit(opened: &OpenStore, s: usize) -> bool
    requires { (entries_fine (store opened.now.mst.now opened.now.xrf.now) ≡ true) × (s + 18 ≤ opened.now.control.end) }
    ensures { result ≡ hit (store opened.now.mst.now opened.now.xrf.now) s }
{
    let m = layout::leader::read_leader(&opened.mst[s..opened.control.end]).mfn;
    if m.0 < 1 || opened.control.next.0 <= m.0 {
        return false;
    }
    let Entry::At(p) = files::cross_reference::entry_at(opened.xrf, opened.control.end, m) else {
        return false;
    };
    place_hit(opened.mst, opened.control.end, p, s)
}

// The second pass: whether stepping from address 64 on one arrives at the end, and meets all that the entries name.
pub(crate) fn walk_steps(opened: &OpenStore, named: usize) -> bool
    requires { entries_fine (store opened.now.mst.now opened.now.xrf.now) ≡ true }
    ensures { result ≡ walk_of (store opened.now.mst.now opened.now.xrf.now) named }
{
    let mut hits: usize = 0;
    let mut at: usize = 64;
    // each address is read from the record at the one before, so no range or chain names them
    while at + 18 <= opened.control.end {
        hits += usize::from(step_hit(opened, at));
        let Some(next) = crate::steps::next_step(opened.mst, opened.control.end, at) else {
            return false;
        };
        at = next;
    }
    at == opened.control.end && hits == named
}
