// What every call asks first: the lengths and the control record, then, of an MFN, its range, its entry and its record.
ghost use Rattle.std.specs.Prelude.{◌≡◌, true, ◌+◌, ◌≤◌, Ok, Err, IfOk, IfErr, length};
ghost use Rattle.files.specs.Control.{end_of};
ghost use Rattle.layout.specs.Entry.{well_placed};
ghost use Rattle.store.specs.Reading.{lengths_permitted, back_fine};
ghost use Rattle.store.specs.Gate.{gate_of, known_of, known_both, reached_of, reached_both, place_given, place_known, settled_from};
ghost use Rattle.store.specs.Store.{store};

use crate::answer::Refusal;
use files::control::Control;
use layout::entry::{Entry, Mark, Place};
use layout::leader::Leader;
use layout::sizes::Mfn;

// The place and the leader of a record that is right.
#[derive(Clone, Copy, Debug, PartialEq, Eq)]
pub struct Record {
    pub place: Place,
    pub leader: Leader,
}

// The same with the store's end.
#[derive(Clone, Copy, Debug, PartialEq, Eq)]
pub struct Reached {
    pub end: usize,
    pub place: Place,
    pub leader: Leader,
}

// A store whose lengths and control record are right, lent for reading.
#[derive(Clone, Copy)]
pub struct OpenStore<'a> {
    pub mst: &'a [u8],
    pub xrf: &'a [u8],
    pub control: Control,
    ghost open: { gate_of (store mst.now xrf.now) ≡ Ok control },
}

// Whether both lengths are permitted.
#[tactic(auto, unfolding(crate::specs::Reading::lengths_permitted))]
pub fn lengths_permitted(mst: &[u8], xrf: &[u8]) -> bool
    ensures { result ≡ lengths_permitted (store mst.now xrf.now) }
{
    layout::sizes::mst_permitted(mst.len()) && layout::sizes::xrf_permitted(xrf.len())
}

// NXTMFN and the end of a store whose lengths and control record are right.
pub fn open_gate(mst: &[u8], xrf: &[u8]) -> Result<Control, Refusal>
    ensures { result ≡ gate_of (store mst.now xrf.now) }
{
    if !lengths_permitted(mst, xrf) {
        return Err(Refusal::BadLength);
    }
    let capacity = layout::sizes::capacity(xrf.len());
    files::control::read_control(mst, capacity).ok_or(Refusal::BadControl)
}

// The place of an entry that has one; of the two other kinds each has its refusal.
fn place_of(entry: Entry) -> Result<Place, Refusal>
    ensures { result ≡ place_given entry }
{
    let Entry::At(place) = entry else {
        return Err(if matches!(entry, Entry::Gone) {
            Refusal::Gone
        } else {
            Refusal::BadEntry
        });
    };
    Ok(place)
}

// Whether the back pointer is right, and under the changed mark not the record's own place.
fn back_fine(end: usize, p: Place, l: Leader) -> bool
    requires { 1 ≤ p.block.0 }
    ensures { result ≡ back_fine end p l }
{
    if !record::test::back_right(end, p.mark, l) {
        return false;
    }
    p.mark != Mark::Changed
        || layout::sizes::address(l.mfbwb, l.mfbwp) != layout::entry::place_address(p)
}

// The record at a well-formed place, for MFN `m`.
fn test_place(mst: &[u8], end: usize, m: Mfn, place: Place) -> Result<Record, Refusal>
    requires { (end ≡ end_of mst.now) × (end ≤ length mst.now) × (well_placed end place.block.0 place.offset ≡ true) }
    ensures { result ≡ place_known mst.now m.0 place }
{
    let at = layout::entry::place_address(place);
    let Ok(leader) = record::test::test_record(&mst[at..end], m, place.deleted) else {
        return Err(Refusal::BadRecord);
    };
    if !back_fine(end, place, leader) {
        return Err(Refusal::BadRecord);
    }
    Ok(Record { place, leader })
}

// Whether the settled version of a changed record, at its back place, is well formed.
fn settled_fine(mst: &[u8], end: usize, m: Mfn, at: usize) -> bool
    requires { (end ≤ length mst.now) × (at ≤ end) }
    ensures { result ≡ settled_from mst.now end m.0 at }
{
    let Ok(leader) = record::test::test_record(&mst[at..end], m, false) else {
        return false;
    };
    record::test::no_back(leader)
}

impl<'a> OpenStore<'a> {
    // Opens the gate.
    #[inline(always)]
    pub fn open(mst: &'a [u8], xrf: &'a [u8]) -> Result<OpenStore<'a>, Refusal>
        ensures refused { IfErr result (λ r. gate_of (store mst.now xrf.now) ≡ Err r) }
        ensures lent { IfOk result (λ s. (s.mst.now ≡ mst.now) × (s.xrf.now ≡ xrf.now)) }
    {
        let control = open_gate(mst, xrf)?;
        Ok(OpenStore { mst, xrf, control })
    }

    // The record of MFN `m`.
    pub fn find_record(&self, m: Mfn) -> Result<Record, Refusal>
        ensures { result ≡ known_of (store self.now.mst.now self.now.xrf.now) m.0 }
    {
        if m.0 < 1 || self.control.next.0 <= m.0 {
            return Err(Refusal::NoMfn);
        }
        let entry = files::cross_reference::entry_at(self.xrf, self.control.end, m);
        test_place(self.mst, self.control.end, m, place_of(entry)?)
    }

    // The record of MFN `m` with its settled version, where it is changed.
    pub fn find_both(&self, m: Mfn) -> Result<Record, Refusal>
        ensures { result ≡ known_both (store self.now.mst.now self.now.xrf.now) m.0 }
    {
        let record = self.find_record(m)?;
        if record.place.mark != Mark::Changed {
            return Ok(record);
        }
        let at = layout::sizes::address(record.leader.mfbwb, record.leader.mfbwp);
        if !settled_fine(self.mst, self.control.end, m, at) {
            return Err(Refusal::BadRecord);
        }
        Ok(record)
    }
}

// Opens the gate and finds the record of MFN `m`.
pub fn reach(mst: &[u8], xrf: &[u8], m: Mfn) -> Result<Reached, Refusal>
    ensures { result ≡ reached_of (store mst.now xrf.now) m.0 }
{
    let store = OpenStore::open(mst, xrf)?;
    let Record { place, leader } = store.find_record(m)?;
    Ok(Reached {
        end: store.control.end,
        place,
        leader,
    })
}

// The same with its settled version, where it is changed.
pub fn reach_both(mst: &[u8], xrf: &[u8], m: Mfn) -> Result<Reached, Refusal>
    ensures { result ≡ reached_both (store mst.now xrf.now) m.0 }
{
    let store = OpenStore::open(mst, xrf)?;
    let Record { place, leader } = store.find_both(m)?;
    Ok(Reached {
        end: store.control.end,
        place,
        leader,
    })
}
