// What firmware asks before it writes: the next MFN and the end of the store, and how the record of
// an MFN stands.
ghost use Rattle.std.specs.Prelude.{◌≡◌};
ghost use Rattle.store.specs.Store.{store};
ghost use Rattle.asking.specs.State.{next_told, next_free_of, state_told, state_of, mark_number};

use files::control::Control;
use layout::entry::Mark;
use layout::sizes::Mfn;
use store::answer::Refusal;

// How a record stands.
#[derive(Clone, Copy, Debug, PartialEq, Eq)]
pub struct Standing {
    pub mark: Mark,
    pub deleted: bool,
}

// The next MFN, and where the next record would begin.
#[tactic(auto, using(crate::proofs::StateAnswers::next_is))]
pub fn next_free(mst: &[u8], xrf: &[u8]) -> Result<Control, Refusal>
    ensures { next_told result ≡ next_free_of (store mst.now xrf.now) }
{
    store::gate::open_gate(mst, xrf)
}

// How the record of MFN `m` stands.
#[tactic(auto, using(crate::proofs::StateAnswers::state_told_refused))]
pub fn state(mst: &[u8], xrf: &[u8], m: Mfn) -> Result<Standing, Refusal>
    ensures { state_told result ≡ state_of (store mst.now xrf.now) m.0 }
{
    let place = store::gate::reach(mst, xrf, m)?.place;
    Ok(Standing {
        mark: place.mark,
        deleted: place.deleted,
    })
}

// The number of a mark: 0 settled, 1 changed, 2 new.
pub fn mark_number(mark: Mark) -> u32
    ensures { result ≡ mark_number mark }
{
    mark as u32
}
