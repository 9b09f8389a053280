// Settles each MFN of a list in order, by the single call, and writes its answer down at the same
// place of a second list.
ghost use Rattle.std.specs.Prelude.{◌≡◌, length};
ghost use Rattle.store.specs.Store.{store};
ghost use Rattle.settling.specs.SettleList.{lists_right, settle_list_answer, settle_list_leaves, settle_list_tells};

use layout::sizes::Mfn;
use store::answer::Refusal;

// A list has at most so many MFNs.
pub const LIST_MOST: usize = 4096;

// Whether a list of MFNs and one for the answers are equally long, and not over-long.
#[tactic(auto, unfolding(crate::specs::SettleList::lists_right))]
pub fn lists_right(mfns: usize, answers: usize) -> bool
    ensures { result ≡ lists_right mfns answers }
{
    mfns == answers && mfns <= LIST_MOST
}

pub fn settle_list(
    mst: &mut [u8],
    xrf: &mut [u8],
    mfns: &[u32],
    answers: &mut [u32],
) -> Result<(), Refusal>
    ensures answers { result ≡ settle_list_answer (length mfns.now) (length answers.old) }
    ensures left { store mst.new xrf.new ≡ settle_list_leaves (store mst.old xrf.old) mfns.now (length answers.old) }
    ensures told { answers.new ≡ settle_list_tells (store mst.old xrf.old) mfns.now answers.old }
{
    if !lists_right(mfns.len(), answers.len()) {
        return Err(Refusal::NoRoomInList);
    }
    for (i, m) in mfns.iter().enumerate() {
        let answer = writing::settling::settle(mst, xrf, Mfn(*m));
        answers[i] = store::answer::number(answer);
    }
    Ok(())
}
