// The whole-store check, and the recount of an older card, which asks the same apart from RECCNT.
ghost use Rattle.std.specs.Prelude.{◌≡◌};
ghost use Rattle.store.specs.Store.{store};
ghost use Rattle.soundness.specs.Sound.{check_answer};
ghost use Rattle.soundness.specs.Passes.{apart_of, counted_of};
ghost use Rattle.soundness.specs.Recount.{recount_answer, recount_leaves};

use crate::passes::Tally;
use store::answer::Refusal;
use store::gate::OpenStore;

// How many entries are live, where the store is sound apart from RECCNT.
#[tactic(auto, using(crate::proofs::CheckAnswers::body_answers))]
fn sound_apart(opened: &OpenStore) -> Option<u32>
    ensures { result ≡ apart_of (store opened.now.mst.now opened.now.xrf.now) }
{
    if !crate::passes::heads_right(opened.xrf)
        || !crate::passes::rest_free(opened.xrf, opened.control.next)
    {
        return None;
    }
    let Tally { named, live } = crate::passes::tally_entries(opened)?;
    if !crate::passes::walk_steps(opened, named as usize) {
        return None;
    }
    Some(live)
}

// What the check and the recount ask alike: how many entries are live, where 1, 2, and 14
// apart from RECCNT, do not apply.
#[tactic(auto, using(crate::proofs::CheckAnswers::counted_answers))]
fn count_live(mst: &[u8], xrf: &[u8]) -> Result<u32, Refusal>
    ensures { result ≡ counted_of (store mst.now xrf.now) }
{
    let opened = OpenStore::open(mst, xrf)?;
    sound_apart(&opened).ok_or(Refusal::NotSound)
}

// 1, 2, 14 or 0: passes exactly the sound stores.
#[tactic(auto, using(crate::proofs::CheckAnswers::check_answers))]
pub fn check(mst: &[u8], xrf: &[u8]) -> Result<(), Refusal>
    ensures { result ≡ check_answer (store mst.now xrf.now) }
{
    let live = count_live(mst, xrf)?;
    if files::control::count_is(mst, live) {
        Ok(())
    } else {
        Err(Refusal::NotSound)
    }
}

// 1, 2, 14 or 0: writes RECCNT where it is wrong and the store is sound apart from it.
pub fn recount(mst: &mut [u8], xrf: &[u8]) -> Result<(), Refusal>
    ensures answers { result ≡ recount_answer (store mst.old xrf.now) }
    ensures left { store mst.new xrf.now ≡ recount_leaves (store mst.old xrf.now) }
{
    let live = count_live(mst, xrf)?;
    if files::control::count_is(mst, live) {
        return Ok(());
    }
    files::control::put_count(mst, live);
    Ok(())
}
