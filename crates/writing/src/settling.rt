// Settle and revert: a pending change becomes the settled version, or is dropped for it.
ghost use Rattle.std.specs.Prelude.{◌≡◌};
ghost use Rattle.writing.specs.Refusals.{settle_answer, revert_answer};
ghost use Rattle.writing.specs.Calls.{settle_leaves, revert_leaves};
ghost use Rattle.writing.specs.Plans.{settle_plan, revert_plan};
ghost use Rattle.store.specs.Store.{store};

use layout::entry::{Mark, Place};
use layout::sizes::Mfn;
use store::answer::Refusal;
use store::gate::{OpenStore, Reached, Record};

fn plan_settle(mst: &[u8], xrf: &[u8], m: Mfn) -> Result<Reached, Refusal>
    ensures { result ≡ settle_plan (store mst.now xrf.now) m.0 }
{
    let reached = store::gate::reach(mst, xrf, m)?;
    if reached.place.mark == Mark::Settled {
        return Err(Refusal::NotPending);
    }
    Ok(reached)
}

pub fn settle(mst: &mut [u8], xrf: &mut [u8], m: Mfn) -> Result<(), Refusal>
    ensures answers { result ≡ settle_answer (store mst.old xrf.old) m.0 }
    ensures left { store mst.new xrf.new ≡ settle_leaves (store mst.old xrf.old) m.0 }
{
    let reached = plan_settle(mst, xrf, m)?;
    versions::settling::settle_place(mst, xrf, m, reached.place);
    Ok(())
}

fn plan_revert(mst: &[u8], xrf: &[u8], m: Mfn) -> Result<Reached, Refusal>
    ensures { result ≡ revert_plan (store mst.now xrf.now) m.0 }
{
    let store = OpenStore::open(mst, xrf)?;
    if files::control::count_full(mst) {
        return Err(Refusal::BadControl);
    }
    let Record { place, leader } = store.find_both(m)?;
    match place.mark {
        Mark::Settled => Err(Refusal::NotPending),
        Mark::Changed => Ok(Reached {
            end: store.control.end,
            place,
            leader,
        }),
        Mark::New => Err(Refusal::NeverSettled),
    }
}

pub fn revert(mst: &mut [u8], xrf: &mut [u8], m: Mfn) -> Result<(), Refusal>
    ensures answers { result ≡ revert_answer (store mst.old xrf.old) m.0 }
    ensures left { store mst.new xrf.new ≡ revert_leaves (store mst.old xrf.old) m.0 }
{
    let reached = plan_revert(mst, xrf, m)?;
    let back = Place {
        block: reached.leader.mfbwb,
        offset: reached.leader.mfbwp,
        deleted: false,
        mark: Mark::Settled,
    };
    files::cross_reference::put_entry(xrf, m, back);
    files::control::count_more(mst, reached.place.deleted);
    Ok(())
}
