// Update and delete: a new version of a record, at the end or in place. The settled version is
// never written over.
ghost use Rattle.std.specs.Prelude.{◌≡◌, true, false, ◌+◌, ◌≤◌};
ghost use Rattle.versions.specs.Written.{update_appends};
ghost use Rattle.writing.specs.Refusals.{update_answer, delete_answer};
ghost use Rattle.writing.specs.Calls.{update_leaves, delete_leaves};
ghost use Rattle.updating.specs.Plans.{update_plan, delete_plan, room_plan};
ghost use Rattle.store.specs.Store.{store};
ghost use Rattle.drafts.specs.Lent.{lent};
ghost use Rattle.layout.specs.Sizes.{mst_most};

use drafts::draft::Draft;
use layout::entry::Mark;
use layout::sizes::Mfn;
use store::answer::Refusal;
use store::gate::{OpenStore, Reached, Record};

// A new version of the record that was reached: at the end if `appends`, else in place.
#[derive(Clone, Copy, Debug, PartialEq, Eq)]
pub struct NewVersion {
    pub was: Reached,
    pub appends: bool,
}

// A version of `need` bytes in an MST of `room` bytes: if it goes to the end, there has to be room
// for it.
#[tactic(auto, unfolding(crate::specs::Plans::room_plan))]
fn plan_room(room: usize, need: usize, was: Reached, appends: bool) -> Result<NewVersion, Refusal>
    requires { (was.end ≤ mst_most) × (need ≤ 65536) }
    ensures { result ≡ room_plan room need was appends }
{
    if appends && room < was.end + need {
        return Err(Refusal::NoRoom);
    }
    Ok(NewVersion { was, appends })
}

// Whether the record is settled, or its MFRL is less than the need.
#[tactic(auto, unfolding(versions::specs::Written::update_appends))]
fn update_appends(was: Reached, need: usize) -> bool
    ensures { result ≡ update_appends was.place was.leader need }
{
    matches!(was.place.mark, Mark::Settled) || (was.leader.mfrl as usize) < need
}

fn plan_update(mst: &[u8], xrf: &[u8], m: Mfn, draft: Draft<'_>) -> Result<NewVersion, Refusal>
    ensures { result ≡ update_plan (store mst.now xrf.now) m.0 (lent draft.entry) }
{
    let store = OpenStore::open(mst, xrf)?;
    if !draft.is_right() {
        return Err(Refusal::BadDraft);
    }
    let Record { place, leader } = store.find_record(m)?;
    if place.deleted {
        return Err(Refusal::Deleted);
    }
    let was = Reached {
        end: store.control.end,
        place,
        leader,
    };
    let need = draft.need();
    let appends = update_appends(was, need);
    plan_room(mst.len(), need, was, appends)
}

fn plan_delete(mst: &[u8], xrf: &[u8], m: Mfn) -> Result<NewVersion, Refusal>
    ensures { result ≡ delete_plan (store mst.now xrf.now) m.0 }
{
    let was = store::gate::reach(mst, xrf, m)?;
    if was.place.deleted {
        return Err(Refusal::Deleted);
    }
    if files::control::count_none(mst) {
        return Err(Refusal::BadControl);
    }
    match was.place.mark {
        Mark::Settled => {
            let need = versions::changing::own_need(mst, was);
            plan_room(mst.len(), need, was, true)
        }
        Mark::Changed | Mark::New => Ok(NewVersion {
            was,
            appends: false,
        }),
    }
}

pub fn update(mst: &mut [u8], xrf: &mut [u8], m: Mfn, draft: Draft<'_>) -> Result<(), Refusal>
    ensures answers { result ≡ update_answer (store mst.old xrf.old) m.0 (lent draft.entry) }
    ensures left { store mst.new xrf.new ≡ update_leaves (store mst.old xrf.old) m.0 (lent draft.entry) }
{
    let NewVersion { was, appends } = plan_update(mst, xrf, m, draft)?;
    if appends {
        versions::changing::update_at_end(mst, xrf, m, was, draft);
    } else {
        versions::changing::update_in_place(mst, m, was, draft);
    }
    Ok(())
}

pub fn delete(mst: &mut [u8], xrf: &mut [u8], m: Mfn) -> Result<(), Refusal>
    ensures answers { result ≡ delete_answer (store mst.old xrf.old) m.0 }
    ensures left { store mst.new xrf.new ≡ delete_leaves (store mst.old xrf.old) m.0 }
{
    let NewVersion { was, appends } = plan_delete(mst, xrf, m)?;
    if appends {
        versions::changing::delete_at_end(mst, xrf, m, was);
    } else {
        versions::changing::delete_in_place(mst, xrf, m, was);
    }
    Ok(())
}
