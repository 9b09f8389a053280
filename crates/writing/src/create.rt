// Create: a new record at the end, under the next MFN.
ghost use Rattle.std.specs.Prelude.{◌≡◌};
ghost use Rattle.store.specs.Store.{store};
ghost use Rattle.drafts.specs.Lent.{lent};
ghost use Rattle.writing.specs.Calls.{created, create_of, create_leaves};
ghost use Rattle.writing.specs.Plans.{SlotAsked, slot_answer, create_plan};

use drafts::draft::Draft;
use files::control::Control;
use layout::sizes::Mfn;
use store::answer::Refusal;

// What create writes by: NXTMFN, the end and the need.
#[derive(Clone, Copy, Debug, PartialEq, Eq)]
pub struct Creating {
    pub next: Mfn,
    pub end: usize,
    pub need: usize,
}

// Whether there is a slot and room behind an open gate, with a right draft.
fn create_slot(mst: &[u8], xrf: &[u8], control: Control, need: usize) -> Result<(), Refusal>
    requires { SlotAsked mst.now xrf.now control.next.0 control.end need }
    ensures { result ≡ slot_answer (store mst.now xrf.now) need }
{
    let next = control.next;
    if next.0 as usize == layout::sizes::capacity(xrf.len()) + 1 {
        return Err(Refusal::NoSlot);
    }
    if !files::cross_reference::head_right(xrf, files::cross_reference::xrf_block(next)) {
        return Err(Refusal::BadEntry);
    }
    if !files::cross_reference::slot_free(xrf, next) {
        return Err(Refusal::BadEntry);
    }
    if mst.len() < control.end + need {
        return Err(Refusal::NoRoom);
    }
    Ok(())
}

fn plan_create(mst: &[u8], xrf: &[u8], draft: Draft<'_>) -> Result<Creating, Refusal>
    ensures { result ≡ create_plan (store mst.now xrf.now) (lent draft.entry) }
{
    let control = store::gate::open_gate(mst, xrf)?;
    if files::control::count_full(mst) {
        return Err(Refusal::BadControl);
    }
    if !draft.is_right() {
        return Err(Refusal::BadDraft);
    }
    let need = draft.need();
    create_slot(mst, xrf, control, need)?;
    Ok(Creating {
        next: control.next,
        end: control.end,
        need,
    })
}

// Writes a new record, and gives its MFN.
#[tactic(auto, using(crate::proofs::Results::create_returns))]
pub fn create(mst: &mut [u8], xrf: &mut [u8], draft: Draft<'_>) -> Result<Mfn, Refusal>
    ensures answers { created result ≡ create_of (store mst.old xrf.old) (lent draft.entry) }
    ensures left { store mst.new xrf.new ≡ create_leaves (store mst.old xrf.old) (lent draft.entry) }
{
    let Creating { next, end, need } = plan_create(mst, xrf, draft)?;
    versions::create::create_at_end(mst, xrf, next, end, need, draft);
    Ok(next)
}
