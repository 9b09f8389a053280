// Format: empties both buffers, whatever they held.
ghost use Rattle.std.specs.Prelude.{◌≡◌};
ghost use Rattle.writing.specs.Refusals.{format_answer};
ghost use Rattle.writing.specs.Calls.{format_leaves};
ghost use Rattle.store.specs.Store.{store};

use store::answer::Refusal;

pub fn format(mst: &mut [u8], xrf: &mut [u8]) -> Result<(), Refusal>
    ensures answers { result ≡ format_answer (store mst.old xrf.old) }
    ensures left { store mst.new xrf.new ≡ format_leaves (store mst.old xrf.old) }
{
    if !store::gate::lengths_permitted(mst, xrf) {
        return Err(Refusal::BadLength);
    }
    files::control::format_mst(mst);
    files::cross_reference::format_xrf(xrf);
    Ok(())
}
