// The migration of an old card.
ghost use Rattle.std.specs.Prelude.{◌≡◌};
ghost use Rattle.store.specs.Store.{store};
ghost use Rattle.migrating.specs.Migrate.{migrate_answer, migrate_leaves};

use store::answer::Refusal;

// 0, 1 or 2: counts an end that is right by the old rule from one, and changes nothing else.
pub fn migrate(mst: &mut [u8], xrf: &[u8]) -> Result<(), Refusal>
    ensures answers { result ≡ migrate_answer (store mst.old xrf.now) }
    ensures left { store mst.new xrf.now ≡ migrate_leaves (store mst.old xrf.now) }
{
    if !store::gate::lengths_permitted(mst, xrf) {
        return Err(Refusal::BadLength);
    }
    if !files::control::old_control_right(mst, layout::sizes::capacity(xrf.len())) {
        return Err(Refusal::BadControl);
    }
    files::control::migrate_end(mst);
    Ok(())
}
