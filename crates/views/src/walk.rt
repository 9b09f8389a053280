// The fields of a record one after the other, by their index in the directory, counted from 0: a
// caller that counts up until the answer is that there is no such field has been handed every
// field, in directory order.
ghost use Rattle.std.specs.Prelude.{◌≡◌, ◌+◌, ◌≤◌, length, IfOk};
ghost use Rattle.views.specs.Fields.{shown_field, field_of, settled_field_of};
ghost use Rattle.views.specs.Versions.{ReadableAt, walked_in};
ghost use Rattle.store.specs.Store.{store};

use crate::views::Version;
use layout::sizes::Mfn;
use store::answer::Refusal;
use walking::walker::Spot;

// The field at an index of a version's directory.
#[tactic(auto, using(crate::proofs::WalkAnswers::walk_answers))]
fn hand_out(mst: &[u8], version: Version, index: usize) -> Result<Spot, Refusal>
    requires { ReadableAt mst.now version.at version.end }
    ensures is { result ≡ walked_in mst.now index version }
    ensures within { IfOk result (λ s. s.start + s.len ≤ length mst.now) }
{
    let Version { at, end } = version;
    let spot = walking::walker::field_span(&mst[at..end], index).ok_or(Refusal::NoField)?;
    Ok(Spot {
        start: at + spot.start,
        ..spot
    })
}

// The field at an index in the current version of MFN `m`: its tag, and where in the MST it lies.
#[tactic(auto, using(crate::proofs::WalkAnswers::walk_answers))]
pub fn field_at(mst: &[u8], xrf: &[u8], m: Mfn, index: usize) -> Result<Spot, Refusal>
    ensures is { shown_field result ≡ field_of (store mst.now xrf.now) m.0 index }
    ensures within { IfOk result (λ s. s.start + s.len ≤ length mst.now) }
{
    let version = crate::views::current_version(mst, xrf, m)?;
    hand_out(mst, version, index)
}

// The field at an index in the settled version of MFN `m`.
#[tactic(auto, using(crate::proofs::WalkAnswers::walk_answers))]
pub fn settled_field_at(mst: &[u8], xrf: &[u8], m: Mfn, index: usize) -> Result<Spot, Refusal>
    ensures is { shown_field result ≡ settled_field_of (store mst.now xrf.now) m.0 index }
    ensures within { IfOk result (λ s. s.start + s.len ≤ length mst.now) }
{
    let version = crate::views::settled_version(mst, xrf, m)?;
    hand_out(mst, version, index)
}
