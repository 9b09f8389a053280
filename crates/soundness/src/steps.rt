// Stepping through the MST by each record's MFRL, which is compared with the end before anything believes it.
ghost use Rattle.std.specs.Prelude.{◌≡◌, ◌+◌, ◌≤◌, length};
ghost use Rattle.layout.specs.Sizes.{mst_most};
ghost use Rattle.files.specs.Control.{end_of};
ghost use Rattle.soundness.specs.Passes.{step_of};

// The step after `s`, where MFRL is right.
#[tactic(auto, using(crate::proofs::PassAnswers::step_answers))]
pub(crate) fn next_step(mst: &[u8], end: usize, s: usize) -> Option<usize>
    requires { (s + 18 ≤ end) × (end ≡ end_of mst.now) × (end ≤ length mst.now) × (length mst.now ≤ mst_most) }
    ensures { result ≡ step_of mst.now s }
{
    let mfrl = layout::leader::read_leader(&mst[s..end]).mfrl as usize;
    if !layout::sizes::record_length(mfrl) {
        return None;
    }
    if end < s + mfrl {
        return None;
    }
    Some(layout::sizes::end_moved(s + mfrl))
}
