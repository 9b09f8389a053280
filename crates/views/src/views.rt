// The two views: where in the MST a field lies, and the field itself as a part of the lent MST. A
// view first finds the version that it reads, current or settled, and then shows a field of it.
ghost use Rattle.std.specs.Prelude.{◌≡◌, ◌+◌, ◌≤◌, length, IfOk};
ghost use Rattle.store.specs.Answer.{number_of};
ghost use Rattle.views.specs.Views.{occurrences_told, shown, view_answer, settled_view_answer, view_of, settled_view_of, shown_bytes};
ghost use Rattle.views.specs.Versions.{current_version, settled_version, Located, settled_of, ReadableAt, shown_in};
ghost use Rattle.store.specs.Store.{store};

use layout::entry::{Mark, Place};
use layout::leader::Leader;
use layout::sizes::{Mfn, Tag};
use record::fields::{NotFound, Span};
use store::answer::Refusal;
use store::gate::Reached;

// The address of a version that is right, and the store's end.
// that it can be read is said in clauses, not by a ghost field: the MST is no part of it
#[derive(Clone, Copy, Debug, PartialEq, Eq)]
pub struct Version {
    pub at: usize,
    pub end: usize,
}

// Where the current version of MFN `m` begins.
#[tactic(auto, using(crate::proofs::VersionAnswers::version_answers))]
pub fn current_version(mst: &[u8], xrf: &[u8], m: Mfn) -> Result<Version, Refusal>
    ensures is { result ≡ current_version (store mst.now xrf.now) m.0 }
    ensures readable { IfOk result (λ v. ReadableAt mst.now v.at v.end) }
{
    let Reached { end, place, .. } = store::gate::reach(mst, xrf, m)?;
    if place.deleted {
        return Err(Refusal::Deleted);
    }
    Ok(Version {
        at: layout::entry::place_address(place),
        end,
    })
}

// Where the settled version of a record begins, by its mark.
#[tactic(auto, using(crate::proofs::VersionAnswers::version_answers))]
fn settled_of(end: usize, place: Place, leader: Leader) -> Result<Version, Refusal>
    requires { Located place leader }
    ensures { result ≡ settled_of end place leader }
{
    match place.mark {
        Mark::Settled if place.deleted => Err(Refusal::Deleted),
        Mark::Settled => Ok(Version {
            at: layout::entry::place_address(place),
            end,
        }),
        Mark::Changed => Ok(Version {
            at: layout::sizes::address(leader.mfbwb, leader.mfbwp),
            end,
        }),
        Mark::New => Err(Refusal::NeverSettled),
    }
}

// Where the settled version of MFN `m` begins.
#[tactic(auto, using(crate::proofs::VersionAnswers::version_answers))]
pub fn settled_version(mst: &[u8], xrf: &[u8], m: Mfn) -> Result<Version, Refusal>
    ensures is { result ≡ settled_version (store mst.now xrf.now) m.0 }
    ensures readable { IfOk result (λ v. ReadableAt mst.now v.at v.end) }
{
    let Reached { end, place, leader } = store::gate::reach_both(mst, xrf, m)?;
    settled_of(end, place, leader)
}

// Where the field of a tag and occurrence lies in a version.
#[tactic(auto, using(crate::proofs::ViewAnswers::view_answers))]
fn show_field(mst: &[u8], version: Version, tag: Tag, occurrence: u32) -> Result<Span, Refusal>
    requires { ReadableAt mst.now version.at version.end }
    ensures is { result ≡ shown_in mst.now tag.0 occurrence version }
    ensures within { IfOk result (λ s. s.start + s.len ≤ length mst.now) }
{
    let Version { at, end } = version;
    match record::fields::find_field(&mst[at..end], tag, occurrence) {
        Ok(Span { start, len }) => Ok(Span {
            start: at + start,
            len,
        }),
        Err(NotFound::Fewer { occurrences }) => Err(Refusal::FewerFields { occurrences }),
        Err(NotFound::Missing) => Err(Refusal::NoField),
    }
}

// Where the field of a tag and occurrence lies in the current version of MFN `m`.
#[tactic(auto, using(crate::proofs::ViewAnswers::view_answers))]
pub fn view(mst: &[u8], xrf: &[u8], m: Mfn, tag: Tag, occurrence: u32) -> Result<Span, Refusal>
    ensures is { shown result ≡ view_of (store mst.now xrf.now) m.0 tag.0 occurrence }
    ensures within { IfOk result (λ s. s.start + s.len ≤ length mst.now) }
{
    let version = current_version(mst, xrf, m)?;
    show_field(mst, version, tag, occurrence)
}

// Where the field of a tag and occurrence lies in the settled version of MFN `m`.
#[tactic(auto, using(crate::proofs::ViewAnswers::view_answers))]
pub fn view_settled(
    mst: &[u8],
    xrf: &[u8],
    m: Mfn,
    tag: Tag,
    occurrence: u32,
) -> Result<Span, Refusal>
    ensures is { shown result ≡ settled_view_of (store mst.now xrf.now) m.0 tag.0 occurrence }
    ensures within { IfOk result (λ s. s.start + s.len ≤ length mst.now) }
{
    let version = settled_version(mst, xrf, m)?;
    show_field(mst, version, tag, occurrence)
}

// How often the tag occurs, where a view is refused since it occurs fewer times than asked; else 0.
pub fn occurrences_told(refusal: Refusal) -> u32
    ensures { result ≡ occurrences_told refusal }
{
    match refusal {
        Refusal::FewerFields { occurrences } => occurrences,
        _ => 0,
    }
}

// What a view found, handed out: its field as a part of the MST, the answer's number and the number
// of occurrences.
#[tactic(auto, unfolding(store::specs::Answer::number_of))]
fn hand_out_found<'a>(
    mst: &'a [u8],
    found: Result<Span, Refusal>,
    answer: &mut u32,
    occurrences: &mut u32,
) -> &'a [u8]
    requires { IfOk found (λ s. s.start + s.len ≤ length mst.now) }
    ensures number { answer.new ≡ number_of (shown found).answer }
    ensures counted { occurrences.new ≡ (shown found).occurrences }
    ensures part { result.now ≡ shown_bytes mst.now (shown found) }
{
    match found {
        Ok(Span { start, len }) => {
            *answer = 0;
            *occurrences = 0;
            &mst[start..start + len]
        }
        Err(refusal) => {
            *answer = u32::from(refusal);
            *occurrences = occurrences_told(refusal);
            &mst[..0]
        }
    }
}

// The field that a view shows, as a part of the MST, empty where it is refused; the answer's number
// goes to `answer`, and the number of occurrences to `occurrences`.
#[tactic(auto, unfolding(crate::specs::Views::view_of, crate::specs::Views::shown_at))]
pub fn view_field<'a>(
    mst: &'a [u8],
    xrf: &[u8],
    m: Mfn,
    tag: Tag,
    occurrence: u32,
    answer: &mut u32,
    occurrences: &mut u32,
) -> &'a [u8]
    ensures number { answer.new ≡ number_of (view_answer (store mst.now xrf.now) m.0 tag.0 occurrence) }
    ensures counted { occurrences.new ≡ (view_of (store mst.now xrf.now) m.0 tag.0 occurrence).occurrences }
    ensures shown { result.now ≡ shown_bytes mst.now (view_of (store mst.now xrf.now) m.0 tag.0 occurrence) }
{
    let found = view(mst, xrf, m, tag, occurrence);
    hand_out_found(mst, found, answer, occurrences)
}

// The same for the settled version.
#[tactic(auto, unfolding(crate::specs::Views::settled_view_of, crate::specs::Views::shown_at))]
pub fn view_settled_field<'a>(
    mst: &'a [u8],
    xrf: &[u8],
    m: Mfn,
    tag: Tag,
    occurrence: u32,
    answer: &mut u32,
    occurrences: &mut u32,
) -> &'a [u8]
    ensures number { answer.new ≡ number_of (settled_view_answer (store mst.now xrf.now) m.0 tag.0 occurrence) }
    ensures counted { occurrences.new ≡ (settled_view_of (store mst.now xrf.now) m.0 tag.0 occurrence).occurrences }
    ensures shown { result.now ≡ shown_bytes mst.now (settled_view_of (store mst.now xrf.now) m.0 tag.0 occurrence) }
{
    let found = view_settled(mst, xrf, m, tag, occurrence);
    hand_out_found(mst, found, answer, occurrences)
}
