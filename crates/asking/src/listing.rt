// All fields of a record in one call, through one record test and one walk: their tags, their
// starts in the MST and their lengths go to the front of three lent lists, in directory order. A
// refused call leaves the lists as they are.
ghost use Rattle.std.specs.Prelude.{◌≡◌};
ghost use Rattle.store.specs.Store.{store};
ghost use Rattle.asking.specs.Listing.{lists, listed, all_fields_of, all_fields_leaves, settled_all_fields_of, settled_all_fields_leaves};
ghost use Rattle.asking.specs.Inner.{listed_in, left_in};
ghost use Rattle.views.specs.Versions.{ReadableAt};

use layout::sizes::Mfn;
use store::answer::Refusal;
use views::views::Version;

// Lists the fields of a version, and gives how many they are.
// not a struct of three `&mut`: where one is handed on, `fields::returns-clause-left` stays open
#[tactic(auto, using(crate::proofs::ListAnswers::list_answers))]
fn list_version(
    mst: &[u8],
    version: Version,
    tags: &mut [u16],
    starts: &mut [usize],
    lens: &mut [usize],
) -> Result<usize, Refusal>
    requires { ReadableAt mst.now version.at version.end }
    ensures is { result ≡ listed_in mst.now version (lists tags.old starts.old lens.old) }
    ensures left { lists tags.new starts.new lens.new ≡ left_in mst.now version (lists tags.old starts.old lens.old) }
{
    let Version { at, end } = version;
    let rec = &mst[at..end];
    let count = walking::walker::field_count(rec);
    if tags.len() < count || starts.len() < count || lens.len() < count {
        return Err(Refusal::NoRoomInList);
    }
    Ok(walking::walker::list_fields(rec, count, at, tags, starts, lens))
}

// Lists the fields of the current version of MFN `m`, and gives how many they are.
#[tactic(auto, using(crate::proofs::ListAnswers::list_answers))]
pub fn fields(
    mst: &[u8],
    xrf: &[u8],
    m: Mfn,
    tags: &mut [u16],
    starts: &mut [usize],
    lens: &mut [usize],
) -> Result<usize, Refusal>
    ensures is { listed result ≡ all_fields_of (store mst.now xrf.now) m.0 (lists tags.old starts.old lens.old) }
    ensures left { lists tags.new starts.new lens.new ≡ all_fields_leaves (store mst.now xrf.now) m.0 (lists tags.old starts.old lens.old) }
{
    let version = views::views::current_version(mst, xrf, m)?;
    list_version(mst, version, tags, starts, lens)
}

// Lists the fields of the settled version of MFN `m`, and gives how many they are.
#[tactic(auto, using(crate::proofs::ListAnswers::list_answers))]
pub fn fields_settled(
    mst: &[u8],
    xrf: &[u8],
    m: Mfn,
    tags: &mut [u16],
    starts: &mut [usize],
    lens: &mut [usize],
) -> Result<usize, Refusal>
    ensures is { listed result ≡ settled_all_fields_of (store mst.now xrf.now) m.0 (lists tags.old starts.old lens.old) }
    ensures left { lists tags.new starts.new lens.new ≡ settled_all_fields_leaves (store mst.now xrf.now) m.0 (lists tags.old starts.old lens.old) }
{
    let version = views::views::settled_version(mst, xrf, m)?;
    list_version(mst, version, tags, starts, lens)
}
