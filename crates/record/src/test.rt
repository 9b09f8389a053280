// The record test: leader first, then one walk over the directory, which ends at the first entry that breaks a rule. MFRL is compared with what is
// left before anything believes it.
ghost use Rattle.std.specs.Prelude.{◌≡◌, ◌+◌};
ghost use Rattle.record.specs.Record.{leader_right, status_for, no_back, back_right};
ghost use Rattle.record.specs.Inner.{right_leader, test_of};

use layout::entry::Mark;
use layout::leader::Leader;
use layout::sizes::{Block, Mfn};

// What fails the test: the leader, so that no entry is looked at; or the first entry that breaks a rule, counted from 1.
#[derive(Clone, Copy, Debug, PartialEq, Eq)]
pub enum Broken {
    Leader,
    Entry { number: u32 },
}

// The STATUS of a record that is deleted or not.
pub fn status_for(deleted: bool) -> u16
    ensures { result ≡ status_for deleted }
{
    u16::from(deleted)
}

// Whether a leader is right for MFN `m` with `left` bytes before the end.
#[tactic(auto, unfolding(crate::specs::Record::leader_right, crate::specs::Record::extent_right, crate::specs::Record::base_right, crate::specs::Record::status_right))]
fn leader_right(m: Mfn, deleted: bool, left: usize, l: Leader) -> bool
    ensures { result ≡ leader_right m.0 deleted left l }
{
    l.mfn == m
        && layout::sizes::record_length(usize::from(l.mfrl))
        && usize::from(l.mfrl) <= left
        && usize::from(l.base) == 18 + 6 * usize::from(l.nvf)
        && l.base <= l.mfrl
        && l.status == status_for(deleted)
}

// The leader at the front of `rec`, where it is right.
#[tactic(auto, using(crate::proofs::RecordTest::leader_short), unfolding(crate::specs::Inner::right_leader))]
fn right_leader(rec: &[u8], m: Mfn, deleted: bool) -> Option<Leader>
    ensures { result ≡ right_leader rec.now m.0 deleted }
{
    if rec.len() < 18 {
        return None;
    }
    let l = layout::leader::read_leader(rec);
    leader_right(m, deleted, rec.len(), l).then_some(l)
}

// Tests the record at the front of `rec`, which ends at the store's end, for MFN `m`, all but its back pointer.
#[tactic(auto, using(crate::proofs::RecordTest::answer_wrong))]
pub fn test_record(rec: &[u8], m: Mfn, deleted: bool) -> Result<Leader, Broken>
    ensures { result ≡ test_of rec.now m.0 deleted }
{
    let l = right_leader(rec, m, deleted).ok_or(Broken::Leader)?;
    let room = usize::from(l.mfrl - l.base);
    match crate::directory::test_directory(rec, usize::from(l.nvf), room) {
        Ok(()) => Ok(l),
        Err(number) => Err(Broken::Entry { number }),
    }
}

// Whether both parts of the back pointer are 0.
#[tactic(auto, unfolding(crate::specs::Record::no_back))]
pub fn no_back(l: Leader) -> bool
    ensures { result ≡ no_back l }
{
    l.mfbwb == Block(0) && l.mfbwp == 0
}

// Whether the back pointer of a leader is right under a mark.
#[tactic(auto, unfolding(crate::specs::Record::back_right))]
pub fn back_right(end: usize, mark: Mark, l: Leader) -> bool
    ensures { result ≡ back_right end mark l }
{
    match mark {
        Mark::Settled | Mark::New => no_back(l),
        Mark::Changed => layout::entry::well_placed(end, l.mfbwb, l.mfbwp),
    }
}
