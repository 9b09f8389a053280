// The record test on one record alone, for who has its bytes and no card: which entry of its
// directory breaks a rule.
ghost use Rattle.std.specs.Prelude.{◌≡◌};
ghost use Rattle.record.specs.Record.{number_told};
ghost use Rattle.asking.specs.RecordTest.{tested, record_test_of};

use layout::sizes::Mfn;
use record::test::Broken;

// Tests the record at the front of `rec`, which stops at the store's end, for MFN `m`, all but its
// back pointer.
#[tactic(auto, using(crate::proofs::RecordTestAnswers::record_test_answers))]
pub fn test(rec: &[u8], m: Mfn, deleted: bool) -> Result<(), Broken>
    ensures { tested result ≡ record_test_of rec.now m.0 deleted }
{
    record::test::test_record(rec, m, deleted)?;
    Ok(())
}

// The number of the first entry that breaks a rule, counted from 1; 0 where the leader fails.
// a function, not `From`: neither type is declared in this crate
pub fn entry_number(broken: Broken) -> u32
    ensures { result ≡ number_told broken }
{
    match broken {
        Broken::Leader => 0,
        Broken::Entry { number } => number,
    }
}
