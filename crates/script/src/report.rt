// What a run of a list of calls reports.
ghost use Rattle.std.specs.Prelude.{◌≡◌, ◌+◌, ◌≤◌, length};
ghost use Rattle.word.specs.Overwrite.{overwrite};
ghost use Rattle.script.specs.Report.{outcome_size, five_of};

use std::fmt;

// The numbers of an outcome, before the answers that it lists.
pub const OUTCOME_SIZE: usize = 5;

// The numbers of an outcome: the answer, the MFN returned, the length of the field shown, the count and how many answers it lists.
#[derive(Clone, Copy, Debug, Default, PartialEq, Eq)]
pub struct Outcome {
    pub answer: u32,
    pub mfn: u32,
    pub len: u32,
    pub count: u32,
    pub listed: u32,
}

impl Outcome {
    // Writes the five numbers at `i`.
    #[tactic(auto, using(crate::proofs::Numbers::copied_part))]
    pub fn put(self, answers: &mut [u32], i: usize)
        requires { i + outcome_size ≤ length answers.old }
        ensures { answers.new ≡ overwrite answers.old i (five_of self) }
    {
        answers[i..i + OUTCOME_SIZE].copy_from_slice(&[
            self.answer,
            self.mfn,
            self.len,
            self.count,
            self.listed,
        ]);
    }
}

impl From<[u32; OUTCOME_SIZE]> for Outcome {
    ghost from_gives = { λ numbers o. five_of o ≡ numbers };

    fn from([answer, mfn, len, count, listed]: [u32; OUTCOME_SIZE]) -> Outcome {
        Outcome {
            answer,
            mfn,
            len,
            count,
            listed,
        }
    }
}

impl fmt::Display for Outcome {
    fn fmt<W: fmt::Write>(&self, f: &mut fmt::Formatter<W>) -> fmt::Result {
        write!(
            f,
            "{} {} {} {} {}",
            self.answer, self.mfn, self.len, self.count, self.listed
        )
    }
}

// Why a run stopped.
#[derive(Clone, Copy, Debug, PartialEq, Eq)]
pub enum Stop {
    // The list is at its end.
    Ended,
    // A buffer length is not permitted: nothing was run.
    BadLength,
    // What is left of the list is no call.
    Malformed,
    // There is no room for the outcome of the next call.
    NoRoom,
}

impl fmt::Display for Stop {
    fn fmt<W: fmt::Write>(&self, f: &mut fmt::Formatter<W>) -> fmt::Result {
        f.write_str(match self {
            Stop::Ended => "ended",
            Stop::BadLength => "bad length",
            Stop::Malformed => "malformed",
            Stop::NoRoom => "no room",
        })
    }
}

// Why it stopped, and how many calls were run and reported.
#[derive(Clone, Copy, Debug, PartialEq, Eq)]
pub struct Replayed {
    pub stop: Stop,
    pub calls: usize,
}
