// The refusals, and the paper's number of each answer: 0 where a call is done, else its refusal's.
ghost use Rattle.std.specs.Prelude.{◌≡◌};
ghost use Rattle.store.specs.Answer.{refusal_number, number_of};

#[derive(Clone, Copy, Debug, PartialEq, Eq)]
pub enum Refusal {
    BadLength,
    BadControl,
    BadDraft,
    NoMfn,
    NoSlot,
    BadEntry,
    Gone,
    BadRecord,
    Deleted,
    NotPending,
    NeverSettled,
    NoField,
    NoRoom,
    NotSound,
    // The tag occurs, but so many times only.
    FewerFields { occurrences: u32 },
    NoRoomInList,
}

impl From<Refusal> for u32 {
    ghost from_gives = { λ r n. n ≡ refusal_number r };

    #[tactic(auto, unfolding(crate::specs::Answer::refusal_number))]
    fn from(refusal: Refusal) -> u32 {
        match refusal {
            Refusal::BadLength => 1,
            Refusal::BadControl => 2,
            Refusal::BadDraft => 3,
            Refusal::NoMfn => 4,
            Refusal::NoSlot => 5,
            Refusal::BadEntry => 6,
            Refusal::Gone => 7,
            Refusal::BadRecord => 8,
            Refusal::Deleted => 9,
            Refusal::NotPending => 10,
            Refusal::NeverSettled => 11,
            Refusal::NoField => 12,
            Refusal::NoRoom => 13,
            Refusal::NotSound => 14,
            Refusal::FewerFields { occurrences: _ } => 15,
            Refusal::NoRoomInList => 17,
        }
    }
}

// The number of an answer.
#[tactic(auto, unfolding(crate::specs::Answer::number_of))]
pub fn number(answer: Result<(), Refusal>) -> u32
    ensures { result ≡ number_of answer }
{
    match answer {
        Ok(()) => 0,
        Err(refusal) => u32::from(refusal),
    }
}
