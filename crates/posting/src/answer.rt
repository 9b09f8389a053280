// Why a call on postings is refused, and the number of each answer.
ghost use Rattle.std.specs.Prelude.{◌≡◌};
ghost use Rattle.posting.specs.Answer.{number_of, refusal_number};

#[derive(Clone, Copy, Debug, PartialEq, Eq)]
pub enum Refusal {
    // What is to be written has more items, or bytes, than there is room for.
    NoRoom,
    // A rule of posting lists is broken, or a number is too wide.
    Broken,
}

impl From<Refusal> for u32 {
    ghost from_gives = { λ r n. n ≡ refusal_number r };

    fn from(r: Refusal) -> u32 {
        match r {
            Refusal::NoRoom => 17,
            Refusal::Broken => 23,
        }
    }
}

// The number of what is given or refused.
pub fn number<T: Copy>(given: Result<T, Refusal>) -> u32
    ensures { result ≡ number_of given }
{
    match given {
        Ok(_) => 0,
        Err(r) => r.into(),
    }
}
