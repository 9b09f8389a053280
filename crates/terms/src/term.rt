// The term that is looked up, and the type of its tree.
ghost use Rattle.std.specs.Prelude.{◌≡◌, ◌≤◌};
ghost use Rattle.terms.specs.Term.{term_right, kind_for, number_of, width_of};

// The longest term, and the longest of the first tree.
pub const TERM_MOST: usize = 30;

const SHORT_MOST: usize = 10;

// The byte that terms are padded with.
pub const SPACE: u8 = 32;

// The type of a tree: the first tree has the keys of the short terms, the second those of the long ones.
#[derive(Clone, Copy, Debug, PartialEq, Eq)]
pub enum Kind {
    Short,
    Long,
}

// The number that stands for it in the files.
impl From<Kind> for u16 {
    ghost from_gives = { λ kind n. n ≡ number_of kind };

    fn from(kind: Kind) -> u16 {
        match kind {
            Kind::Short => 1,
            Kind::Long => 2,
        }
    }
}

impl Kind {
    // The width of the keys of a tree of this type.
    pub fn width(self) -> usize
        ensures is { result ≡ width_of self }
        ensures small { result ≤ 30 }
    {
        match self {
            Kind::Short => SHORT_MOST,
            Kind::Long => TERM_MOST,
        }
    }
}

// Whether a term may be looked up.
#[tactic(auto, unfolding(crate::specs::Term::term_right))]
pub fn term_right(term: &[u8]) -> bool
    ensures { result ≡ term_right term.now }
{
    1 <= term.len() && term.len() <= TERM_MOST && term[term.len() - 1] != SPACE
}

// The type of the tree that a term is looked up in.
#[tactic(auto, unfolding(crate::specs::Term::kind_for))]
pub fn kind_for(term: &[u8]) -> Kind
    ensures { result ≡ kind_for term.now }
{
    if term.len() <= SHORT_MOST {
        Kind::Short
    } else {
        Kind::Long
    }
}
