// A call read from five numbers of a list.
ghost use Rattle.std.specs.Prelude.{◌≡◌, leb};
ghost use Rattle.std.specs.Bool.{then_some};
ghost use Rattle.script.specs.Ops.{counts_fit, tag_of, op_named, taken_by, op_in};

use layout::sizes::{Mfn, Tag};

// The numbers of a call.
pub const CALL_SIZE: usize = 5;

// How many MFNs a list and how many tags, lengths and bytes a draft takes, or are left.
#[derive(Clone, Copy, Debug, Default, PartialEq, Eq)]
pub struct Counts {
    pub mfns: usize,
    pub tags: usize,
    pub lens: usize,
    pub bytes: usize,
}

impl Counts {
    // Whether there are so many of each among those that are left.
    fn fit(self, left: Counts) -> bool
        ensures { result ≡ counts_fit self left }
    {
        self.mfns <= left.mfns
            && self.tags <= left.tags
            && self.lens <= left.lens
            && self.bytes <= left.bytes
    }
}

// A call that only reads.
#[derive(Clone, Copy)]
pub enum Reading {
    View { mfn: Mfn, tag: Tag, occurrence: u32 },
    Settled { mfn: Mfn, tag: Tag, occurrence: u32 },
    Check,
}

// A call that may write.
#[derive(Clone, Copy)]
pub enum Writing {
    Format,
    Create,
    Update(Mfn),
    Delete(Mfn),
    Settle(Mfn),
    Revert(Mfn),
    Migrate,
    Recount,
}

// The next call of a list. One that may write takes the next of each of the three lists of drafts, one that settles a list the next MFNs, and it
// is lent a list for so many answers.
#[derive(Clone, Copy)]
pub enum Op {
    Asks(Reading),
    Writes(Writing, Counts),
    Settles { mfns: usize, lent: usize },
}

impl Op {
    // The call whose five numbers these are, where so much of the MFNs and of the drafts is left for it.
    #[tactic(auto, unfolding(crate::specs::Ops::op_in))]
    pub fn read(numbers: &[u32; CALL_SIZE], left: Counts) -> Option<Op>
        ensures { result ≡ op_in numbers.now left }
    {
        let [call, m, x, y, z] = *numbers;
        let op = op_named(call, m, x, y, z)?;
        op.taken().fit(left).then_some(op)
    }

    // The MFNs or the draft that it takes.
    fn taken(self) -> Counts
        ensures { result ≡ taken_by self }
    {
        match self {
            Op::Asks(_) => Counts::default(),
            Op::Writes(_, n) => n,
            Op::Settles { mfns, .. } => Counts {
                mfns,
                ..Counts::default()
            },
        }
    }
}

// A tag, which is to be a number of 16 bits.
fn tag_of(n: u32) -> Option<Tag>
    ensures { result ≡ then_some (leb n 65535) (tag_of n) }
{
    Some(Tag(u16::try_from(n).ok()?))
}

// The call that five numbers stand for.
#[tactic(auto, unfolding(crate::specs::Ops::op_named))]
fn op_named(call: u32, m: u32, x: u32, y: u32, z: u32) -> Option<Op>
    ensures { result ≡ op_named call m x y z }
{
    let none = Counts::default();
    let draft = Counts {
        mfns: 0,
        tags: x as usize,
        lens: y as usize,
        bytes: z as usize,
    };
    Some(match call {
        0 => Op::Writes(Writing::Format, none),
        1 => Op::Asks(Reading::View {
            mfn: Mfn(m),
            tag: tag_of(x)?,
            occurrence: y,
        }),
        2 => Op::Asks(Reading::Settled {
            mfn: Mfn(m),
            tag: tag_of(x)?,
            occurrence: y,
        }),
        3 => Op::Writes(Writing::Create, draft),
        4 => Op::Writes(Writing::Update(Mfn(m)), draft),
        5 => Op::Writes(Writing::Delete(Mfn(m)), none),
        6 => Op::Writes(Writing::Settle(Mfn(m)), none),
        7 => Op::Writes(Writing::Revert(Mfn(m)), none),
        8 => Op::Asks(Reading::Check),
        9 => Op::Writes(Writing::Migrate, none),
        10 => Op::Settles {
            mfns: x as usize,
            lent: y as usize,
        },
        11 => Op::Writes(Writing::Recount, none),
        _ => return None,
    })
}
