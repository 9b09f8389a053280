// Where the fields of CNT's parts, of nodes and of leaves stand, over the tree's type.
ghost use Rattle.std.specs.Prelude.{◌≡◌, ◌+◌, ◌≤◌, ◌<◌};
ghost use Rattle.index.specs.Layout.{size_of, place_of, key_place, plain};
ghost use Rattle.index.specs.Rules.{part_of, order_right};
ghost use Rattle.index.specs.Shape.{ShapeFits};

use std::marker::Model;
use terms::term::Kind;
use word::integer::{u16_at, u32_at};

// The bytes of CNT, and of its part for a tree.
const CNT_BYTES: usize = 52;

const PART_BYTES: usize = 26;

// The highest order of nodes and of leaves.
const ORDER_MOST: u16 = 16;

// The records of a file: the type of its tree, and how many entries a record has. HEAD bytes stand before the entries, and in each entry TAIL bytes behind the key.
#[derive(Clone, Copy)]
pub struct Shape<const HEAD: usize, const TAIL: usize> {
    pub kind: Kind,
    pub most: usize,
}

impl<const HEAD: usize, const TAIL: usize> Model for Shape<HEAD, TAIL> {
    ghost use Rattle.index.specs.Shape.{ShapeFits, shape, Shape as ShapeOf};

    ghost Value = { ShapeOf };

    ghost view = { λ s. shape s.kind HEAD TAIL s.most };

    ghost inverse = { λ s. record { kind = s.kind; most = s.most } };

    ghost invariant = { λ s. ShapeFits (shape s.kind HEAD TAIL s.most) };
}

// Those of a node file, whose entries have a PUNT behind the key; and of a leaf file, whose head has PS besides and whose entries have a block and a word.
pub type NodeShape = Shape<8, 4>;

pub type LeafShape = Shape<12, 8>;

impl<const HEAD: usize, const TAIL: usize> Shape<HEAD, TAIL> {
    // The width of a key.
    pub fn width(self) -> usize
        ensures is { result ≡ self.entry.width }
        ensures fits { ShapeFits self.entry }
        ensures step { self.entry.step ≡ self.entry.width + TAIL }
    {
        self.kind.width()
    }

    // The bytes of an entry.
    pub fn step(self) -> usize
        ensures is { result ≡ self.entry.step }
        ensures high { result ≤ 38 }
    {
        self.kind.width() + TAIL
    }

    // The bytes of a record.
    #[tactic(auto, using(crate::proofs::Shapes::size_high), unfolding(crate::specs::Layout::size_of))]
    pub fn size(self) -> usize
        ensures is { result ≡ size_of self.entry }
        ensures low { 8 ≤ result }
        ensures head { HEAD ≤ result }
        ensures high { result ≤ 1228 }
    {
        HEAD + self.most * self.step()
    }

    // Where record `n` begins.
    #[tactic(auto, using(crate::proofs::Shapes::times_size), unfolding(crate::specs::Layout::place_of))]
    pub fn place(self, n: u32) -> usize
        requires { 1 ≤ n }
        ensures is { result ≡ place_of self.entry n }
        ensures low { 8 ≤ size_of self.entry }
        ensures head { HEAD ≤ size_of self.entry }
        ensures high { result ≤ 5274219839488 }
    {
        (n as usize - 1) * self.size()
    }

    // Where the key of entry `i` of record `n` begins.
    #[tactic(auto, using(crate::proofs::Shapes::times_step), unfolding(crate::specs::Layout::key_place))]
    pub fn key_place(self, n: u32, i: usize) -> usize
        requires { (1 ≤ n) × (i < 65536) }
        ensures is { result ≡ key_place self.entry n i }
        ensures fits { ShapeFits self.entry }
    {
        self.place(n) + HEAD + i * self.step()
    }
}

// The records of a file of any widths, and of any type; those of the trees are `Shape`. The type, the bytes before the entries, the key's width, the bytes of an entry, and
// how many entries there are.
#[derive(Clone, Copy)]
pub struct AnyShape {
    pub kind: u16,
    pub head: usize,
    pub width: usize,
    pub step: usize,
    pub most: usize,
}

// The bytes of a record.
#[tactic(auto, using(crate::proofs::Shapes::size_high), unfolding(crate::specs::Layout::size_of))]
pub fn size(s: AnyShape) -> usize
    requires { ShapeFits (plain s) }
    ensures is { result ≡ size_of (plain s) }
    ensures high { result ≤ 1228 }
    ensures low { 8 ≤ result }
{
    s.head + s.most * s.step
}

// A tree: its two files' records, and its root.
#[derive(Clone, Copy)]
pub struct Tree {
    pub nodes: NodeShape,
    pub leaves: LeafShape,
    pub root: u32,
}

fn order_right(order: u16) -> bool
    ensures { result ≡ order_right order }
{
    1 <= order && order <= ORDER_MOST
}

// The tree of type `kind`, as CNT's part describes it; none where a rule is broken.
#[tactic(auto, unfolding(crate::specs::Rules::part_of, crate::specs::Rules::part_right, crate::specs::Layout::tree_of))]
pub fn read_part(cnt: &[u8], kind: Kind) -> Option<Tree>
    ensures { result ≡ part_of cnt.now kind }
{
    if cnt.len() != CNT_BYTES {
        return None;
    }
    let at = PART_BYTES * (usize::from(u16::from(kind)) - 1);
    let ordn = u16_at(cnt, at + 2);
    let ordf = u16_at(cnt, at + 4);
    if u16_at(cnt, at) != u16::from(kind) || !order_right(ordn) || !order_right(ordf) {
        return None;
    }
    Some(Tree {
        nodes: Shape {
            kind,
            most: 2 * usize::from(ordn),
        },
        leaves: Shape {
            kind,
            most: 2 * usize::from(ordf),
        },
        root: u32_at(cnt, at + 12),
    })
}
