// The records of a node or a leaf file that was lent, and the rules of answer 21 that each one met has to keep.
ghost use Rattle.std.specs.Prelude.{◌≡◌, true, ◌+◌, ◌<◌, ◌≤◌, length};
ghost use Rattle.index.specs.Layout.{size_of, place_of, ock_at, key_at, key_place, ps_at, punt_at, plain};
ghost use Rattle.index.specs.Inner.{child_of};
ghost use Rattle.index.specs.Rules.{record_there, rest_right, record_right, punts_right, node_right, record_right_any, node_right_any};
ghost use Rattle.index.specs.Shape.{ShapeFits};

use crate::layout::{AnyShape, Shape, size};
use word::bytes::part;
use word::integer::{u16_at, u32_at};

// A file, and the records that it has.
#[derive(Clone, Copy)]
pub struct Records<'a, const HEAD: usize, const TAIL: usize> {
    pub file: &'a [u8],
    pub shape: Shape<HEAD, TAIL>,
}

pub type Nodes<'a> = Records<'a, 8, 4>;

pub type Leaves<'a> = Records<'a, 12, 8>;

impl<'a, const HEAD: usize, const TAIL: usize> Records<'a, HEAD, TAIL> {
    // Whether all bytes of record `n` are in the file. Its number is compared before it is multiplied.
    #[tactic(auto, using(crate::proofs::Shapes::times_size), unfolding(crate::specs::Rules::record_there))]
    pub fn has(&self, n: u32) -> bool
        ensures { result ≡ record_there self.now.file.now self.now.shape n }
    {
        1 <= n && n <= 2147483647 && n as usize * self.shape.size() <= self.file.len()
    }

    // OCK of record `n`, as many keys as are active.
    pub fn count(&self, n: u32) -> usize
        requires { record_there self.now.file.now self.now.shape n ≡ true }
        ensures is { result ≡ ock_at self.now.file.now self.now.shape n }
        ensures high { result < 65536 }
    {
        usize::from(u16_at(self.file, self.shape.place(n) + 4))
    }

    // Whether record `n` keeps the rules for every record.
    #[tactic(auto, unfolding(crate::specs::Rules::record_right))]
    pub fn keeps_rules(&self, n: u32) -> bool
        ensures { result ≡ record_right self.now.file.now self.now.shape n }
    {
        self.has(n) && self.is_right(n)
    }

    // Of one that is in the file: its number is its position, its key count is in range, and its tree type is its own.
    #[tactic(auto, unfolding(crate::specs::Rules::rest_right))]
    fn is_right(&self, n: u32) -> bool
        requires { record_there self.now.file.now self.now.shape n ≡ true }
        ensures { result ≡ rest_right self.now.file.now self.now.shape n }
    {
        let shape = self.shape;
        let at = shape.place(n);
        let count = self.count(n);
        let number = u32_at(self.file, at);
        let kind = u16_at(self.file, at + 6);
        number == n && 1 <= count && count <= shape.most && kind == u16::from(shape.kind)
    }

    // The first key of record `n`.
    pub fn first_key(&self, n: u32) -> &'a [u8]
        requires { record_there self.now.file.now self.now.shape n ≡ true }
        ensures is { result.now ≡ key_at self.now.file.now self.now.shape n 0 }
        ensures low { 8 ≤ length result.now }
        ensures size { length result.now ≡ self.now.shape.width }
    {
        let width = self.shape.width();
        part(self.file, self.shape.key_place(n, 0), width)
    }

    // The key of entry `i` of record `n`.
    pub fn key(&self, n: u32, i: usize) -> &'a [u8]
        requires { (record_right self.now.file.now self.now.shape n ≡ true) × (i < ock_at self.now.file.now self.now.shape n) }
        ensures is { result.now ≡ key_at self.now.file.now self.now.shape n i }
        ensures low { 8 ≤ length result.now }
        ensures size { length result.now ≡ self.now.shape.width }
    {
        let width = self.shape.width();
        part(self.file, self.shape.key_place(n, i), width)
    }

    // Where entry `i` of record `n` goes on behind its key.
    pub fn behind_key(&self, n: u32, i: usize) -> usize
        requires { (record_right self.now.file.now self.now.shape n ≡ true) × (i < ock_at self.now.file.now self.now.shape n) }
        ensures is { result ≡ key_place self.now.shape n i + self.now.shape.width }
        ensures inside { result + TAIL ≤ length self.now.file.now }
    {
        let width = self.shape.width();
        self.shape.key_place(n, i) + width
    }
}

// What a PUNT points to.
#[derive(Clone, Copy, Debug, PartialEq, Eq)]
pub enum Child {
    Node(u32),
    Leaf(u32),
}

// A positive PUNT is a node's number. A negative one is a leaf's, whose number is its absolute value.
pub fn child_of(punt: u32) -> Child
    ensures { result ≡ child_of punt }
{
    if punt < 2147483648 {
        Child::Node(punt)
    } else {
        Child::Leaf(punt.wrapping_neg())
    }
}

impl<'a> Leaves<'a> {
    // PS of leaf `n`, its successor.
    pub fn successor(&self, n: u32) -> u32
        requires { record_there self.now.file.now self.now.shape n ≡ true }
        ensures { result ≡ ps_at self.now.file.now self.now.shape n }
    {
        u32_at(self.file, self.shape.place(n) + 8)
    }
}

impl<'a> Nodes<'a> {
    // PUNT of entry `i` of node `n`.
    pub fn punt(&self, n: u32, i: usize) -> u32
        requires { (record_right self.now.file.now self.now.shape n ≡ true) × (i < ock_at self.now.file.now self.now.shape n) }
        ensures { result ≡ punt_at self.now.file.now self.now.shape n i }
    {
        u32_at(self.file, self.behind_key(n, i))
    }

    // Whether no active PUNT of node `n` is 0.
    #[tactic(auto, using(crate::proofs::Shapes::right_there, crate::proofs::Nodes::punts_more, crate::proofs::Nodes::punts_zero), unfolding(crate::specs::Rules::punts_right))]
    fn punts_right(&self, n: u32) -> bool
        requires { record_right self.now.file.now self.now.shape n ≡ true }
        ensures { result ≡ punts_right self.now.file.now self.now.shape n (ock_at self.now.file.now self.now.shape n) }
    {
        for i in 0..self.count(n) {
            if self.punt(n, i) == 0 {
                return false;
            }
        }
        true
    }

    // Whether record `n` keeps the rules for a node.
    #[tactic(auto, unfolding(crate::specs::Rules::node_right))]
    pub fn keeps_node_rules(&self, n: u32) -> bool
        ensures { result ≡ node_right self.now.file.now self.now.shape n }
    {
        self.keeps_rules(n) && self.punts_right(n)
    }
}

// ---- The records of a file of any widths.

// Where record `n` begins.
#[tactic(auto, using(crate::proofs::Shapes::times_size), unfolding(crate::specs::Layout::place_of))]
fn place(s: AnyShape, n: u32) -> usize
    requires { (ShapeFits (plain s)) × (1 ≤ n) }
    ensures is { result ≡ place_of (plain s) n }
    ensures low { 8 ≤ size_of (plain s) }
    ensures high { result ≤ 5274219839488 }
{
    (n as usize - 1) * size(s)
}

// Where the key of entry `i` of record `n` begins.
#[tactic(auto, using(crate::proofs::Shapes::times_step), unfolding(crate::specs::Layout::key_place))]
fn key_place(s: AnyShape, n: u32, i: usize) -> usize
    requires { (ShapeFits (plain s)) × (1 ≤ n) × (i < 65536) }
    ensures { result ≡ key_place (plain s) n i }
{
    place(s, n) + s.head + i * s.step
}

// Whether all bytes of record `n` are in the file. Its number is compared before it is multiplied.
#[tactic(auto, using(crate::proofs::Shapes::times_size), unfolding(crate::specs::Rules::record_there))]
fn record_there(file: &[u8], s: AnyShape, n: u32) -> bool
    requires { ShapeFits (plain s) }
    ensures { result ≡ record_there file.now (plain s) n }
{
    1 <= n && n <= 2147483647 && n as usize * size(s) <= file.len()
}

// OCK of record `n`, as many keys as are active.
fn count_at(file: &[u8], s: AnyShape, n: u32) -> usize
    requires { (ShapeFits (plain s)) × (record_there file.now (plain s) n ≡ true) }
    ensures is { result ≡ ock_at file.now (plain s) n }
    ensures high { result < 65536 }
{
    usize::from(u16_at(file, place(s, n) + 4))
}

// Whether record `n` keeps the rules for every record.
#[tactic(auto, unfolding(crate::specs::Rules::record_right_any))]
pub fn record_right(file: &[u8], s: AnyShape, n: u32) -> bool
    requires { ShapeFits (plain s) }
    ensures { result ≡ record_right_any file.now s n }
{
    if !record_there(file, s, n) {
        return false;
    }
    let at = place(s, n);
    let count = count_at(file, s, n);
    let number = u32_at(file, at);
    let kind = u16_at(file, at + 6);
    number == n && 1 <= count && count <= s.most && kind == s.kind
}

// PUNT of entry `i` of node `n`.
fn punt_at(file: &[u8], s: AnyShape, n: u32, i: usize) -> u32
    requires { (ShapeFits (plain s)) × (record_right_any file.now s n ≡ true) × (i < ock_at file.now (plain s) n) }
    ensures { result ≡ punt_at file.now (plain s) n i }
{
    u32_at(file, key_place(s, n, i) + s.width)
}

// Whether no active PUNT of node `n` is 0.
#[tactic(auto, using(crate::proofs::Shapes::any_there, crate::proofs::Nodes::punts_more), unfolding(crate::specs::Rules::punts_right))]
fn punts_right(file: &[u8], s: AnyShape, n: u32) -> bool
    requires { (ShapeFits (plain s)) × (record_right_any file.now s n ≡ true) }
    ensures { result ≡ punts_right file.now (plain s) n (ock_at file.now (plain s) n) }
{
    for i in 0..count_at(file, s, n) {
        if punt_at(file, s, n, i) == 0 {
            return false;
        }
    }
    true
}

// Whether record `n` keeps the rules for a node.
#[tactic(auto, unfolding(crate::specs::Rules::node_right_any))]
pub fn node_right(file: &[u8], s: AnyShape, n: u32) -> bool
    requires { ShapeFits (plain s) }
    ensures { result ≡ node_right_any file.now s n }
{
    record_right(file, s, n) && punts_right(file, s, n)
}
