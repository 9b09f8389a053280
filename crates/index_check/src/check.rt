// The check of a whole index: one walk from each root by recursion, which stops at the first broken rule and remembers of the leaves met only the last one's last
// key and successor.
ghost use Rattle.std.specs.Prelude.{◌≡◌, true, IfOk, Ok, length};
ghost use Rattle.terms.specs.Key.{ascending};
ghost use Rattle.index.specs.Lent.{bytes_of};
ghost use Rattle.index.specs.Files.{nodes_in, leaves_in};
ghost use Rattle.index.specs.Layout.{keys_of};
ghost use Rattle.index.specs.Rules.{record_right, part_of};
ghost use Rattle.index_check.specs.Walk.{walk};
ghost use Rattle.index_check.specs.Sound.{begins, tree_sound, verdict, check_of};
ghost use Rattle.index_check.specs.Passes.{follows, leaf_step, pass, Reached, tree_with};

use index::files::Index;
use index::layout::read_part;
use index::lookup::NODES_MOST;
use index::rules::{Child, Leaves, Nodes, Records, child_of};
use terms::key::{below_key, keys_ascend, same_key};
use terms::term::Kind;
use word::bytes::part;
use word::integer::u32_at;

// A rule of the index is broken.
#[derive(Clone, Copy, Debug, PartialEq, Eq)]
pub struct BadIndex;

// The number of this answer.
impl From<BadIndex> for u32 {
    ghost from_gives = { λ _ n. n ≡ 21 };

    fn from(_broken: BadIndex) -> u32 {
        21
    }
}

// How far a walk is after a leaf: where its last key is, and its successor.
#[derive(Clone, Copy)]
struct After {
    key: usize,
    next: u32,
}

// Whether record `n` is in the file and begins with a key.
#[tactic(auto, unfolding(crate::specs::Sound::begins))]
fn begins<const HEAD: usize, const TAIL: usize>(
    records: &Records<HEAD, TAIL>,
    n: u32,
    key: &[u8],
) -> bool
    requires { length key.now ≡ records.now.shape.width }
    ensures { result ≡ begins key.now records.now.file.now records.now.shape n }
{
    records.has(n) && same_key(key, records.first_key(n))
}

// Whether the active keys of record `n` ascend. Each width is named, so that the compiler makes a loop for each.
#[tactic(auto, using(index::proofs::Shapes::right_there))]
fn ascends<const HEAD: usize, const TAIL: usize>(records: &Records<HEAD, TAIL>, n: u32) -> bool
    requires { record_right records.now.file.now records.now.shape n ≡ true }
    ensures { result ≡ ascending (keys_of records.now.file.now records.now.shape n) }
{
    let shape = records.shape;
    let first = shape.key_place(n, 0);
    let count = records.count(n);
    match shape.kind {
        Kind::Short => keys_ascend(records.file, first, 10 + TAIL, 10, count),
        Kind::Long => keys_ascend(records.file, first, 30 + TAIL, 30, count),
    }
}

// Whether leaf `n` may follow the last one, if there is one: it is that one's successor and begins above its last key.
#[tactic(auto, using(index::proofs::Shapes::right_there), unfolding(crate::specs::Passes::follows, crate::specs::Passes::Reached))]
fn follows(leaves: &Leaves, before: Option<After>, n: u32) -> bool
    requires { (record_right leaves.now.file.now leaves.now.shape n ≡ true) × (Reached leaves.now.file.now leaves.now.shape before) }
    ensures { result ≡ follows leaves.now.file.now leaves.now.shape before n }
{
    let Some(last) = before else {
        return true;
    };
    let width = leaves.shape.width();
    last.next == n && below_key(part(leaves.file, last.key, width), leaves.first_key(n))
}

// On over leaf `n`.
#[tactic(auto, using(index::proofs::Shapes::right_there), unfolding(crate::specs::Passes::leaf_step, crate::specs::Passes::leaf_sound, crate::specs::Passes::Reached))]
fn over_leaf(leaves: &Leaves, n: u32, before: Option<After>) -> Result<Option<After>, BadIndex>
    requires { Reached leaves.now.file.now leaves.now.shape before }
    ensures is { result ≡ leaf_step leaves.now.file.now leaves.now.shape n before }
    ensures reached { IfOk result (Reached leaves.now.file.now leaves.now.shape) }
{
    if !leaves.keeps_rules(n) || !follows(leaves, before, n) || !ascends(leaves, n) {
        return Err(BadIndex);
    }
    let last = leaves.count(n) - 1;
    Ok(Some(After {
        key: leaves.shape.key_place(n, last),
        next: leaves.successor(n),
    }))
}

// On over all that the walk from node `n` meets, over at most `left` nodes on one way down.
fn over_node(
    nodes: &Nodes,
    leaves: &Leaves,
    left: u32,
    n: u32,
    before: Option<After>,
) -> Result<Option<After>, BadIndex>
    requires { (nodes.now.shape.width ≡ leaves.now.shape.width) × (Reached leaves.now.file.now leaves.now.shape before) }
    ensures is { result ≡ pass nodes.now.file.now leaves.now.file.now (tree_with nodes.now.shape leaves.now.shape) (walk nodes.now.file.now nodes.now.shape left n) (Ok before) }
    ensures reached { IfOk result (Reached leaves.now.file.now leaves.now.shape) }
{
    if left == 0 || !nodes.keeps_rules(n) || !ascends(nodes, n) {
        return Err(BadIndex);
    }
    // Copied, so that their numbers stay in registers: read through the references, the check takes 15 per cent more instructions.
    let own = Nodes {
        file: nodes.file,
        shape: nodes.shape,
    };
    let met = Leaves {
        file: leaves.file,
        shape: leaves.shape,
    };
    let mut after = before;
    for i in 0..own.count(n) {
        let key = own.key(n, i);
        after = match child_of(own.punt(n, i)) {
            Child::Node(m) if begins(nodes, m, key) => over_node(
                nodes,
                leaves,
                left - 1,
                m,
                after,
            )?,
            Child::Leaf(m) if begins(&met, m, key) => over_leaf(&met, m, after)?,
            _ => return Err(BadIndex),
        };
    }
    Ok(after)
}

// Whether the tree of type `kind` is sound: its walk ends where it may, with a last leaf that has no successor.
fn check_tree(index: &Index, kind: Kind) -> Result<(), BadIndex>
    ensures { result ≡ verdict (tree_sound (nodes_in (bytes_of index.now) kind) (leaves_in (bytes_of index.now) kind) (part_of index.now.cnt.now kind)) }
{
    let tree = read_part(index.cnt, kind).ok_or(BadIndex)?;
    let nodes = Nodes {
        file: index.nodes(kind),
        shape: tree.nodes,
    };
    let leaves = Leaves {
        file: index.leaves(kind),
        shape: tree.leaves,
    };
    match over_node(&nodes, &leaves, NODES_MOST, tree.root, None)? {
        Some(last) => {
            if last.next == 0 {
                Ok(())
            } else {
                Err(BadIndex)
            }
        }
        None => Ok(()),
    }
}

// Checks both trees.
#[tactic(auto, unfolding(crate::specs::Sound::sound_of))]
pub fn check_index(index: &Index) -> Result<(), BadIndex>
    ensures { result ≡ check_of (bytes_of index.now) }
{
    check_tree(index, Kind::Short)?;
    check_tree(index, Kind::Long)
}
