// The lookup of a term: the way down through the nodes, and the search in the leaf.
ghost use Rattle.std.specs.Prelude.{◌≡◌, true, ◌≤◌, length};
ghost use Rattle.terms.specs.Term.{width_of};
ghost use Rattle.index.specs.Inner.{way_end};
ghost use Rattle.index.specs.Layout.{nodes_most};
ghost use Rattle.index.specs.Lent.{bytes_of};
ghost use Rattle.index.specs.Lookup.{refusal_of, entries_of, first_equal, leaf_answer, punt_for, lookup_in, lookup_of};
ghost use Rattle.index.specs.Rules.{record_right};

use crate::files::Index;
use crate::layout::read_part;
use crate::rules::{Child, Leaves, Nodes, child_of};
use terms::key::{below_key, same_key};
use terms::term::{Kind, SPACE, TERM_MOST, kind_for, term_right};
use word::bytes::{copy_to, part};
use word::integer::u32_at;

// The most nodes on one way down.
pub const NODES_MOST: u32 = 16;

// Where the postings of a key begin in the IFP: block and word, as their 32 bits.
#[derive(Clone, Copy, Debug, PartialEq, Eq)]
pub struct Place {
    pub block: u32,
    pub word: u32,
}

// Why a lookup finds nothing: the term may not be looked up, a rule is broken on its way, or no key is equal.
#[derive(Clone, Copy, Debug, PartialEq, Eq)]
pub enum Refusal {
    BadTerm,
    BadIndex,
    NoTerm,
}

// Its number.
impl From<Refusal> for u32 {
    ghost from_gives = { λ refusal n. n ≡ refusal_of refusal };

    fn from(refusal: Refusal) -> u32 {
        match refusal {
            Refusal::BadTerm => 20,
            Refusal::BadIndex => 21,
            Refusal::NoTerm => 22,
        }
    }
}

// The first equal key of leaf `n`, which keeps its rules.
#[tactic(auto, using(crate::proofs::Shapes::right_there, crate::proofs::Finding::equal_done, crate::proofs::Finding::equal_here, crate::proofs::Finding::equal_more))]
fn first_equal(leaves: &Leaves, key: &[u8], n: u32) -> Result<Place, Refusal>
    requires { (record_right leaves.now.file.now leaves.now.shape n ≡ true) × (length key.now ≡ leaves.now.shape.width) }
    ensures { result ≡ first_equal key.now (entries_of leaves.now.file.now leaves.now.shape n) }
{
    for i in 0..leaves.count(n) {
        if same_key(key, leaves.key(n, i)) {
            let at = leaves.behind_key(n, i);
            return Ok(Place {
                block: u32_at(leaves.file, at),
                word: u32_at(leaves.file, at + 4),
            });
        }
    }
    Err(Refusal::NoTerm)
}

// What leaf `n` answers.
#[tactic(auto, unfolding(crate::specs::Lookup::leaf_answer))]
fn leaf_answer(leaves: &Leaves, key: &[u8], n: u32) -> Result<Place, Refusal>
    requires { length key.now ≡ leaves.now.shape.width }
    ensures { result ≡ leaf_answer leaves.now.file.now leaves.now.shape key.now n }
{
    if !leaves.keeps_rules(n) {
        return Err(Refusal::BadIndex);
    }
    first_equal(leaves, key, n)
}

// PUNT of the last active key of node `n` that is not above the term; none where every key is.
#[tactic(auto, using(crate::proofs::Shapes::right_there, crate::proofs::Finding::last_none, crate::proofs::Finding::last_here, crate::proofs::Finding::last_more))]
fn last_punt(nodes: &Nodes, key: &[u8], n: u32) -> Option<u32>
    requires { (record_right nodes.now.file.now nodes.now.shape n ≡ true) × (length key.now ≡ nodes.now.shape.width) }
    ensures { result ≡ punt_for nodes.now.file.now nodes.now.shape key.now n }
{
    for i in (0..nodes.count(n)).rev() {
        if !below_key(key, nodes.key(n, i)) {
            return Some(nodes.punt(n, i));
        }
    }
    None
}

// Where the way from node `n` ends, over at most `left` nodes: the leaf that it leads to, or why it leads to none. That stands in `end`, whose place is handed on
// from node to node, so that the compiler makes a loop of the recursion: a `Result` given back would take stack for each node again.
#[tactic(auto, using(crate::proofs::Shapes::node_record, crate::proofs::Finding::way_none, crate::proofs::Finding::way_broken, crate::proofs::Finding::way_absent, crate::proofs::Finding::way_leaf, crate::proofs::Finding::way_node))]
fn leaf_for(nodes: &Nodes, key: &[u8], left: u32, n: u32, end: &mut Result<u32, Refusal>)
    requires { length key.now ≡ nodes.now.shape.width }
    ensures { end.new ≡ way_end nodes.now.file.now nodes.now.shape key.now left n }
{
    if left == 0 || !nodes.keeps_node_rules(n) {
        *end = Err(Refusal::BadIndex);
        return;
    }
    let Some(punt) = last_punt(nodes, key, n) else {
        *end = Err(Refusal::NoTerm);
        return;
    };
    match child_of(punt) {
        Child::Node(next) => leaf_for(nodes, key, left - 1, next, end),
        Child::Leaf(leaf) => *end = Ok(leaf),
    }
}

// A term that is no longer than the keys of the tree of type `kind`, in that tree.
#[tactic(auto, unfolding(crate::specs::Lookup::lookup_in))]
fn lookup_in(index: &Index, kind: Kind, term: &[u8]) -> Result<Place, Refusal>
    requires { length term.now ≤ width_of kind }
    ensures { result ≡ lookup_in (bytes_of index.now) kind term.now }
{
    let tree = read_part(index.cnt, kind).ok_or(Refusal::BadIndex)?;
    let nodes = Nodes {
        file: index.nodes(kind),
        shape: tree.nodes,
    };
    let leaves = Leaves {
        file: index.leaves(kind),
        shape: tree.leaves,
    };
    let mut padded = [SPACE; TERM_MOST];
    copy_to(&mut padded, 0, term);
    let key = part(&padded, 0, kind.width());
    let mut end = Err(Refusal::BadIndex);
    leaf_for(&nodes, key, NODES_MOST, tree.root, &mut end);
    let leaf = end?;
    leaf_answer(&leaves, key, leaf)
}

// Looks a term up: block and word of the first equal key, or 20, 21 or 22.
#[tactic(auto, using(terms::proofs::Padding::kind_fits), unfolding(crate::specs::Lookup::lookup_of))]
pub fn lookup(index: &Index, term: &[u8]) -> Result<Place, Refusal>
    ensures { result ≡ lookup_of (bytes_of index.now) term.now }
{
    if !term_right(term) {
        return Err(Refusal::BadTerm);
    }
    lookup_in(index, kind_for(term), term)
}
