// The control record. Bytes 20 to 63 are never read, and only format writes them.
ghost use Rattle.std.specs.Prelude.{◌≡◌, true, cond, ◌≤◌, ◌<◌, pos, length};
ghost use Rattle.word.specs.Integer.{u16_at, u32_at};
ghost use Rattle.layout.specs.Sizes.{offset_most, address_limit, mst_permitted};
ghost use Rattle.files.specs.Inner.{offsets_by, control_of};
ghost use Rattle.files.specs.Control.{end_from, numbers_right, end_right_from, control_right_from, old_control_right, with_next, with_end, formatted_mst, migrated_mst, count_of, count_is, count_most, count_full, count_none, with_count, counted_more, counted_less};

use layout::sizes::{Block, Mfn, OFFSET_MOST};
use word::integer::{put_u16, put_u32, u16_at, u32_at};
use word::signed::{i32_at, put_i32};

// The rules for the end's offset in NXTMFP: that of today, which every call reads and writes by, and the old one, which a migration alone
// reads by.
#[derive(Clone, Copy, Debug, PartialEq, Eq)]
enum Rule {
    Today,
    Old,
}

// The number that NXTMFP counts the offset from.
impl From<Rule> for u16 {
    ghost from_gives = { λ rule n. n ≡ offsets_by rule };

    fn from(rule: Rule) -> u16 {
        match rule {
            Rule::Today => 1,
            Rule::Old => 0,
        }
    }
}

// What a right control record says.
#[derive(Clone, Copy, Debug, PartialEq, Eq)]
pub struct Control {
    pub next: Mfn,
    pub end: usize,
}

#[tactic(auto, unfolding(crate::specs::Control::numbers_right, crate::specs::Control::next_of))]
fn numbers_right(mst: &[u8], capacity: usize) -> bool
    requires { 64 ≤ length mst.now }
    ensures { result ≡ numbers_right mst.now capacity }
{
    let next = u32_at(mst, 4) as usize;
    u32_at(mst, 0) == 0 && u16_at(mst, 14) == 0 && 1 <= next && next - 1 <= capacity
}

// The end that the control record gives by a rule; its block counts from 1.
#[tactic(auto, unfolding(crate::specs::Control::end_from))]
fn end_of(mst: &[u8], rule: Rule) -> usize
    requires { (64 ≤ length mst.now) × (1 ≤ u32_at mst.now 8) × (offsets_by rule ≤ u16_at mst.now 12) }
    ensures { result ≡ end_from (offsets_by rule) mst.now }
{
    layout::sizes::address(Block(u32_at(mst, 8)), u16_at(mst, 12) - u16::from(rule))
}

#[tactic(auto, unfolding(crate::specs::Control::end_right_from))]
fn end_right(mst: &[u8], rule: Rule) -> bool
    requires { 64 ≤ length mst.now }
    ensures { result ≡ end_right_from (offsets_by rule) mst.now }
{
    let from = u16::from(rule);
    let stored = u16_at(mst, 12);
    1 <= u32_at(mst, 8)
        && stored % 2 == from % 2
        && stored <= OFFSET_MOST + from
        && (64..=mst.len()).contains(&end_of(mst, rule))
}

// Whether the control record is right by a rule, for a capacity.
#[inline(always)]
#[tactic(auto, using(crate::proofs::Answers::control_short), unfolding(crate::specs::Control::control_right_from))]
fn control_right(mst: &[u8], capacity: usize, rule: Rule) -> bool
    ensures { result ≡ control_right_from (offsets_by rule) mst.now capacity }
{
    64 <= mst.len() && numbers_right(mst, capacity) && end_right(mst, rule)
}

// Reads the control record of an MST, for a capacity.
#[tactic(auto, using(crate::proofs::Answers::reading), unfolding(crate::specs::Inner::control_of, crate::specs::Control::next_of))]
pub fn read_control(mst: &[u8], capacity: usize) -> Option<Control>
    ensures { result ≡ control_of mst.now capacity }
{
    if !control_right(mst, capacity, Rule::Today) {
        return None;
    }
    Some(Control {
        next: Mfn(u32_at(mst, 4)),
        end: end_of(mst, Rule::Today),
    })
}

// Whether the control record is right by the old rule.
pub fn old_control_right(mst: &[u8], capacity: usize) -> bool
    ensures { result ≡ old_control_right mst.now capacity }
{
    control_right(mst, capacity, Rule::Old)
}

// Writes NXTMFN.
#[tactic(auto, unfolding(crate::specs::Control::with_next))]
pub fn put_next(mst: &mut [u8], next: Mfn)
    requires { 64 ≤ length mst.old }
    ensures { mst.new ≡ with_next mst.old next.0 }
{
    put_u32(mst, 4, next.0);
}

// Writes the end.
pub fn put_end(mst: &mut [u8], end: usize)
    requires { (64 ≤ length mst.old) × (end < address_limit) }
    ensures { mst.new ≡ with_end mst.old end }
{
    put_u32(mst, 8, layout::sizes::block_at(end).0);
    put_u16(
        mst,
        12,
        layout::sizes::offset_at(end) + u16::from(Rule::Today),
    );
}

// Empties an MST of permitted length.
pub fn format_mst(mst: &mut [u8])
    requires { mst_permitted (length mst.old) ≡ true }
    ensures { mst.new ≡ formatted_mst (length mst.old) }
{
    mst.fill(0);
    put_next(mst, Mfn(1));
    put_end(mst, 64);
}

// Counts the offset of an end that is right by the old rule from one.
#[tactic(auto, unfolding(crate::specs::Control::migrated_mst))]
pub fn migrate_end(mst: &mut [u8])
    requires { (64 ≤ length mst.old) × (u16_at mst.old 12 ≤ offset_most) }
    ensures { mst.new ≡ migrated_mst mst.old }
{
    let stored = u16_at(mst, 12);
    put_u16(mst, 12, stored + 1);
}

// RECCNT, a signed number.
#[tactic(auto, unfolding(crate::specs::Control::count_of))]
fn count(mst: &[u8]) -> i32
    requires { 64 ≤ length mst.now }
    ensures { result ≡ count_of mst.now }
{
    i32_at(mst, 16)
}

// Whether RECCNT is 2,147,483,647.
#[tactic(auto, using(crate::proofs::Count::full_told))]
pub fn count_full(mst: &[u8]) -> bool
    requires { 64 ≤ length mst.now }
    ensures { result ≡ count_full mst.now }
{
    count(mst) == i32::MAX
}

// Whether RECCNT is 0 or below.
#[tactic(auto, unfolding(crate::specs::Control::count_none))]
pub fn count_none(mst: &[u8]) -> bool
    requires { 64 ≤ length mst.now }
    ensures { result ≡ count_none mst.now }
{
    count(mst) <= 0
}

// Whether RECCNT is `n`.
#[tactic(auto, using(crate::proofs::Count::number_told))]
pub fn count_is(mst: &[u8], n: u32) -> bool
    requires { (64 ≤ length mst.now) × (n ≤ count_most) }
    ensures { result ≡ count_is mst.now n }
{
    count(mst) == n as i32
}

// Writes RECCNT.
#[tactic(auto, using(crate::proofs::Count::number_put))]
pub fn put_count(mst: &mut [u8], n: u32)
    requires { 64 ≤ length mst.old }
    ensures { mst.new ≡ with_count mst.old (pos n) }
{
    put_u32(mst, 16, n);
}

// RECCNT plus 1, where there is one more live record.
#[tactic(auto, using(crate::proofs::Count::more_put))]
pub fn count_more(mst: &mut [u8], one: bool)
    requires { 64 ≤ length mst.old }
    ensures { mst.new ≡ cond one (counted_more mst.old) mst.old }
{
    if one {
        let more = count(mst).wrapping_add(1);
        put_i32(mst, 16, more);
    }
}

// RECCNT minus 1.
#[tactic(auto, using(crate::proofs::Count::less_put))]
pub fn count_less(mst: &mut [u8])
    requires { 64 ≤ length mst.old }
    ensures { mst.new ≡ counted_less mst.old }
{
    let less = count(mst).wrapping_sub(1);
    put_i32(mst, 16, less);
}
