// The cross-reference file: where an MFN's entry stands, the entry itself, and the first integer of each block.
ghost use Rattle.std.specs.Prelude.{◌≡◌, true, ◌+◌, ◌*◌, ◌/◌, ◌≤◌, length};
ghost use Rattle.layout.specs.Sizes.{mst_blocks, xrf_blocks, xrf_most, offset_most, capacity_of, xrf_permitted};
ghost use Rattle.files.specs.CrossReference.{xrf_block, slot_at, head_bits, head_right, entry_at, slot_free, with_entry, with_heads, formatted_xrf};

use layout::entry::{Entry, Place};
use layout::sizes::Mfn;
use word::integer::{put_u32, u32_at};
use word::signed::{i32_at, put_i32};

// Where the entry of `m` begins.
fn slot_at(m: Mfn) -> usize
    requires { 1 ≤ m.0 }
    ensures { result ≡ slot_at m.0 }
{
    let k = m.0 as usize - 1;
    k / 127 * 512 + 4 + k % 127 * 4
}

// The XRF block that the entry of `m` stands in.
pub fn xrf_block(m: Mfn) -> usize
    requires { 1 ≤ m.0 }
    ensures { result ≡ xrf_block m.0 }
{
    (m.0 as usize - 1) / 127 + 1
}

// The first integer of block `k` of `n`, as 32 bits.
#[tactic(auto, unfolding(crate::specs::CrossReference::head_bits))]
fn head_bits(n: usize, k: usize) -> u32
    requires { (1 ≤ k) × (k ≤ xrf_blocks) }
    ensures { result ≡ head_bits n k }
{
    let number = k as u32;
    if k == n {
        number.wrapping_neg()
    } else {
        number
    }
}

// Whether the first integer of block `k` is right.
#[tactic(auto, unfolding(crate::specs::CrossReference::head_right))]
pub fn head_right(xrf: &[u8], k: usize) -> bool
    requires { (1 ≤ k) × (k * 512 ≤ length xrf.now) × (k ≤ xrf_blocks) }
    ensures { result ≡ head_right xrf.now k }
{
    u32_at(xrf, (k - 1) * 512) == head_bits(xrf.len() / 512, k)
}

// The entry of `m`, with the end known.
#[tactic(auto, unfolding(crate::specs::CrossReference::entry_at))]
pub fn entry_at(xrf: &[u8], end: usize, m: Mfn) -> Entry
    requires { (1 ≤ m.0) × (m.0 ≤ capacity_of (length xrf.now)) × (length xrf.now ≤ xrf_most) }
    ensures { result ≡ entry_at xrf.now end m.0 }
{
    if !head_right(xrf, xrf_block(m)) {
        return Entry::Malformed;
    }
    layout::entry::decode(end, i32_at(xrf, slot_at(m)))
}

// Whether the slot of `m` holds 0.
#[tactic(auto, unfolding(crate::specs::CrossReference::slot_free))]
pub fn slot_free(xrf: &[u8], m: Mfn) -> bool
    requires { (1 ≤ m.0) × (m.0 ≤ capacity_of (length xrf.now)) }
    ensures { result ≡ slot_free xrf.now m.0 }
{
    u32_at(xrf, slot_at(m)) == 0
}

// Makes `p` the entry of `m`.
#[tactic(auto, unfolding(crate::specs::CrossReference::with_entry))]
pub fn put_entry(xrf: &mut [u8], m: Mfn, p: Place)
    requires le_m { (1 ≤ m.0) × (m.0 ≤ capacity_of (length xrf.old)) }
    requires le_block { (1 ≤ p.block.0) × (p.block.0 ≤ mst_blocks) × (p.offset ≤ offset_most) }
    ensures { xrf.new ≡ with_entry xrf.old m.0 p }
{
    put_i32(xrf, slot_at(m), layout::entry::encode(p));
}

// Writes the first integer of every block.
fn put_heads(xrf: &mut [u8])
    requires { xrf_permitted (length xrf.old) ≡ true }
    ensures { xrf.new ≡ with_heads (length xrf.old / 512) (length xrf.old / 512) xrf.old }
{
    let n = xrf.len() / 512;
    for k in 0..n {
        put_u32(xrf, k * 512, head_bits(n, k + 1));
    }
}

// Empties an XRF of permitted length.
pub fn format_xrf(xrf: &mut [u8])
    requires { xrf_permitted (length xrf.old) ≡ true }
    ensures { xrf.new ≡ formatted_xrf (length xrf.old) }
{
    xrf.fill(0);
    put_heads(xrf);
}
