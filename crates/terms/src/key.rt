// Keys in lent slices, compared as unsigned bytes. Eight bytes at a time are compared as one number, whose order is theirs.
ghost use Rattle.std.specs.Prelude.{◌≡◌, ◌+◌, ◌*◌, ◌≤◌, eqb, length, ltb};
ghost use Rattle.word.specs.Overwrite.{part};
ghost use Rattle.terms.specs.Key.{same, below, ascending};
ghost use Rattle.terms.specs.Inner.{big, keys_run};

use word::bytes::part;
use word::integer::u64_at;

// The number whose digits are the 8 bytes at `at`, the first the highest.
#[tactic(auto, using(crate::proofs::Chunks::big_part))]
fn eight(s: &[u8], at: usize) -> u64
    requires { at + 8 ≤ length s.now }
    ensures { result ≡ big (part s.now at 8) }
{
    u64_at(s, at).swap_bytes()
}

// The two numbers that decide between keys that agree in their first 8 bytes: those of the first 8 bytes that differ, 8 at a time; or else of the last 8, which may
// begin among those known to agree.
fn deciding(a: &[u8], b: &[u8]) -> (u64, u64)
    requires { (8 ≤ length a.now) × (length b.now ≡ length a.now) × (part a.now 0 8 ≡ part b.now 0 8) }
    ensures equal { eqb result.0 result.1 ≡ same a.now b.now }
    ensures less { ltb result.0 result.1 ≡ below a.now b.now }
{
    for i in 1..a.len() / 8 {
        let x = eight(a, 8 * i);
        let y = eight(b, 8 * i);
        if x != y {
            return (x, y);
        }
    }
    (eight(a, a.len() - 8), eight(b, b.len() - 8))
}

// Whether two keys are the same. Most keys differ in their first 8 bytes.
pub fn same_key(a: &[u8], b: &[u8]) -> bool
    requires { (8 ≤ length a.now) × (length b.now ≡ length a.now) }
    ensures { result ≡ same a.now b.now }
{
    if eight(a, 0) != eight(b, 0) {
        return false;
    }
    let (x, y) = deciding(a, b);
    x == y
}

// Whether the key `a`, whose first 8 bytes are the digits of `x`, comes before `b`, whose are those of `y`.
fn below_by(a: &[u8], x: u64, b: &[u8], y: u64) -> bool
    requires { (8 ≤ length a.now) × (length b.now ≡ length a.now) × (x ≡ big (part a.now 0 8)) × (y ≡ big (part b.now 0 8)) }
    ensures { result ≡ below a.now b.now }
{
    if x < y {
        return true;
    }
    if y < x {
        return false;
    }
    let (x, y) = deciding(a, b);
    x < y
}

// Whether the key `a` comes before `b`.
pub fn below_key(a: &[u8], b: &[u8]) -> bool
    requires { (8 ≤ length a.now) × (length b.now ≡ length a.now) }
    ensures { result ≡ below a.now b.now }
{
    below_by(a, eight(a, 0), b, eight(b, 0))
}

// Whether `count` keys ascend strictly, of which the first is at `at` and each next one `step` bytes further. The first 8 bytes of a key are read once.
pub fn keys_ascend(file: &[u8], at: usize, step: usize, width: usize, count: usize) -> bool
    requires { (8 ≤ width) × (width ≤ step) × (1 ≤ count) × (at + count * step ≤ length file.now) }
    ensures { result ≡ ascending (keys_run file.now at step width count) }
{
    let mut key = at;
    let mut x = eight(file, at);
    for i in 1..count {
        let next = at + i * step;
        let y = eight(file, next);
        if !below_by(part(file, key, width), x, part(file, next, width), y) {
            return false;
        }
        key = next;
        x = y;
    }
    true
}
