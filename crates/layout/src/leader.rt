// The leader of a record: eighteen bytes at its front.
ghost use Rattle.std.specs.Prelude.{◌≡◌, ◌≤◌, length};
ghost use Rattle.word.specs.Overwrite.{overwrite};
ghost use Rattle.layout.specs.Leader.{leader_bytes, leader_of};

use crate::sizes::{Block, Mfn};
use word::integer::{u16_at, u32_at};

#[derive(Clone, Copy, Debug, PartialEq, Eq)]
pub struct Leader {
    pub mfn: Mfn,
    pub mfrl: u16,
    pub mfbwb: Block,
    pub mfbwp: u16,
    pub base: u16,
    pub nvf: u16,
    pub status: u16,
}

// The eighteen bytes of a leader, made as one piece.
#[tactic(auto, unfolding(crate::specs::Leader::leader_bytes))]
fn leader_bytes(l: Leader) -> [u8; 18]
    ensures { result ≡ leader_bytes l }
{
    let [m0, m1, m2, m3] = l.mfn.0.to_le_bytes();
    let [r0, r1] = l.mfrl.to_le_bytes();
    let [b0, b1, b2, b3] = l.mfbwb.0.to_le_bytes();
    let [p0, p1] = l.mfbwp.to_le_bytes();
    let [d0, d1] = l.base.to_le_bytes();
    let [n0, n1] = l.nvf.to_le_bytes();
    let [s0, s1] = l.status.to_le_bytes();
    [
        m0, m1, m2, m3, r0, r1, b0, b1, b2, b3, p0, p1, d0, d1, n0, n1, s0, s1,
    ]
}

// The leader that eighteen bytes hold.
#[tactic(auto, unfolding(crate::specs::Leader::leader_of))]
fn leader_of(b: [u8; 18]) -> Leader
    ensures { result ≡ leader_of b }
{
    Leader {
        mfn: Mfn(u32_at(&b, 0)),
        mfrl: u16_at(&b, 4),
        mfbwb: Block(u32_at(&b, 6)),
        mfbwp: u16_at(&b, 10),
        base: u16_at(&b, 12),
        nvf: u16_at(&b, 14),
        status: u16_at(&b, 16),
    }
}

// The leader at the front of a record.
pub fn read_leader(rec: &[u8]) -> Leader
    requires { 18 ≤ length rec.now }
    ensures { result ≡ leader_of rec.now }
{
    let mut bytes = [0u8; 18];
    bytes.copy_from_slice(&rec[..18]);
    leader_of(bytes)
}

// Writes a leader to the front of a record.
pub fn put_leader(rec: &mut [u8], l: Leader)
    requires { 18 ≤ length rec.old }
    ensures { rec.new ≡ overwrite rec.old 0 (leader_bytes l) }
{
    word::bytes::copy_to(rec, 0, &leader_bytes(l));
}
