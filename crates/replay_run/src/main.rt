// Replays the lists of calls in a text and prints what each replay reports: why it stopped and how many calls it ran; of each call the answer,
// the MFN returned, the field shown, the count and the answers listed; and NXTMFN, NXTMFB and NXTMFP afterwards.
//
// It ends with the error of the first read or write that fails.

#![tactic(auto)]

ghost use Rattle.std.specs.Prelude.{◌≤◌, IfOk, length};

use lists::list::Lengths;
use lists::numbers::Numbers;
use lists::parts::front;
use script::lists::Script;
use std::io;
use std::io::Read;

// Replays a list on buffers of 255s and in as much of the two rooms as it says, and prints what the replay reports.
fn replay_calls(rt: &impl Print, n: &Lengths, list: &Script) -> io::Result<()> {
    let mut mst = [255u8; 32768];
    let mut xrf = [255u8; 1024];
    let mut answers = [0u32; 16384];
    let mut shown = [0u8; 16384];
    let m = front(&mut mst, n.mst);
    let x = front(&mut xrf, n.xrf);
    let a = front(&mut answers, n.answers);
    let s = front(&mut shown, n.shown);
    let r = replay::run::replay(m, x, list, a, s);
    printing::print_replayed(rt, r, a, s, m)
}

// Reads and replays the list whose first length was read.
fn replay_list(rt: &impl Print, first: u32, numbers: &mut Numbers) -> io::Result<()>
    ensures { length numbers.new.text.now ≤ length numbers.old.text.now }
{
    let mut ops = [0u32; 8192];
    let mut mfns = [0u32; 16384];
    let mut tags = [0u16; 2048];
    let mut lens = [0u16; 2048];
    let mut bytes = [0u8; 16384];
    let n = Lengths::read(first, numbers);
    let list = Script {
        ops: numbers.read(n.ops, &mut ops),
        mfns: numbers.read(n.mfns, &mut mfns),
        tags: numbers.read(n.tags, &mut tags),
        lens: numbers.read(n.lens, &mut lens),
        bytes: numbers.read(n.bytes, &mut bytes),
    };
    replay_calls(rt, &n, &list)
}

// Every list of a text.
fn replay_lists(rt: &impl Print, text: &[u8]) -> io::Result<()> {
    let mut numbers = Numbers { text };
    while let Some(first) = numbers.next_number() {
        replay_list(rt, first, &mut numbers)?;
    }
    Ok(())
}

// Reads until the buffer is full or the input ends; gives how many bytes were read.
fn read_full<R: Read>(input: &mut R, buf: &mut [u8]) -> io::Result<usize>
    ensures { IfOk result (λ got. got ≤ length buf.new) }
{
    let mut got = 0;
    // A loop: std's copy reads again where a read was interrupted, and this ends at the first read that fails.
    while got < buf.len() {
        let n = input.read(&mut buf[got..])?;
        if n == 0 {
            break;
        }
        got += n;
    }
    Ok(got)
}

fn main(rt: HostRuntime) -> io::Result<()> {
    let mut text = [0u8; 131072];
    let got = read_full(&mut rt.stdin(), &mut text)?;
    replay_lists(&rt, &text[..got])
}
