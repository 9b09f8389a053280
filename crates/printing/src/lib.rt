// Prints what a replay reports: why it stopped and how many calls it ran; of each call the answer, the MFN returned, the length of the field shown,
// the count, how many answers are listed, then the field and those answers; and NXTMFN, NXTMFB and NXTMFP afterwards.
//
// Each function ends with the error of the first write that fails.

#![tactic(auto)]

use lists::parts::split_front;
use script::report::{Outcome, Replayed, Stop};
use std::io;

// Prints the field of an outcome, behind its numbers.
fn print_field(rt: &impl Print, field: &[u8]) -> io::Result<()> {
    if field.is_empty() {
        return Ok(());
    }
    print!(rt; " ")?;
    rt.write_all(field)
}

// Prints the answers that an outcome lists, and ends the line.
fn print_listed(rt: &impl Print, answers: &[u32]) -> io::Result<()> {
    for answer in answers {
        print!(rt; " {answer}")?;
    }
    println!(rt)
}

// Prints the outcomes of so many calls, one after the other.
fn print_outcomes(rt: &impl Print, calls: usize, answers: &[u32], shown: &[u8]) -> io::Result<()> {
    let mut answers = answers;
    let mut shown = shown;
    for _ in 0..calls {
        let Some((numbers, behind)) = answers.split_first_chunk() else {
            return Ok(());
        };
        let outcome = Outcome::from(*numbers);
        let (listed, next) = split_front(behind, outcome.listed);
        let (field, rest) = split_front(shown, outcome.len);
        print!(rt; "{outcome}")?;
        print_field(rt, field)?;
        print_listed(rt, listed)?;
        answers = next;
        shown = rest;
    }
    Ok(())
}

fn print_control(rt: &impl Print, mst: &[u8]) -> io::Result<()> {
    if mst.len() < 14 {
        return Ok(());
    }
    let mfn = word::integer::u32_at(mst, 4);
    let block = word::integer::u32_at(mst, 8);
    let position = word::integer::u16_at(mst, 12);
    println!(rt; "NXTMFN {mfn} NXTMFB {block} NXTMFP {position}")
}

// Prints what a replay reports. Where a length is not permitted there is no control record.
pub fn print_replayed(
    rt: &impl Print,
    r: Replayed,
    answers: &[u32],
    shown: &[u8],
    mst: &[u8],
) -> io::Result<()> {
    println!(rt; "{} {}", r.stop, r.calls)?;
    print_outcomes(rt, r.calls, answers, shown)?;
    if r.stop == Stop::BadLength {
        return Ok(());
    }
    print_control(rt, mst)
}
