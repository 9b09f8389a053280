// One call of a list: it is run, and what it answers is written down, where there is room.
ghost use Rattle.std.specs.Prelude.{◌≡◌, List, ℕ, ◌+◌, ◌*◌, ◌≤◌, length, IfOk, MatchResult};
ghost use Rattle.layout.specs.Sizes.{mst_most};
ghost use Rattle.drafts.specs.Lent.{lent};
ghost use Rattle.store.specs.Store.{store};
ghost use Rattle.views.specs.Views.{shown};
ghost use Rattle.ledger.specs.StoreRun.{shown_outcome, answer_s};
ghost use Rattle.script.specs.Ops.{call_size, mfns_of, no_draft};
ghost use Rattle.script.specs.Report.{five_of};
ghost use Rattle.script.specs.Cursor.{UsedWithin, DraftWithin, NumbersWithin, RoomWithin, Within};
ghost use Rattle.replay.specs.Calls.{script_of, left_of, reading_call, writing_call};
ghost use Rattle.replay.specs.Turns.{writing_at, settling_at, script_at, IsFirst, IsOver, without_mfn, written, shown_numbers, created_numbers, Wrote, ListFits, ListReported, Ran, Turned};

use drafts::draft::Draft;
use layout::sizes::Mfn;
use record::fields::Span;
use script::calls::{CALL_SIZE, Counts, Op, Reading, Writing};
use script::cursor::Cursor;
use script::lists::Script;
use script::report::{OUTCOME_SIZE, Outcome, Stop};
use store::answer::Refusal;

// Runs a call that only reads, and gives where in the MST its field lies: nowhere, for a check.
#[tactic(auto, using(crate::proofs::Turning::asked_answers, crate::proofs::Turning::short_answers))]
fn ask(mst: &[u8], xrf: &[u8], r: Reading) -> Result<Span, Refusal>
    ensures is { shown_outcome mst.now (shown result) ≡ answer_s (store mst.now xrf.now) (reading_call r) }
    ensures within { IfOk result (λ s. s.start + s.len ≤ length mst.now) }
    ensures short { IfOk result (λ s. s.len ≤ mst_most) }
{
    match r {
        Reading::View {
            mfn,
            tag,
            occurrence,
        } => views::views::view(mst, xrf, mfn, tag, occurrence),
        Reading::Settled {
            mfn,
            tag,
            occurrence,
        } => views::views::view_settled(mst, xrf, mfn, tag, occurrence),
        Reading::Check => {
            soundness::check::check(mst, xrf)?;
            Ok(Span::default())
        }
    }
}

// The numbers of what a call that only reads gives.
#[tactic(auto, unfolding(store::specs::Answer::number_of))]
fn shown_numbers(found: Result<Span, Refusal>) -> Outcome
    requires { IfOk found (λ s. s.len ≤ mst_most) }
    ensures { five_of result ≡ shown_numbers (shown found) }
{
    match found {
        Ok(span) => Outcome {
            len: span.len as u32,
            ..Outcome::default()
        },
        Err(refusal) => Outcome {
            answer: u32::from(refusal),
            count: views::views::occurrences_told(refusal),
            ..Outcome::default()
        },
    }
}

// What a call that returns no MFN gives.
fn without_mfn(done: Result<(), Refusal>) -> Result<Option<Mfn>, Refusal>
    ensures { result ≡ without_mfn done }
{
    done.map(|()| None)
}

// Runs a call that may write, with its draft, and gives the MFN that it returns.
fn write(
    mst: &mut [u8],
    xrf: &mut [u8],
    w: Writing,
    draft: Draft<'_>,
) -> Result<Option<Mfn>, Refusal>
    ensures { Wrote (store mst.old xrf.old) (writing_call (lent draft.entry) w) (written result) (store mst.new xrf.new) }
{
    match w {
        Writing::Format => without_mfn(writing::format::format(mst, xrf)),
        Writing::Create => {
            let mfn = writing::create::create(mst, xrf, draft)?;
            Ok(Some(mfn))
        }
        Writing::Update(m) => without_mfn(updating::changes::update(mst, xrf, m, draft)),
        Writing::Delete(m) => without_mfn(updating::changes::delete(mst, xrf, m)),
        Writing::Settle(m) => without_mfn(writing::settling::settle(mst, xrf, m)),
        Writing::Revert(m) => without_mfn(writing::settling::revert(mst, xrf, m)),
        Writing::Migrate => without_mfn(migrating::migrate::migrate(mst, xrf)),
        Writing::Recount => without_mfn(soundness::check::recount(mst, xrf)),
    }
}

// Runs a call that may write, with so much of a draft at a cursor.
fn write_at(
    mst: &mut [u8],
    xrf: &mut [u8],
    w: Writing,
    list: &Script,
    at: Cursor,
    n: Counts,
) -> Result<Option<Mfn>, Refusal>
    requires { DraftWithin list.now.tags.now list.now.lens.now list.now.bytes.now at n }
    ensures { Wrote (store mst.old xrf.old) (writing_at list.now.tags.now list.now.lens.now list.now.bytes.now at n w) (written result) (store mst.new xrf.new) }
{
    let t = at.used.tags;
    let l = at.used.lens;
    let d = at.used.bytes;
    let draft = Draft {
        tags: &list.tags[t..t + n.tags],
        lens: &list.lens[l..l + n.lens],
        data: &list.bytes[d..d + n.bytes],
    };
    write(mst, xrf, w, draft)
}

// The numbers of what a call that may write gives.
#[tactic(auto, unfolding(store::specs::Answer::number_of))]
fn written_numbers(done: Result<Option<Mfn>, Refusal>) -> Outcome
    ensures { five_of result ≡ created_numbers (written done) }
{
    match done {
        Ok(Some(mfn)) => Outcome {
            mfn: mfn.0,
            ..Outcome::default()
        },
        Ok(None) => Outcome::default(),
        Err(refusal) => Outcome {
            answer: u32::from(refusal),
            ..Outcome::default()
        },
    }
}

// Runs and reports a call that only reads, where there is room.
fn ask_turn(
    mst: &[u8],
    xrf: &[u8],
    r: Reading,
    answers: &mut [u32],
    shown: &mut [u8],
    at: Cursor,
) -> Result<Cursor, Stop>
    requires { RoomWithin answers.old shown.old at }
    ensures { Ran (store mst.now xrf.now) (reading_call r) no_draft answers.old shown.old at result (store mst.now xrf.now) answers.new shown.new }
{
    let i = at.numbers;
    if answers.len() - i < OUTCOME_SIZE {
        return Err(Stop::NoRoom);
    }
    let found = ask(mst, xrf, r);
    let Span { start, len } = found.unwrap_or_default();
    let b = at.shown;
    if shown.len() - b < len {
        return Err(Stop::NoRoom);
    }
    let next = at.moved(Counts::default(), OUTCOME_SIZE, len);
    shown_numbers(found).put(answers, i);
    word::bytes::copy_to(shown, b, &mst[start..start + len]);
    Ok(next)
}

// Runs and reports a call that may write, where there is room.
fn write_turn(
    mst: &mut [u8],
    xrf: &mut [u8],
    w: Writing,
    list: &Script,
    answers: &mut [u32],
    at: Cursor,
    n: Counts,
) -> Result<Cursor, Stop>
    requires draft_within { DraftWithin list.now.tags.now list.now.lens.now list.now.bytes.now at n }
    requires mfns_within { at.used.mfns + n.mfns ≤ length list.now.mfns.now }
    requires numbers_within { NumbersWithin answers.old at }
    ensures { (shown : List ℕ) → Ran (store mst.old xrf.old) (writing_at list.now.tags.now list.now.lens.now list.now.bytes.now at n w) n answers.old shown at result (store mst.new xrf.new) answers.new shown }
{
    let i = at.numbers;
    if answers.len() - i < OUTCOME_SIZE {
        return Err(Stop::NoRoom);
    }
    let next = at.moved(n, OUTCOME_SIZE, 0);
    let done = write_at(mst, xrf, w, list, at, n);
    written_numbers(done).put(answers, i);
    Ok(next)
}

// Settles so many of the MFNs at a cursor as a list, and reports it: the five numbers, and the answers behind them.
fn settle_at(
    mst: &mut [u8],
    xrf: &mut [u8],
    mfns: &[u32],
    n: usize,
    answers: &mut [u32],
    at: Cursor,
)
    requires { ListFits mfns.now n answers.old at }
    ensures { ListReported (store mst.old xrf.old) (settling_at mfns.now at n n) answers.old at (store mst.new xrf.new) answers.new }
{
    let m = at.used.mfns;
    let i = at.numbers;
    let from = i + OUTCOME_SIZE;
    let done = settling::settle_list::settle_list(
        mst,
        xrf,
        &mfns[m..m + n],
        &mut answers[from..from + n],
    );
    let outcome = Outcome {
        answer: store::answer::number(done),
        listed: n as u32,
        ..Outcome::default()
    };
    outcome.put(answers, i);
}

// Settles so many of the MFNs at a cursor and reports it, where there is room. A list for the answers that is not as long as the list of MFNs, or
// over-long, is not lent: the call's own question about the two lengths is asked, and its refusal reported.
fn settle_turn(
    mst: &mut [u8],
    xrf: &mut [u8],
    mfns: &[u32],
    n: usize,
    lent: usize,
    answers: &mut [u32],
    at: Cursor,
) -> Result<Cursor, Stop>
    requires n_in_bounds { at.used.mfns + n ≤ length mfns.now }
    requires numbers_within { NumbersWithin answers.old at }
    ensures { (shown : List ℕ) → Ran (store mst.old xrf.old) (settling_at mfns.now at n lent) (mfns_of n) answers.old shown at result (store mst.new xrf.new) answers.new shown }
{
    let i = at.numbers;
    let room = answers.len() - i;
    if room < OUTCOME_SIZE {
        return Err(Stop::NoRoom);
    }
    let taken = Counts {
        mfns: n,
        ..Counts::default()
    };
    if !settling::settle_list::lists_right(n, lent) {
        let next = at.moved(taken, OUTCOME_SIZE, 0);
        let outcome = Outcome {
            answer: u32::from(Refusal::NoRoomInList),
            ..Outcome::default()
        };
        outcome.put(answers, i);
        return Ok(next);
    }
    if room < OUTCOME_SIZE + n {
        return Err(Stop::NoRoom);
    }
    let next = at.moved(taken, OUTCOME_SIZE + n, 0);
    settle_at(mst, xrf, mfns, n, answers, at);
    Ok(next)
}

// The first call of what is left at a cursor; or why there is none.
fn next_op(list: &Script, at: Cursor) -> Result<Op, Stop>
    requires ops_in { call_size * at.calls ≤ length list.now.ops.now }
    requires used_in { UsedWithin at (left_of (script_of list.now)) }
    ensures { let rest = script_at (script_of list.now) at in
        MatchResult result (IsFirst rest) (IsOver rest) }
{
    let ops = &list.ops[CALL_SIZE * at.calls..];
    if ops.is_empty() {
        return Err(Stop::Ended);
    }
    let Some(numbers) = ops.first_chunk() else {
        return Err(Stop::Malformed);
    };
    Op::read(numbers, at.left(list.counts())).ok_or(Stop::Malformed)
}

// One call: the first of what is left at a cursor.
pub(crate) fn one_turn(
    mst: &mut [u8],
    xrf: &mut [u8],
    list: &Script,
    answers: &mut [u32],
    shown: &mut [u8],
    at: Cursor,
) -> Result<Cursor, Stop>
    requires { Within list.now.ops.now list.now.mfns.now list.now.tags.now list.now.lens.now list.now.bytes.now answers.old shown.old at }
    ensures { Turned (script_at (script_of list.now) at) (store mst.old xrf.old) answers.old shown.old at result (store mst.new xrf.new) answers.new shown.new }
{
    match next_op(list, at)? {
        Op::Asks(r) => ask_turn(mst, xrf, r, answers, shown, at),
        Op::Writes(w, n) => write_turn(mst, xrf, w, list, answers, at, n),
        Op::Settles { mfns: n, lent } => settle_turn(mst, xrf, list.mfns, n, lent, answers, at),
    }
}
