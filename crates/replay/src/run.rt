// Runs a list of calls on two lent buffers and writes down what each call answers.
ghost use Rattle.store.specs.Store.{store};
ghost use Rattle.replay.specs.Calls.{script_of};
ghost use Rattle.replay.specs.Replay.{Runs, Replays};

use crate::turns;
use script::cursor::Cursor;
use script::lists::Script;
use script::report::{Replayed, Stop};

// Runs a list of calls on two buffers, up to its end, to what is no call, or to the first whose outcome has no room: five numbers in `answers` and
// the answers that it lists, and the bytes shown in `shown`. Where the buffers hold a sound store, the outcomes are THE LEDGER's.
pub fn run(
    mst: &mut [u8],
    xrf: &mut [u8],
    list: &Script,
    answers: &mut [u32],
    shown: &mut [u8],
) -> Replayed
    ensures { Runs (store mst.old xrf.old) (script_of list.now) answers.old shown.old result (store mst.new xrf.new) answers.new shown.new }
{
    let mut at = Cursor::default();
    // A loop, as what a turn needs is what the turn before it left: the cursor, the buffers and the rooms; how many turns there are, it tells.
    loop {
        match turns::one_turn(mst, xrf, list, answers, shown, at) {
            Ok(next) => at = next,
            Err(stop) => {
                return Replayed {
                    stop,
                    calls: at.calls,
                };
            }
        }
    }
}

// Formats two buffers and runs a list of calls on them. The outcomes are THE LEDGER's, for every list.
pub fn replay(
    mst: &mut [u8],
    xrf: &mut [u8],
    list: &Script,
    answers: &mut [u32],
    shown: &mut [u8],
) -> Replayed
    ensures { Replays (store mst.old xrf.old) (script_of list.now) answers.old shown.old result (store mst.new xrf.new) answers.new shown.new }
{
    if writing::format::format(mst, xrf).is_err() {
        return Replayed {
            stop: Stop::BadLength,
            calls: 0,
        };
    };
    run(mst, xrf, list, answers, shown)
}
