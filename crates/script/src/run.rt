// The run of a script, from the board before the first load. Calls and answers share their bytes:
// an answer is written over its call's header and an own buffer is lent where it stands, so that a
// script after its run is its answers, and a run needs no room beside it. The contract says the
// whole run in the reference machine's words, so that demand 3 is a claim about this function.
ghost use Rattle.std.specs.Prelude.{◌≡◌};
ghost use Rattle.board.specs.Parts.{parts_lent, SameLoans};
ghost use Rattle.reference.specs.Run.{start};
ghost use Rattle.script.specs.Script.{ran, run_of};

use crate::turn::turn;
use board::layout::{FUNCTIONS, HEADER, HOOK, MARK, RECORD, REGISTER_BYTES, WINDOWS};
use board::parts::Board;

// The board before the first load; its cells stay.
#[tactic(auto, unfolding(reference::specs::Run::start))]
fn clear(board: &mut Board<'_>)
    ensures loans { SameLoans board.old board.new }
    ensures start { parts_lent board.new ≡ start board.old.cells.now }
{
    *board.header = [0; HEADER];
    *board.records = [0; FUNCTIONS * RECORD];
    *board.registers = [0; FUNCTIONS * REGISTER_BYTES];
    *board.windows = [0; WINDOWS];
    *board.offsets = [0; WINDOWS + 1];
    *board.hooks = [0; HOOK * FUNCTIONS];
    *board.used = [0; MARK * FUNCTIONS];
}

// Performs the calls of a script one after the other, in place. Gives the position of the first
// malformed call, or the script's length where there is none; the bytes from that position on stay
// as they were.
pub fn run(script: &mut [u8], board: &mut Board<'_>) -> usize
    ensures loans { SameLoans board.old board.new }
    ensures run { ran result script.new (parts_lent board.new)
        ≡ run_of script.old board.old.cells.now }
{
    clear(board);
    let mut at = 0;
    // Invariant: the bytes before `at` are done, and the run of the rest makes the whole run.
    while let Some(took) = turn(&mut script[at..], board) {
        at += took;
    }
    at
}
