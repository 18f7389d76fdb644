// One call of a script: the step of a run, for a caller that has the calls one by one.
ghost use Rattle.std.specs.Prelude.{◌≡◌};
ghost use Rattle.board.specs.Parts.{parts_lent, SameLoans};
ghost use Rattle.script.specs.Script.{front, turned, turn_of};

use board::parts::Board;
use call_encoding::answer::answer_bytes;
use call_encoding::decode::{Decoded, decode};
use call_encoding::encode::CALL_HEADER;
use dispatch::perform::perform;

// The call at the front of a script, whose own buffer stands there whole.
fn front(script: &[u8]) -> Option<Decoded>
    ensures { result ≡ front script.now }
{
    let (header, rest) = script.split_at_checked(CALL_HEADER)?;
    let said = decode(header)?;
    if rest.len() < said.own as usize {
        return None;
    }
    Some(said)
}

// Performs the call at the front of a script, in place. Gives the bytes that it takes, and none
// where it is malformed.
pub fn turn(script: &mut [u8], board: &mut Board<'_>) -> Option<usize>
    ensures loans { SameLoans board.old board.new }
    ensures turn { turned result script.new (parts_lent board.new)
        ≡ turn_of (parts_lent board.old) script.old }
{
    let Decoded { call, own } = front(script)?;
    let end = CALL_HEADER + own as usize;
    let answer = perform(call, board, &mut script[CALL_HEADER..end]);
    script[..CALL_HEADER].copy_from_slice(&answer_bytes(answer, own));
    Some(end)
}
