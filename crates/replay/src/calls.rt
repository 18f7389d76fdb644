// The calls of a trace, one by one: each is read into one room, performed there as the front of a
// script, and printed.
ghost use Rattle.std.specs.Prelude.{◌≡◌, length};

use crate::answers::print_answer;
use crate::forms::print_call;
use crate::stop::Stop;
use board::layout::{FUNCTIONS, HEADER, HOOK, MARK, RECORD, REGISTER_BYTES, WINDOWS};
use board::parts::Board;
use call_encoding::decode::{Decoded, decode};
use call_encoding::encode::CALL_HEADER;
use full_read::read_full;
use script::turn::turn;
use std::io::{Read, Write};

// The longest own buffer of a call in a trace.
const OWN: usize = 65537;

// Room for the header of a call and its own buffer.
type Room = [u8; CALL_HEADER + OWN];

// The room before the first call.
fn empty_room() -> Room
    ensures { 65601 ≡ length result }
{
    [0u8; CALL_HEADER + OWN]
}

// Reads the next call into the room, of a script from whose byte `at` on it stands; none where the
// script ends.
fn read_call<R: Read>(input: &mut R, room: &mut Room, at: u64) -> Result<Option<Decoded>, Stop>
    requires { 65601 ≡ length room.old }
{
    let got = read_full(input, &mut room[..CALL_HEADER])?;
    if got == 0 {
        return Ok(None);
    }
    if got < CALL_HEADER {
        return Err(Stop::Malformed(at));
    }
    let Some(said) = decode(&room[..CALL_HEADER]) else {
        return Err(Stop::Malformed(at));
    };
    let own = said.own as usize;
    if OWN < own {
        return Err(Stop::OwnAbove(at));
    }
    if read_full(input, &mut room[CALL_HEADER..CALL_HEADER + own])? < own {
        return Err(Stop::Malformed(at));
    }
    Ok(Some(said))
}

// Performs and prints the calls up to the end of the input, from the board before the first load;
// gives how many there are. A proved loop has to end, and nothing says that the input does: so it
// counts calls up to a number that no trace reaches.
pub(crate) fn replay<R: Read, W: Write>(
    input: &mut R,
    out: &mut W,
    cells: &mut [u8],
) -> Result<u64, Stop> {
    let mut room = empty_room();
    let mut board = Board {
        header: &mut [0; HEADER],
        records: &mut [0; FUNCTIONS * RECORD],
        registers: &mut [0; FUNCTIONS * REGISTER_BYTES],
        windows: &mut [0; WINDOWS],
        offsets: &mut [0; WINDOWS + 1],
        hooks: &mut [0; HOOK * FUNCTIONS],
        used: &mut [0; MARK * FUNCTIONS],
        cells: cells,
    };
    let mut at: u64 = 0;
    // Invariant: the room and the cells keep their lengths.
    for calls in 0..u64::MAX {
        let Some(Decoded { call, own }) = read_call(input, &mut room, at)? else {
            return Ok(calls);
        };
        let Some(took) = turn(&mut room, &mut board) else {
            return Err(Stop::Malformed(at));
        };
        print_call(out, call, own)?;
        let (answer, left) = room.split_at(CALL_HEADER);
        print_answer(out, call, answer, left)?;
        at = at.wrapping_add(took as u64);
    }
    Ok(u64::MAX)
}
