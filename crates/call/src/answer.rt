// The answer of a call, and how it is made of what each function gives: the number 0 and its
// values, or the number of the refusal and zeros.
ghost use Rattle.std.specs.Prelude.{◌≡◌, pos, ◌<◌};
ghost use Rattle.board.specs.Statuses.{refusal_number};
ghost use Rattle.window_listing.specs.Listing.{
  listing_number,
  listing_values,
  listed_space,
  listed_start,
  listed_length,
};
ghost use Rattle.search.specs.Search.{found_number};
ghost use Rattle.interrupt_list.specs.Listing.{chain_number_of, chain_values_of};
ghost use Rattle.call.specs.Answers.{
  answer,
  zeros,
  one,
  of_status,
  of_verdict,
  of_search,
  of_read,
  of_fast_read,
  of_to_cpu,
  of_to_bus,
  of_chain,
  of_used,
};
ghost use Rattle.call.specs.Steps.{handle_found};

use board::address::{BusAddress, CpuAddress};
use board::read::{FastRead, Read, value_of};
use board::status::{CallRefusal, Number, Status, number_of};
use card_used::used::Mark;
use image_refusals::verdict::{Verdict, verdict_number, verdict_place};
use interrupt_array::hooks::Hook;
use window_listing::listing::{Listed, ListedWindow};

// The values of an answer; those that it does not have are 0.
pub type Values = [u64; 6];

// What a call hands back: the number, whether it was refused, and the values. A fast read has no
// number: it is 0, and `refused` is its fault flag.
#[derive(Clone, Copy)]
pub struct Answer {
    pub number: i32,
    pub refused: bool,
    pub values: Values,
}

// The answer with a number and values.
fn with_values(number: i32, values: Values) -> Answer
    ensures { result ≡ answer number values }
{
    Answer {
        number: number,
        refused: number != 0,
        values: values,
    }
}

// With one value.
fn with_value(number: i32, value: u32) -> Answer
    ensures { result ≡ answer number (one value) }
{
    with_values(number, [u64::from(value), 0, 0, 0, 0, 0])
}

// An accepted call's.
fn accepted(values: Values) -> Answer
    ensures { result ≡ answer (pos 0) values }
{
    with_values(Number::SUCCESSFUL.0, values)
}

// A refused call's.
fn refused(refusal: CallRefusal) -> Answer
    ensures { result ≡ answer (refusal_number refusal) zeros }
{
    with_values(refusal.number().0, [0u64; 6])
}

// The answer of a call that gives no values.
pub fn of_status(status: Status) -> Answer
    ensures { result ≡ of_status status }
{
    with_value(number_of(status).0, 0)
}

// The answer of a load or of the writer: its number, and the place that a load returns.
pub fn of_verdict(verdict: Verdict) -> Answer
    ensures { result ≡ of_verdict verdict }
{
    with_value(verdict_number(verdict), verdict_place(verdict))
}

// The answer of a read.
pub fn of_read(read: Read) -> Answer
    ensures { result ≡ of_read read }
{
    with_value(number_of(read).0, value_of(read))
}

// The answers of the conversions.
pub fn of_to_cpu(cpu: Result<CpuAddress, CallRefusal>) -> Answer
    ensures { result ≡ of_to_cpu cpu }
{
    match cpu {
        Ok(address) => with_value(Number::SUCCESSFUL.0, address.number()),
        Err(refusal) => refused(refusal),
    }
}

pub fn of_to_bus(bus: Result<BusAddress, CallRefusal>) -> Answer
    ensures { result ≡ of_to_bus bus }
{
    match bus {
        Ok(address) => with_value(Number::SUCCESSFUL.0, address.number()),
        Err(refusal) => refused(refusal),
    }
}

// The answer of a fast read, which has no number.
pub fn of_fast_read(read: FastRead) -> Answer
    ensures { result ≡ of_fast_read read }
{
    Answer {
        number: 0,
        refused: read.fault,
        values: [u64::from(read.value), 0, 0, 0, 0, 0],
    }
}

// The answer of a search: the number is the handle. Handles are small, so that it fits.
pub(crate) fn of_search(search: Result<u32, CallRefusal>) -> Answer
    requires { handle_found search < 256 }
    ensures { result ≡ of_search (found_number search) }
{
    match search {
        Ok(handle) => Answer {
            number: handle as i32,
            refused: false,
            values: [0u64; 6],
        },
        Err(refusal) => refused(refusal),
    }
}

// The space, the start and the length of a listed window.
fn values_of(window: ListedWindow) -> (u64, u64, u64)
    ensures space { result.0 ≡ listed_space window }
    ensures start { result.1 ≡ listed_start window }
    ensures length { result.2 ≡ listed_length window }
{
    match window {
        ListedWindow::Memory { start, length } => {
            (0, u64::from(start.number()), u64::from(length))
        }
        ListedWindow::Io { start, length } => (1, u64::from(start.number()), u64::from(length)),
    }
}

// The answer of a window listing: space, start, length, handle, base register, and 1 where the
// window is contested.
pub fn of_listing(listing: Result<Listed, CallRefusal>) -> Answer
    ensures { result ≡ answer (listing_number listing) (listing_values listing) }
{
    match listing {
        Ok(listed) => {
            let (space, start, length) = values_of(listed.window);
            accepted([
                space,
                start,
                length,
                u64::from(listed.handle),
                u64::from(listed.base),
                u64::from(listed.contested),
            ])
        }
        Err(refusal) => refused(refusal),
    }
}

// The answer of a chain listing.
pub fn of_chain(listing: Result<Hook, CallRefusal>) -> Answer
    ensures { result ≡ of_chain (chain_number_of listing) (chain_values_of listing) }
{
    match listing {
        Ok(hook) => accepted([
            u64::from(hook.handle),
            u64::from(hook.handler),
            u64::from(hook.parameter),
            0,
            0,
            0,
        ]),
        Err(refusal) => refused(refusal),
    }
}

// The answer with a used mark: its status and call-back address.
pub fn of_used(mark: Result<Mark, CallRefusal>) -> Answer
    ensures { result ≡ of_used mark }
{
    match mark {
        Ok(mark) => accepted([
            u64::from(mark.status),
            u64::from(mark.call_back),
            0,
            0,
            0,
            0,
        ]),
        Err(refusal) => refused(refusal),
    }
}
