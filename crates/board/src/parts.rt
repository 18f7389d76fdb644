// The lent parts of a board as one: who passes on all of them, to write any of them, names them
// once.
use crate::layout::{CellOffsets, Header, Hooks, Records, Registers, Used, Windows};

#[derive(Drop)]
pub struct Board<'a> {
    pub header: &'a mut Header,
    pub records: &'a mut Records,
    pub registers: &'a mut Registers,
    pub windows: &'a mut Windows,
    pub offsets: &'a mut CellOffsets,
    pub hooks: &'a mut Hooks,
    pub used: &'a mut Used,
    pub cells: &'a mut [u8],
}
