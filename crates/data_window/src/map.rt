// What says where a board's windows and their cells are: every data access looks at these lent
// parts, and at no other but the cells.
use board::layout::{CellOffsets, Header, Records, Windows};

#[derive(Clone, Copy)]
pub struct DataMap<'a> {
    pub header: &'a Header,
    pub records: &'a Records,
    pub windows: &'a Windows,
    pub offsets: &'a CellOffsets,
}
