// Why a replay stops before the end of its trace.
use std::{fmt, io};

#[derive(Drop)]
pub(crate) enum Stop {
    // The input could not be read, or the output not be written.
    Io(io::Error),
    NoTrace,
    OtherVersion(u32),
    CellsAbove,
    CellsCut,
    // These two at a byte of the script.
    OwnAbove(u64),
    Malformed(u64),
}

impl From<io::Error> for Stop {
    fn from(error: io::Error) -> Stop {
        Stop::Io(error)
    }
}

impl fmt::Display for Stop {
    fn fmt<W: fmt::Write>(&self, f: &mut fmt::Formatter<W>) -> fmt::Result {
        match self {
            Stop::Io(error) => write!(f, "{error}"),
            Stop::NoTrace => write!(f, "not a trace"),
            Stop::OtherVersion(version) => write!(f, "format version {version} is not known"),
            Stop::CellsAbove => write!(f, "cells above 65536"),
            Stop::CellsCut => write!(f, "cells cut short"),
            Stop::OwnAbove(at) => {
                write!(f, "own buffer above 65537 bytes at byte {at} of the script")
            }
            Stop::Malformed(at) => write!(f, "malformed call at byte {at} of the script"),
        }
    }
}
