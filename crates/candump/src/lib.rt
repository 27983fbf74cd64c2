// The numbers of a candump log, each said once: the marks of a line, how many digits its parts have, and why a line stops an import.
#![tactic(auto)]

use std::fmt;

// `(`, `.`, `)`, a blank, `#`, the end of a line, and the digit 0.
pub const OPENS: u8 = 40;

pub const POINT: u8 = 46;

pub const CLOSES: u8 = 41;

pub const BLANK: u8 = 32;

pub const HASH: u8 = 35;

pub const NEWLINE: u8 = 10;

pub const NOUGHT: u8 = 48;

// The digits of microseconds and of an identifier, narrow and wide; a data byte has two.
pub const DECIMALS: usize = 6;

pub const NARROW_DIGITS: usize = 3;

pub const WIDE_DIGITS: usize = 8;

pub const BYTE_DIGITS: usize = 2;

// The bases of the two kinds of digits.
pub const TEN: u64 = 10;

pub const SIXTEEN: u64 = 16;

// A second in microseconds, and the latest start.
pub const SECOND: u64 = 1000000;

pub const LATEST: u64 = 4000000000 * SECOND;

// Why a line stops an import: it is malformed, its name is unknown, its time goes back or lies before the start, it doesn't fit.
#[derive(Clone, Copy)]
pub enum Stop {
    Malformed,
    Unknown,
    GoesBack,
    NoRoom,
}

impl fmt::Display for Stop {
    fn fmt<W: fmt::Write>(&self, f: &mut fmt::Formatter<W>) -> fmt::Result {
        match self {
            Stop::Malformed => {
                write!(
                    f,
                    "malformed, it is not written as (1436509052.249713) can0 044#2A366C2B"
                )
            }
            Stop::Unknown => write!(f, "unknown name, only can0 to can3 are lines"),
            Stop::GoesBack => write!(f, "its time goes back, or lies before the start"),
            Stop::NoRoom => write!(f, "it would take the recording past 32768 bytes"),
        }
    }
}
