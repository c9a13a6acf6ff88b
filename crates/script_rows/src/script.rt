//! What the lines of a script say.

use crate::cells::bytes_of;
use std::alloc::{AllocError, Global};

/// Where a script begins.
#[derive(Clone, Copy, Debug, PartialEq, Eq)]
pub enum Begin {
    Nowhere,
    Fresh,
    Blank,
    Again,
}

/// Which call of each kind fails, counted from 0, and after how many device calls the disk stops. Device calls are
/// counted after those of the opening.
#[derive(Clone, Copy, Debug)]
pub struct Faults {
    pub read: Option<u64>,
    pub write: Option<u64>,
    pub world: Option<u64>,
    pub device: Option<u64>,
    pub stop: Option<u64>,
}

/// The bytes of a log, by its name.
pub type Log = (String, Vec<u8>);

#[derive(Drop)]
pub struct Script {
    pub begin: Begin,
    pub name: String,
    /// `words /run/d/`: the words of the command line, each between two strokes.
    pub words: Option<String>,
    /// `> LINE` is a line of the client, `>> BYTES` are bytes without a line feed, and `long N` are so many of them.
    pub input: Vec<u8>,
    /// `pieces N`: a read gives at most so many bytes.
    pub piece: usize,
    /// `fails read N`, and so `write`, `world` and `device`; `stops N`.
    pub faults: Faults,
    /// `log NAME HEX`: what a log holds before the run.
    pub logs: Vec<Log>,
    /// `landed N`: so many bytes of each change that isn't sure are there after the run.
    pub landed: u64,
    /// `< LINE`: what the client is told.
    pub told: Vec<u8>,
    /// `prints LINE`, and `status N`.
    pub printed: Vec<u8>,
    pub status: u64,
    /// `leaves NAME HEX`: what a log holds after the run.
    pub leaves: Vec<Log>,
    /// `sweep N LINE`: the disk stops at each device call in turn, and where 0, N, 2N and more bytes of what isn't sure
    /// are there, the reply to this line is that after the lines that were acknowledged, or one more.
    pub sweep: Option<u64>,
    pub question: Vec<u8>,
    /// How many lines are none of these, nor a comment, which begins with `#`.
    pub unread: u64,
}

impl Script {
    /// One without lines.
    pub fn new(alloc: Global) -> Script {
        Script {
            begin: Begin::Nowhere,
            name: String::new(alloc),
            words: None,
            input: Vec::new(alloc),
            piece: 4096,
            faults: no_faults(),
            logs: Vec::new(alloc),
            landed: 0,
            told: Vec::new(alloc),
            printed: Vec::new(alloc),
            status: 0,
            leaves: Vec::new(alloc),
            sweep: None,
            question: Vec::new(alloc),
            unread: 0,
        }
    }

    /// Whether the script says where it begins.
    pub fn begins(&self) -> bool {
        self.begin != Begin::Nowhere
    }

    /// Takes up a line.
    pub fn add(&mut self, alloc: Global, line: &str) -> Result<(), AllocError> {
        let (word, rest) = line.split_once(' ').unwrap_or((line, ""));
        match word {
            "fresh" => self.start(alloc, Begin::Fresh, rest),
            "blank" => self.start(alloc, Begin::Blank, rest),
            "again" => self.start(alloc, Begin::Again, rest),
            ">" => add_line(alloc, &mut self.input, rest),
            ">>" => self.input.extend_from_slice(&bytes_of(alloc, rest)?),
            "<" => add_line(alloc, &mut self.told, rest),
            "prints" => add_line(alloc, &mut self.printed, rest),
            "log" => add_log(alloc, &mut self.logs, rest),
            "leaves" => add_log(alloc, &mut self.leaves, rest),
            _ => self.set(alloc, word, rest),
        }
    }

    fn start(&mut self, alloc: Global, begin: Begin, name: &str) -> Result<(), AllocError> {
        self.begin = begin;
        self.name = String::from_str(alloc, name)?;
        Ok(())
    }

    /// Takes up a line that says a number, the words or the sweep.
    fn set(&mut self, alloc: Global, word: &str, rest: &str) -> Result<(), AllocError> {
        let (first, second) = rest.split_once(' ').unwrap_or((rest, ""));
        let number = first.parse::<u64>().unwrap_or(0);
        match word {
            "words" => self.words = Some(String::from_str(alloc, rest)?),
            "pieces" => self.piece = usize::try_from(number).unwrap_or(1).max(1),
            "fails" => self.faults.fail(first, second.parse::<u64>().ok()),
            "stops" => self.faults.stop = Some(number),
            "landed" => self.landed = number,
            "status" => self.status = number,
            "long" => return add_many(&mut self.input, number),
            "sweep" => {
                self.sweep = Some(number);
                return add_line(alloc, &mut self.question, second);
            }
            "#" => {}
            _ => self.unread = self.unread.saturating_add(1),
        }
        Ok(())
    }
}

impl Faults {
    fn fail(&mut self, kind: &str, call: Option<u64>) {
        match kind {
            "read" => self.read = call,
            "write" => self.write = call,
            "world" => self.world = call,
            _ => self.device = call,
        }
    }
}

/// None of the calls fails.
pub fn no_faults() -> Faults {
    Faults {
        read: None,
        write: None,
        world: None,
        device: None,
        stop: None,
    }
}

/// Appends the bytes of a cell and a line feed.
fn add_line(alloc: Global, out: &mut Vec<u8>, cell: &str) -> Result<(), AllocError> {
    out.extend_from_slice(&bytes_of(alloc, cell)?)?;
    out.extend_from_slice(b"\n")
}

/// Appends so many bytes.
fn add_many(out: &mut Vec<u8>, count: u64) -> Result<(), AllocError> {
    for _ in 0..count {
        out.extend_from_slice(b"x")?;
    }
    Ok(())
}

/// The byte of two hexadecimal digits at the head of some, and those after it.
fn byte_of(digits: &str) -> Option<(u8, &str)> {
    let (head, rest) = digits.split_at_checked(2)?;
    Some((u8::from_str_radix(head, 16).ok()?, rest))
}

/// Appends the log of a cell that has its name and its bytes in hexadecimal digits.
fn add_log(alloc: Global, logs: &mut Vec<Log>, cell: &str) -> Result<(), AllocError> {
    let (name, digits) = cell.split_once(' ').unwrap_or((cell, ""));
    let mut bytes = Vec::new(alloc);
    let mut left = digits;
    for _ in 0..digits.len() {
        let Some((byte, rest)) = byte_of(left) else {
            break;
        };
        bytes.extend_from_slice(&[byte])?;
        left = rest;
    }
    let log = (String::from_str(alloc, name)?, bytes);
    let Ok(()) = logs.push(log) else {
        return Err(AllocError);
    };
    Ok(())
}
