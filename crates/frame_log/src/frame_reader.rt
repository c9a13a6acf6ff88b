//! A reader of a log's frames.

ghost use Rattle.std.specs.Prelude.{◌≡◌, ◌<◌, ◌≤◌, ◌^◌, [], IfSome, IfOk, IfErr, MatchResult};
ghost use Rattle.disk_model.specs.declared.disk.TheConstants.{LOG_COUNT};

use crate::log::Log;
use crate::next_frame::next_body;
use crate::refusal::ScanRefusal;
use disk_model::Disk;
use std::alloc::Global;

/// Reads the frames of a log one after the other: its number on the disk, its length, and the place of the gate behind
/// the frames that were read.
#[derive(Debug, Drop)]
pub struct FrameReader {
    file: u8,
    len: u64,
    gate: u64,
    ghost is_file: { file < LOG_COUNT },
    ghost short: { len ≤ 2 ^ 62 },
    ghost inside: { gate < len },
}

impl FrameReader {
    ghost use Rattle.disk_model.specs.Stretches.{OnlyRead};
    ghost use Rattle.frame_log.specs.Calls.{Blames};
    ghost use Rattle.frame_log.specs.LogStates.{file_of, end_of, IsUp};
    ghost use Rattle.frame_log.specs.FramesRead.{log_file, next_gate, KeepsLength, IsAtStart, HasRead, NotBegun};
    ghost use Rattle.frame_log.specs.FramesRead.{Moves, ReadsOn, OpensRead};
    ghost use Rattle.frame_log.specs.declared.refusal.ScanRefusal.TheVariants.{Fault};

    /// A reader at the first gate of a log. A log without a byte is damaged at place 0.
    ///
    /// It asks the disk for the length of the log, and takes no memory.
    pub fn new<D: Disk>(disk: &mut D, file: u8) -> Result<FrameReader, ScanRefusal>
        requires { file < LOG_COUNT }
        ensures start { IfOk result (IsAtStart file) }
        ensures first { IfOk result (λ reader. IfSome (D.seen disk.old) (λ image. HasRead reader [] (image file))) }
        ensures refused { IfErr result (λ refusal. IfSome (D.seen disk.old) (λ image.
            NotBegun (image file) refusal)) }
        ensures read { OnlyRead D.Disk disk.old disk.new }
        ensures cause { Blames Fault (D.faults disk.old) (D.faults disk.new) result }
    {
        let len = disk.len(file)?;
        if len == 0 {
            return Err(ScanRefusal::Damaged { place: 0 });
        }
        Ok(FrameReader { file, len, gate: 0 })
    }

    /// The place of the gate behind the frames that were read.
    pub fn gate(&self) -> u64
        ensures place { result ≡ next_gate self.now }
        ensures early { result < 2 ^ 62 }
    {
        self.gate
    }

    /// The body of the frame behind the next gate, or none where that is closed. After an error, and where there is
    /// none, the reader is where it was.
    ///
    /// It costs three reads, more where the disk reads short, and memory for the body; one read at a closed gate.
    pub fn next<D: Disk>(
        &mut self,
        alloc: Global,
        disk: &mut D,
    ) -> Result<Option<Vec<u8>>, ScanRefusal>
        requires { KeepsLength self.old (D.seen disk.old) }
        ensures found { IfSome (D.seen disk.old) (λ image.
            ReadsOn self.old self.new (image (log_file self.old)) result) }
        ensures moves { MatchResult result (Moves self.old self.new) (λ _. self.new ≡ self.old) }
        ensures read { OnlyRead D.Disk disk.old disk.new }
        ensures cause { Blames Fault (D.faults disk.old) (D.faults disk.new) result }
    {
        let Some(body) = next_body(alloc, disk, self.file, self.len, self.gate)? else {
            return Ok(None);
        };
        self.gate += 9 + body.len() as u64;
        Ok(Some(body))
    }

    /// The log that ends at the next gate. It has the frames that were read, if the gate is closed.
    pub fn into_log<D: Disk>(self) -> Log
        ensures place { (file_of result ≡ log_file self) × (end_of result ≡ next_gate self) }
        ensures up { IsUp result }
        ensures opens { OpensRead D.Disk self result }
    {
        Log::ending(self.file, self.gate)
    }
}
