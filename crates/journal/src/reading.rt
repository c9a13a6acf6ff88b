//! Reading one log.

ghost use Rattle.std.specs.Prelude.{◌≡◌, ◌<◌, [], IfSome, IfOk, IfErr, MatchResult};
ghost use Rattle.disk_model.specs.declared.disk.TheConstants.{LOG_COUNT};
ghost use Rattle.disk_model.specs.Stretches.{OnlyRead};
ghost use Rattle.directory_meaning.specs.Damages.{JournalBreaks, RootLogBreaks};
ghost use Rattle.directory_reading.specs.declared.unread.LogBad.TheVariants.{Fault};
ghost use Rattle.frame_log.specs.Calls.{Blames};
ghost use Rattle.frame_log.specs.FramesRead.{HasRead, IsAtStart, KeepsLength, Moves, log_file};
ghost use Rattle.journal.specs.LogReading.{HasReadEntries, HasReadRoots, IsUnreadLog, NotBegunAs, ReadsOnAs};

use crate::refusal::scan_bad;
use directory_reading::{EntriesRead, LogBad, RootsRead};
use disk_model::Disk;
use frame_log::{FrameReader, Log};
use std::alloc::Global;

// Reads the roots of a root log.
pub(crate) fn read_roots<D: Disk>(
    alloc: Global,
    disk: &mut D,
    file: u8,
) -> Result<(Log, RootsRead), LogBad>
    requires { file < LOG_COUNT }
    ensures found { IfOk result (λ found. HasReadRoots D.Disk file disk.old disk.new found.0 found.1) }
    ensures refused { IfErr result (λ why. IfSome (D.seen disk.old) (λ image.
        IsUnreadLog (RootLogBreaks (image file)) file why)) }
    ensures read { OnlyRead D.Disk disk.old disk.new }
    ensures cause { Blames Fault (D.faults disk.old) (D.faults disk.new) result }
{
    let mut reader = begin(disk, file)?;
    let mut roots = RootsRead::new();
    loop {
        let gate = reader.gate();
        let Some(body) = next_body(alloc, disk, file, &mut reader)? else {
            break;
        };
        roots.take(alloc, file, gate, &body)?;
    }
    Ok((reader.into_log::<D>(), roots))
}

// Reads the entries of a journal.
pub(crate) fn read_entries<D: Disk>(
    alloc: Global,
    disk: &mut D,
    file: u8,
) -> Result<(Log, EntriesRead), LogBad>
    requires { file < LOG_COUNT }
    ensures found { IfOk result (λ found. HasReadEntries D.Disk file disk.old disk.new found.0 found.1) }
    ensures refused { IfErr result (λ why. IfSome (D.seen disk.old) (λ image.
        IsUnreadLog (JournalBreaks (image file)) file why)) }
    ensures read { OnlyRead D.Disk disk.old disk.new }
    ensures cause { Blames Fault (D.faults disk.old) (D.faults disk.new) result }
{
    let mut reader = begin(disk, file)?;
    let mut entries = EntriesRead::new(alloc);
    loop {
        let gate = reader.gate();
        let Some(body) = next_body(alloc, disk, file, &mut reader)? else {
            break;
        };
        entries.take(alloc, file, gate, &body)?;
    }
    Ok((reader.into_log::<D>(), entries))
}

// A reader at the first gate of a log.
fn begin<D: Disk>(disk: &mut D, file: u8) -> Result<FrameReader, LogBad>
    requires { file < LOG_COUNT }
    ensures start { IfOk result (IsAtStart file) }
    ensures first { IfOk result (λ reader. IfSome (D.seen disk.old) (λ image. HasRead reader [] (image file))) }
    ensures refused { IfErr result (λ why. IfSome (D.seen disk.old) (λ image. NotBegunAs (image file) file why)) }
    ensures read { OnlyRead D.Disk disk.old disk.new }
    ensures cause { Blames Fault (D.faults disk.old) (D.faults disk.new) result }
{
    match FrameReader::new(disk, file) {
        Ok(reader) => Ok(reader),
        Err(refusal) => Err(scan_bad(file, refusal)),
    }
}

// The body of the next frame of a log.
fn next_body<D: Disk>(
    alloc: Global,
    disk: &mut D,
    file: u8,
    reader: &mut FrameReader,
) -> Result<Option<Vec<u8>>, LogBad>
    requires length { KeepsLength reader.old (D.seen disk.old) }
    ensures found { IfSome (D.seen disk.old) (λ image.
        ReadsOnAs file reader.old reader.new (image (log_file reader.old)) result) }
    ensures moves { MatchResult result (Moves reader.old reader.new) (λ _. reader.new ≡ reader.old) }
    ensures read { OnlyRead D.Disk disk.old disk.new }
    ensures cause { Blames Fault (D.faults disk.old) (D.faults disk.new) result }
{
    match reader.next(alloc, disk) {
        Ok(body) => Ok(body),
        Err(refusal) => Err(scan_bad(file, refusal)),
    }
}
