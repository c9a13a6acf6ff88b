//! Reading a log's frames.

ghost use Rattle.std.specs.Prelude.{◌<◌, IfSome, IfOk};
ghost use Rattle.disk_model.specs.declared.disk.TheConstants.{LOG_COUNT};
ghost use Rattle.disk_model.specs.Stretches.{OnlyRead};
ghost use Rattle.frame_log.specs.Calls.{Blames};
ghost use Rattle.frame_log.specs.Scanned.{Scans, Opens, bodies_of};
ghost use Rattle.frame_log.specs.declared.refusal.ScanRefusal.TheVariants.{Fault};

use crate::frame_reader::FrameReader;
use crate::log::Log;
use crate::refusal::ScanRefusal;
use disk_model::Disk;
use std::alloc::Global;

/// Reads the frames of a log. Returns the log, ready to append behind them, and the bodies. What is behind its closed
/// gate isn't read.
///
/// It costs three reads a frame, more where the disk reads short, and memory for the bodies.
pub fn scan<D: Disk>(
    alloc: Global,
    disk: &mut D,
    file: u8,
) -> Result<(Log, Vec<Vec<u8>>), ScanRefusal>
    requires { file < LOG_COUNT }
    ensures answer { IfSome (D.seen disk.old) (λ image. Scans (image file) result) }
    ensures log { IfOk result (λ found. Opens D.Disk file disk.old disk.new found.0 (bodies_of found.1)) }
    ensures read { OnlyRead D.Disk disk.old disk.new }
    ensures cause { Blames Fault (D.faults disk.old) (D.faults disk.new) result }
{
    let mut reader = FrameReader::new(disk, file)?;
    let mut bodies = Vec::new(alloc);
    'frames: while let Some(body) = reader.next(alloc, disk)? {
        bodies.push(body)?;
    }
    Ok((reader.into_log::<D>(), bodies))
}
