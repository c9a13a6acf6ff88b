ghost use Rattle.std.specs.Prelude.{◌≡◌, ◌↔◌, map, string_bytes};
ghost use Rattle.command_words.specs.Asked.{DoNotFit};
ghost use Rattle.db_top.specs.Lending.{IsIdle};
ghost use Rattle.db_top.specs.Runs.{IsRun};

use crate::checking::check_directory;
use crate::making::make_asked;
use crate::reporting::report;
use crate::serving::serve_directory;
use crate::status::Status;
use command_words::{Command, understand};
use disk_model::World;
use std::alloc::Global;

/// All that the program does: `init` makes an empty database in a directory, with the settings that its options give;
/// `run` serves the client without a name with the one that is there; `check` says what that one holds.
pub fn run<R, W: World>(rt: &R, alloc: Global, words: &[String], world: &mut W) -> Status
    requires { IsIdle W.Disk.Disk W.Yard.Yard W.World world.old }
    ensures run { IsRun W.Disk.Disk W.Yard.Yard W.Source.Source W.Sink.Sink W.World
        (map string_bytes words.now) world.old world.new result }
    ensures usage { (result ≡ Status.Usage) ↔ DoNotFit (map string_bytes words.now) }
    ensures idle { IsIdle W.Disk.Disk W.Yard.Yard W.World world.new }
{
    match understand(words) {
        Some(Command::Init(init)) => {
            let status = make_asked(alloc, &init, world);
            report(world, b"made\n", status)
        }
        Some(Command::Check(directory)) => {
            let (line, status) = check_directory(alloc, directory, world);
            report(world, line.as_str().as_bytes(), status)
        }
        Some(Command::Run(directory)) => {
            let status = serve_directory(rt, alloc, directory, world);
            report(world, b"", status)
        }
        None => report(world, b"", Status::Usage),
    }
}
