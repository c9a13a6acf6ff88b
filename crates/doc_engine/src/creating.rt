//! Making a directory.

ghost use Rattle.std.specs.Prelude.{◌≡◌};
ghost use Rattle.doc_meaning.specs.History.{settings_of};
ghost use Rattle.doc_model.specs.Settings.{HasShortNames};

use crate::engine::Engine;
use crate::found::Found;
use crate::refusal::{OpenRefused, OpenWhy};
use disk_model::{Disk, Yard};
use doc_model::Settings;
use journal::make;
use std::alloc::Global;

impl<D: Disk, Y: Yard> Engine<D, Y> {
    ghost use Rattle.doc_engine.specs.Opening.{AnswersCreate, CreateKeepsShown, OpenCountsFaults, yard_after};

    /// Makes an empty database of these settings in a directory whose root logs have no root, whatever else it holds.
    pub fn create(
        alloc: Global,
        mut disk: D,
        yard: Y,
        settings: Settings,
    ) -> Result<Engine<D, Y>, OpenRefused<D, Y>>
        requires { HasShortNames settings }
        ensures answers { AnswersCreate (settings_of settings) disk result }
        ensures images { CreateKeepsShown (settings_of settings) disk result }
        ensures yard { yard_after result ≡ yard }
        ensures later { OpenCountsFaults disk result }
    {
        match make(alloc, &mut disk, &settings) {
            Ok(journal) => Ok(Engine::holding(
                alloc,
                disk,
                yard,
                Found::new(alloc, journal, settings),
            )),
            Err(refusal) => Err(OpenRefused {
                disk,
                yard,
                why: OpenWhy::from(refusal),
            }),
        }
    }
}
