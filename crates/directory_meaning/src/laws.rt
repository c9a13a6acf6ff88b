//! Laws of what logs and files show, each the contract of a function that does nothing.

ghost use Rattle.directory_meaning.specs.Laws.{OneBaseIsShown, WhatIsShownIsABase, NothingIsShown, FirstRootIsTold};
ghost use Rattle.directory_meaning.specs.Laws.{DamageIsOne, OtherFilesDoNotCount, WhatIsShownIsNotDamaged};
ghost use Rattle.directory_meaning.specs.Laws.{AnotherEntryIsTold, OldEntriesDoNotCount, KeptIsShown, ToldIsShown};
ghost use Rattle.directory_meaning.specs.Laws.{EntriesGoOnAlike, ShownBegins, FramesAreShort};

/// An image with some files shows at most one base.
pub fn one_base_is_shown()
    ensures { OneBaseIsShown }
{}

/// An image shows nothing but bases.
pub fn what_is_shown_is_a_base()
    ensures { WhatIsShownIsABase }
{}

/// An image that shows a base isn't damaged.
pub fn what_is_shown_is_not_damaged()
    ensures { WhatIsShownIsNotDamaged }
{}

/// Files that the newest root doesn't name change nothing.
pub fn other_files_do_not_count()
    ensures { OtherFilesDoNotCount }
{}

/// An image is damaged in one log, at one place.
pub fn damage_is_one()
    ensures { DamageIsOne }
{}

/// An image without a root shows nothing.
pub fn nothing_is_shown()
    ensures { NothingIsShown }
{}

/// A first root alone tells the empty base.
pub fn first_root_is_told()
    ensures { FirstRootIsTold }
{}

/// Appending the body of a valid entry to the current journal appends the entry to the history.
pub fn another_entry_is_told()
    ensures { AnotherEntryIsTold }
{}

/// Removing entries up to the checkpoint changes nothing.
pub fn old_entries_do_not_count()
    ensures { OldEntriesDoNotCount }
{}

/// An image that may have one more entry shows the history with or without it.
pub fn kept_is_shown()
    ensures { KeptIsShown }
{}

/// An image whose frames and files tell a history shows what a reader sees at its front.
pub fn told_is_shown()
    ensures { ToldIsShown }
{}

/// If a reader sees the same of two histories, it does so after one more entry.
pub fn entries_go_on_alike()
    ensures { EntriesGoOnAlike }
{}

/// A history that begins with what an image shows shows it too.
pub fn shown_begins()
    ensures { ShownBegins }
{}

/// The frame of an entry has fewer than 2^31 bytes.
pub fn frames_are_short()
    ensures { FramesAreShort }
{}
