ghost use Rattle.client_lines.specs.Laws.{OneReadingIsHad};

/// A line is read in one way: it is empty, asks one command, is refused as one kind with one place, or comes later.
pub fn one_reading_is_had()
    ensures { OneReadingIsHad }
{}
