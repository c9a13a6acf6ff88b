//! Laws of the versions of a history.
ghost use Rattle.doc_meaning.specs.VersionLaws.{DatabasesHaveVersions, OneVersionPerStamp};

/// A URI and a created stamp determine a version of a well-formed history.
pub fn one_version_per_stamp()
    ensures { OneVersionPerStamp }
{}

/// What a database of a history has is a version of the history, under its own URI.
pub fn databases_have_versions()
    ensures { DatabasesHaveVersions }
{}
