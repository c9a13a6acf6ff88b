ghost use Rattle.json_text.specs.Laws.{OneTreeIsMeant, RefusedInOneWay, ReadOrRefused, TreesKeepRules, CanonicalTextsAreRead};

/// Bytes are the text of one tree at most.
pub fn one_tree_is_meant()
    ensures { OneTreeIsMeant }
{}

/// Bytes are refused in one way at most.
pub fn refused_in_one_way()
    ensures { RefusedInOneWay }
{}

/// Bytes that are a text aren't refused.
pub fn read_or_refused()
    ensures { ReadOrRefused }
{}

/// A tree that bytes are the text of has distinct names, nests at most 128 deep, and is no larger than the bytes.
pub fn trees_keep_rules()
    ensures { TreesKeepRules }
{}

/// The canonical text of a tree is a text of that tree, so what is written is read again.
pub fn canonical_texts_are_read()
    ensures { CanonicalTextsAreRead }
{}
