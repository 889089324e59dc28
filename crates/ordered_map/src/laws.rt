//! The laws of the tree and of the map.
ghost use Rattle.ordered_map.specs.Laws.{TreeLaws, TrieLaws};
ghost use Rattle.ordered_map.specs.MapLaws.{ChangeLaws, ReadLaws, RuleLaws};

/// What holds in every history of the tree in which only edits of the map begin. It does nothing; a
/// caller learns the laws from its contract.
pub fn laws_hold()
    ensures { TreeLaws }
{}

/// What holds in every history of a trie in which only edits of the map begin. It does nothing; a
/// caller learns the laws from its contract.
pub fn trie_laws_hold()
    ensures { TrieLaws }
{}

/// What the calls of a map do, by its values. It does nothing; a caller learns the laws from its
/// contract.
pub fn map_laws_hold()
    ensures edits { ChangeLaws }
    ensures rules { RuleLaws }
    ensures reads { ReadLaws }
{}
