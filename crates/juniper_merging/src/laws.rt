//! What the graph says of the fields that its vertices stand for.

ghost use Rattle.juniper_merging.specs.Standing.{NumbersTell, SetsTell};

/// Numbers that stand for the fields of a selection set tell whether each two of these can be merged (section 5.3.2).
pub fn numbers_tell()
    ensures { NumbersTell }
{}

/// What a search over such numbers answers, that each two fields merge to every depth or not to some, is whether the set
/// merges (section 5.3.2).
pub fn sets_tell()
    ensures { SetsTell }
{}
