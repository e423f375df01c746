// Laws of the members of types.
ghost use Rattle.type_listing.specs.MemberLaws.{MoreLevelsKeep};

/// The members of a type that are closed within a number of levels of supertypes are the same within more.
pub fn more_levels_keep()
    ensures { MoreLevelsKeep }
{}
