//! What the definitions promise of groups.
ghost use Rattle.page_group.specs.Laws.{GroupsAreApart, LowerGroupsAreMet, GroupingIsOne, NoGroupIsEmpty, GroupsAreFew};

/// Two pages of one group have no occupied offset in common.
pub fn groups_are_apart()
    ensures { GroupsAreApart }
{}

/// A page has an occupied offset in common with a lower page of each group below its own.
pub fn lower_groups_are_met()
    ensures { LowerGroupsAreMet }
{}

/// Pieces have one grouping.
pub fn grouping_is_one()
    ensures { GroupingIsOne }
{}

/// Each number below the number of groups is the group of a page.
pub fn no_group_is_empty()
    ensures { NoGroupIsEmpty }
{}

/// There are no more groups than pages.
pub fn groups_are_few()
    ensures { GroupsAreFew }
{}
