//! Laws of trees: the contract of a function that does nothing.
ghost use Rattle.host_trees.specs.{ChoiceLaws.{TreesChooseAlike, TreesHaveTheSameFragments, TreesNameAlike, TreesResolveAlike, TreesShowTheSameNames}, CrossingLaws.{HostsWithoutPlacesHaveNoneCrossed, OneStoreTellsAll, WithoutAHostNoneIsCrossed}, PartLaws.{FilesCount, LinksCount, LinksToThemselvesArePassedOver, OwnNamesDecide, PassedOverAtPaths}, TreeLaws.{AllPathsStand, HostsWithoutPlacesHaveTheFleetsTree, OneOfBothStands, OneTree, OwnContentsGoFirst, OwnContentsStand, VisibleContentsDecide, WhatIsPassedOverHidesNothing, WithoutAHostTheFleets}};

/// A host has one tree, and what is visible at its own places and at the fleet's decides it. Without a host it is what is
/// visible of the fleet, and so it is for a host at whose places nothing is visible. Each path at which either shows
/// something is in it, with one of the two: the host's own, unless that is passed over and the fleet's isn't.
pub fn tree_laws()
    ensures one { OneTree }
    ensures decided { VisibleContentsDecide }
    ensures fleets { WithoutAHostTheFleets }
    ensures without_places { HostsWithoutPlacesHaveTheFleetsTree }
    ensures paths { AllPathsStand }
    ensures either { OneOfBothStands }
    ensures own { OwnContentsStand }
    ensures passed_over { WhatIsPassedOverHidesNothing }
    ensures first { OwnContentsGoFirst }
{}

/// What is passed over in the parts that paths play. Under a unit's own name it is a link that leads to that name or to
/// its template, whatever name is looked for; among drop-ins it is a link to anything but `/dev/null`; among links it is
/// a file. In other parts everything counts. A visible content is passed over at a path just where it is one of these in
/// the part that the path plays.
pub fn part_laws()
    ensures names { OwnNamesDecide }
    ensures themselves { LinksToThemselvesArePassedOver }
    ensures files { FilesCount }
    ensures links { LinksCount }
    ensures passed_over { PassedOverAtPaths }
{}

/// What a store that shows just a host's tree at the fleet's places gives without a host. Each unit name is chosen and
/// resolves as it does for the host: only the scope of a fragment's place differs, and the fragment has the same content.
/// So each unit has the same names. The same names are visible too.
pub fn choice_laws()
    ensures choices { TreesChooseAlike }
    ensures resolutions { TreesResolveAlike }
    ensures names { TreesNameAlike }
    ensures shown { TreesShowTheSameNames }
    ensures fragments { TreesHaveTheSameFragments }
{}

/// Without a host no unit is crossed, nor is any for a host at whose places nothing is visible. One store that shows just
/// the tree tells of all such stores.
pub fn crossing_laws()
    ensures fleets { WithoutAHostNoneIsCrossed }
    ensures without_places { HostsWithoutPlacesHaveNoneCrossed }
    ensures one { OneStoreTellsAll }
{}
