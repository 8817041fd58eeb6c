//! Laws of choices, aliases and main names: the contract of a function that does nothing.
ghost use Rattle.fragment_choice.specs.{LinkTargetLaws.{LinkTargetsDecide, LinkTargetsShow, OwnWordsDecide, ViewsDecideLinkTargets}, ChoiceLaws.{LeastLevelChooses, TemplatesComeLast, MasksHide, OwnPathsDecide}, LeadsLaws.{LeadsAndChoiceDecide, LeadsDecideMains}, UndefinedLaws.{UndefinedIsNotFound}, LinkLaws.{AliasesHaveLinks, InstancesKeepTheirPart}, LinkCaseLaws.{KindsMakeBad, ShapesMakeBad, TargetsMakeBad, NoLinkIsALoop, GoodLinksMakeAliases}, LikenessLaws.{AliasesAreAlike, MainsAreAlike}, ResolutionLaws.{ChoicesDecide, FollowingFindsTheEnd, MainsAreTheirOwn, NoAliasStands}, FragmentLaws.{FragmentsAreFiles, FragmentsAreOwn, FragmentsHaveNoFolder}, HostLaws.{ChoicesAreTheFleets, HostsWithoutPlacesChooseAlike, HostsWithoutPlacesResolveAlike}, PlaceChoiceLaws.{FirstFilesAreFragments, OtherHostsDontCount}, UnitNameLaws.{MainsDecide, OneListOfNames}};

/// The least level that says anything chooses, and where the name's own path says nothing, its template's does so. A mask
/// hides what comes after it. What is visible at the paths of the name and of its template decides. A name is not found
/// just where all that is visible of both is passed over. A link is bad by its kind, its shape or its target; others that
/// aren't passed over make an alias, of the same kind and shape as the name. A host at whose places nothing is visible has
/// the choices that are made without one, and those are the fleet's alone.
pub fn choice_laws()
    ensures least { LeastLevelChooses }
    ensures first { FirstFilesAreFragments }
    ensures templates { TemplatesComeLast }
    ensures masks { MasksHide }
    ensures paths { OwnPathsDecide }
    ensures undefined { UndefinedIsNotFound }
    ensures links { AliasesHaveLinks }
    ensures instances { InstancesKeepTheirPart }
    ensures alike { AliasesAreAlike }
    ensures mains_alike { MainsAreAlike }
    ensures kinds { KindsMakeBad }
    ensures shapes { ShapesMakeBad }
    ensures targets { TargetsMakeBad }
    ensures loops { NoLinkIsALoop }
    ensures aliases { GoodLinksMakeAliases }
    ensures hosts { HostsWithoutPlacesChooseAlike }
    ensures fleets { ChoicesAreTheFleets }
    ensures others { OtherHostsDontCount }
{}

/// Following a name's aliases finds the end of their chain, or a loop where over eight follow one another; no alias stands
/// for a name. A fragment is a visible file that isn't empty, at the main name's own path or its template's. Which names are
/// aliases of which decides main names, and what is an alias of what is decided by link targets: of each name those of its
/// own links, level by level, up to a file or a mask. A unit has one list of names.
pub fn alias_laws()
    ensures ends { FollowingFindsTheEnd }
    ensures own_main { MainsAreTheirOwn }
    ensures no_alias { NoAliasStands }
    ensures choices { ChoicesDecide }
    ensures files { FragmentsAreFiles }
    ensures own { FragmentsHaveNoFolder }
    ensures paths { FragmentsAreOwn }
    ensures mains { LeadsDecideMains }
    ensures main_choices { LeadsAndChoiceDecide }
    ensures words { LinkTargetsDecide }
    ensures own_words { OwnWordsDecide }
    ensures shown { LinkTargetsShow }
    ensures sights { ViewsDecideLinkTargets }
    ensures names { OneListOfNames }
    ensures same_names { MainsDecide }
    ensures hosts { HostsWithoutPlacesResolveAlike }
{}
