//! Laws on places, for all of them, and on levels, for all answers at them.
ghost use Rattle.load_places.specs.{LevelLaws.{LeastLevelDecides, UndefinedEverywhere, LesserRanksGoFirst, LevelsOfDirectories, OwnPlacesGoFirst, PlacesLookedAtHaveLevels}, Texts.{AreTheirTexts}, PlaceLaws.{FleetsPlacesComeFirst, HostsGoInByteOrder, PathsOrderAScope}, TextLaws.{BadHostsAreRefusedFirst, BadPathsAreRefusedNext, TextsWithoutHostsAreRefusedAsPaths}};

/// Each place and its text give each other. What stands before a text's first colon is looked at first: where it names no
/// host, the text is refused for that, whatever its path; else as its path is. The fleet's places come first, whatever their
/// paths; then hosts' in the byte order of their names. Those of one scope stand in the order of paths.
pub fn place_laws()
    ensures texts { AreTheirTexts }
    ensures bad_hosts { BadHostsAreRefusedFirst }
    ensures bad_paths { BadPathsAreRefusedNext }
    ensures no_hosts { TextsWithoutHostsAreRefusedAsPaths }
    ensures fleet { FleetsPlacesComeFirst }
    ensures hosts { HostsGoInByteOrder }
    ensures paths { PathsOrderAScope }
{}

/// The least level that says something decides; nothing is said just where no level says anything. The fleet's places have a
/// level, and those of the host that looks; no others have one. A lesser rank goes before a greater one, whosever the places
/// are; in the directory of one rank the host's own go before the fleet's.
pub fn level_laws<B>()
    ensures least { LeastLevelDecides B }
    ensures undefined { UndefinedEverywhere B }
    ensures looked_at { PlacesLookedAtHaveLevels }
    ensures within { LevelsOfDirectories }
    ensures ranks { LesserRanksGoFirst }
    ensures own { OwnPlacesGoFirst }
{}
