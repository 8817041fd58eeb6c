//! Laws of loads: the contract of a function that does nothing.
ghost use Rattle.parallel_load.specs.{AskedLaws.{SourcesMakeTheLoad, SourcesMakeTheSize}, HostLaws.{HostsWithoutPlacesAreAsLarge, HostsWithoutPlacesLoadAlike, SameUnitsMakeTheLoad}, StableLoadLaws.{SameNamesKeepTheUniverse, UniverseStays, WordsKeepVisibleNames}, LoadLaws.{OneLoad}, TouchedLaws.{TouchedWordsDecide}, UniverseLaws.{DependenciesAreLoaded, DependenciesAreMains, MainsHaveUnits, NamesHaveMains, UnitsAreTheirOwnMains}};

/// A store and names that are asked for have one load; of these names only those count at which nothing is visible. The names
/// of a load are those of the universe: each has its main name there, with its unit, and a unit's dependencies are the main
/// names of what it names, without itself, in the load. A host without visible places loads what is loaded without one.
pub fn load_laws()
    ensures one { OneLoad }
    ensures asked { SourcesMakeTheLoad }
    ensures asked_size { SourcesMakeTheSize }
    ensures mains { NamesHaveMains }
    ensures units { MainsHaveUnits }
    ensures own { UnitsAreTheirOwnMains }
    ensures dependencies { DependenciesAreMains }
    ensures loaded { DependenciesAreLoaded }
    ensures same_units { SameUnitsMakeTheLoad }
    ensures loads { HostsWithoutPlacesLoadAlike }
    ensures size { HostsWithoutPlacesAreAsLarge }
{}

/// Where aliases and visible names are the same, and each unit of the universe names nothing beyond it and loses no name but
/// sources, the universe stays. Equal link targets show the same visible names. Where two stores show the same but at some
/// places, and link targets are equal at those that a host looks at, they are equal for all names.
pub fn stable_load_laws()
    ensures visible { WordsKeepVisibleNames }
    ensures universe { UniverseStays }
    ensures same { SameNamesKeepTheUniverse }
    ensures words { TouchedWordsDecide }
{}
