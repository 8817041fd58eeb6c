//! Laws of units: the contract of a function that does nothing.
ghost use Rattle.unit_loads.specs.{ElsewhereLaws.{NearPathsDecide}, FootprintLaws.{FootprintsDecide, StoreFootprintsDecide}, HostLaws.{HostsWithoutPlacesHaveTheseFiles, HostsWithoutPlacesHaveTheseUnits, HostsWithoutPlacesNameAlike}, NameLaws.{ListsHaveWhatIsNamed, ListsAscend, OthersNameNone, UnitsListAllKinds}, TypeLaws.{UnitsHaveOneType}, UnitLaws.{OneUnit}};

/// Two units with one name in one store are equal, and all names of a unit have one type. A unit lists names for each kind
/// by which it may name another, in ascending order: just those that its words and links give; only a loaded one names
/// others. It is determined by what is visible at paths of one component, in its folders and in its type's; where names
/// are aliases of the same units, by its footprint. A host without visible places has the units that there are without a
/// host. All this holds by each profile.
pub fn unit_laws()
    ensures one { OneUnit }
    ensures one_type { UnitsHaveOneType }
    ensures kinds { UnitsListAllKinds }
    ensures ascend { ListsAscend }
    ensures exact { ListsHaveWhatIsNamed }
    ensures loaded { OthersNameNone }
    ensures near { NearPathsDecide }
    ensures footprints { FootprintsDecide }
    ensures stores { StoreFootprintsDecide }
    ensures files { HostsWithoutPlacesHaveTheseFiles }
    ensures units { HostsWithoutPlacesHaveTheseUnits }
    ensures named { HostsWithoutPlacesNameAlike }
{}
