//! Laws of edges: the contract of a function that does nothing.
ghost use Rattle.inverse_deps.specs.{AskedLaws.{AskingMakesNoEdges}, EdgeLaws.{EdgesComeFromNames, EdgesJoinUnits, InversesAreOne, OneListByKind, OneListOfEdges}, TableLaws.{AskingChangesNoTable}};
ghost use Rattle.inverse_deps.specs.ManagerLaws.{DefaultsAloneAreOrdered, FilesNameAll, GivenOrdersStand, TargetsComeAfterWanted, TargetsFollowOneWay, UnitsComeAfterMounts, UnitsRequireMounts};

/// Each edge has its inverse, and edges join only units. A load has one list of the edges of a kind from a name. In a load of
/// a store there is an edge between two units exactly where one of them names the other in the store, by the kind or by its
/// inverse, or where the two make it. Which names were asked for adds no edge, and changes no table.
///
/// By files no two units make an edge. For a manager a unit comes after each mount on the way to its paths that is loaded,
/// and requires each that has a file (systemd.unit(5), "RequiresMountsFor="). A target comes after a unit that it wants, if
/// both have default dependencies and nothing given says that it comes before it (systemd.target(5), "Default
/// Dependencies"). An order that is given stands; only units with default dependencies are ordered besides, and of two
/// targets that may each come after the other neither does.
pub fn edge_laws()
    ensures inverses { InversesAreOne }
    ensures units { EdgesJoinUnits }
    ensures one { OneListOfEdges }
    ensures one_by_kind { OneListByKind }
    ensures names { EdgesComeFromNames }
    ensures asked { AskingMakesNoEdges }
    ensures table_asked { AskingChangesNoTable }
    ensures files { FilesNameAll }
    ensures after_mounts { UnitsComeAfterMounts }
    ensures required_mounts { UnitsRequireMounts }
    ensures after_wanted { TargetsComeAfterWanted }
    ensures given { GivenOrdersStand }
    ensures defaults { DefaultsAloneAreOrdered }
    ensures one_way { TargetsFollowOneWay }
{}
