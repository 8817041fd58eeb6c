//! Laws of implied names: the contract of a function that does nothing.
ghost use Rattle.implied_names.specs.ImpliedLaws.{ActivatorsComeFirst, ImpliedAreNames, ImpliedAreNaming, NothingByDefault, PerpetualUnitsAreNames, ServicesWaitForTheSystem, SetServicesAreTriggered};

/// A service with default dependencies requires `sysinit.target`, comes after it and `basic.target`, and stops at shutdown.
/// Without default dependencies a unit implies nothing of these tables. A timer or a path comes before the unit that it
/// triggers. A socket that starts one service triggers the last one that is set, not its sister. Units imply others only by
/// kinds by which a unit may name another, and what is implied and the perpetual units are unit names.
pub fn implied_laws()
    ensures services { ServicesWaitForTheSystem }
    ensures none { NothingByDefault }
    ensures activators { ActivatorsComeFirst }
    ensures sockets { SetServicesAreTriggered }
    ensures kinds { ImpliedAreNaming }
    ensures names { ImpliedAreNames }
    ensures perpetual { PerpetualUnitsAreNames }
{}
