//! Laws on what a host sees, for all stores.
ghost use Rattle.path_maps.specs.HostLaws.{HostsWithoutPlacesHaveTheFleetsView, OtherHostsAreNotInView, PlacesAreInViews, PlacesDecideViews, WhatIsInViewHasAPlace, WhatIsViewedThereIsItsOwn};

/// A place with a level is seen at it, as its own, and what is seen has a place. What stands at a place without a level,
/// another host's, changes nothing; stores that show the same at a path's places show the same there. A host without places
/// of its own sees what is seen without one.
pub fn host_view_laws()
    ensures places { PlacesAreInViews }
    ensures own { WhatIsViewedThereIsItsOwn }
    ensures view { WhatIsInViewHasAPlace }
    ensures others { OtherHostsAreNotInView }
    ensures decide { PlacesDecideViews }
    ensures without { HostsWithoutPlacesHaveTheFleetsView }
{}
