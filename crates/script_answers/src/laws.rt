//! Laws of answers: each question has one, and what a host's places change.
ghost use Rattle.place_texts.specs.PlaceTextLaws.{TextsAreRenderedOnce};
ghost use Rattle.script_answers.specs.{FileHostLaws.{HostsWithoutPlacesAreRenderedTheFleetsFiles, OtherHostsChangeNoFiles}, CrowdLaws.{CrowdsAreRenderedOnce}, FileLaws.{FilesAreRenderedOnce}, RendersLaws.{QuestionsAreRenderedOnce}};

/// A store's answer to a command is rendered in one way, or refused in one way. For a host at whose places nothing is
/// visible, `cat` renders what it renders without a host. Another host's places don't change it.
pub fn rendering_laws()
    ensures files { FilesAreRenderedOnce }
    ensures texts { TextsAreRenderedOnce }
    ensures questions { QuestionsAreRenderedOnce }
    ensures crowds { CrowdsAreRenderedOnce }
    ensures fleets { HostsWithoutPlacesAreRenderedTheFleetsFiles }
    ensures others { OtherHostsChangeNoFiles }
{}
