//! Laws of answers: the contract of a function that does nothing.
ghost use Rattle.fleet_answers.specs.{AnswerLaws.{OneAnswer, OtherHostsChangeNothing}, HostLaws.{HostsWithoutPlacesHaveTheFleetsAnswers}, ShownLaws.{SnapshotsStay}, UnitLaws.{UnitsAreThoseShown}};

/// A store and a question have one answer, and what stands at another host's place than the question's changes nothing of it.
/// For a host at whose places nothing is visible each question has the answer that it has without a host. What is loaded of
/// a store is what is loaded of each that shows the same. All units at once are just those that are shown for the names of
/// the load, one by one, each once.
pub fn answer_laws()
    ensures one { OneAnswer }
    ensures others { OtherHostsChangeNothing }
    ensures fleets { HostsWithoutPlacesHaveTheFleetsAnswers }
    ensures shown { SnapshotsStay }
    ensures units { UnitsAreThoseShown }
{}
