//! The questions that words ask.
ghost use Rattle.std.specs.Prelude.{◌≡◌, Ok, MatchResult};
ghost use Rattle.unit_name.specs.Names.{name_of};
ghost use Rattle.script_answers.specs.{Requests.{IsNameFault, names_in, request_of}, Renders.{question_asked}};

use fleet_answers::Question;
use plain_values::Items;
use replica_store::Viewer;
use script_commands::{Fault, Inquiry, Words};
use start_plan::Request;
use std::alloc::Global;
use unit_name::UnitName;

/// Returns the question that words ask for a viewer. Fails with the first thing wrong with the first word that isn't a
/// unit's name, or if memory runs out, which may replace any answer.
pub(crate) fn read_question(
    alloc: Global,
    viewer: Viewer,
    inquiry: Inquiry<'_>,
) -> Result<Question, Fault>
    ensures read { MatchResult result
        (λ question. question_asked inquiry.entry viewer ≡ Ok question)
        (IsNameFault (question_asked inquiry.entry viewer)) }
{
    match inquiry {
        Inquiry::Unit(unit) => {
            let name = read_name(alloc, unit.as_slice())?;
            Ok(Question::Unit { viewer, name })
        }
        Inquiry::List(unit) => {
            let name = read_name(alloc, unit.as_slice())?;
            Ok(Question::Pulled { viewer, name })
        }
        Inquiry::Plan(unit, running) => {
            let request = read_request(alloc, viewer, unit.as_slice(), running)?;
            Ok(Question::Plan(request))
        }
        Inquiry::Units | Inquiry::Tree => Ok(Question::Units { viewer }),
    }
}

// The request of a viewer to start the unit that a word names while those that other words name are running. Fails with
// the first thing wrong with the first word that isn't a unit's name.
fn read_request(
    alloc: Global,
    viewer: Viewer,
    unit: &[u8],
    running: Words<'_>,
) -> Result<Request, Fault>
    ensures read { MatchResult result
        (λ request. request_of viewer unit.now running.entry ≡ Ok request)
        (IsNameFault (request_of viewer unit.now running.entry)) }
{
    let target = read_name(alloc, unit)?;
    let running = read_names(alloc, running)?;
    Ok(Request {
        viewer,
        target,
        running,
    })
}

/// Returns the unit's name that a word is. Fails with the first thing wrong with it.
pub(crate) fn read_name(alloc: Global, word: &[u8]) -> Result<UnitName, Fault>
    ensures read { MatchResult result (λ name. name_of word.now ≡ Ok name)
        (IsNameFault (name_of word.now)) }
{
    match UnitName::parse(alloc, word) {
        Ok(name) => Ok(name),
        Err(fault) => Err(Fault::from(fault)),
    }
}

// The unit names that words are.
fn read_names(alloc: Global, mut words: Words<'_>) -> Result<Items<UnitName>, Fault>
    ensures read { MatchResult result (λ names. names_in words.entry ≡ Ok names)
        (IsNameFault (names_in words.entry)) }
{
    let mut names = Items::new(alloc);
    while let Some(word) = words.take_first() {
        names.push(read_name(alloc, word)?)?;
    }
    Ok(names)
}
