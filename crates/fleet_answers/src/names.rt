//! The names that a question asks for.
ghost use Rattle.std.specs.{Prelude.{◌≡◌, ◌++◌, IfOk, MatchOption, OnOk}, Option.{IfSome}};
ghost use Rattle.start_plan.specs.Requests.{HasTemplate};
ghost use Rattle.fleet_answers.specs.Answers.{asked, names_asked};

use crate::questions::Question;
use plain_values::{append_copies, copied};
use start_plan::has_template;
use std::alloc::{AllocError, Global};
use std::slice::from_ref;
use unit_name::UnitName;

/// The additional names, then those of the question. None if one of them is a template.
pub(crate) fn whole_names(
    alloc: Global,
    extra: &[UnitName],
    question: &Question,
) -> Result<Option<Vec<UnitName>>, AllocError>
    ensures template { IfOk result
        (λ found. MatchOption found (HasTemplate (asked extra.now question.now))
        (λ _. ¬ HasTemplate (asked extra.now question.now))) }
    ensures names { IfOk result
        (λ found. IfSome found (λ names. names.items ≡ asked extra.now question.now)) }
{
    let names = asked_names(alloc, extra, question)?;
    if has_template(&names) {
        return Ok(None);
    }
    Ok(Some(names))
}

// The additional names, then those of the question.
fn asked_names(
    alloc: Global,
    extra: &[UnitName],
    question: &Question,
) -> Result<Vec<UnitName>, AllocError>
    ensures names { IfOk result (λ names. names.items ≡ asked extra.now question.now) }
{
    let mut names = copied(alloc, extra)?;
    append_own(&mut names, question)?;
    Ok(names)
}

// Appends the names of a question.
fn append_own(names: &mut Vec<UnitName>, question: &Question) -> Result<(), AllocError>
    ensures appended { OnOk result (names.new.items ≡ names.old.items ++ names_asked question.now) }
{
    match question {
        Question::Unit { name, .. } | Question::Pulled { name, .. } => {
            append_copies(names, from_ref(name))
        }
        Question::Plan(request) => {
            append_copies(names, from_ref(&request.target))?;
            append_copies(names, request.running.as_slice())
        }
        Question::Units { .. } => Ok(()),
    }
}
