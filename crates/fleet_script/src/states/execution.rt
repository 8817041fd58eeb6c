//! Answers lines.
ghost use Rattle.std.specs.Prelude.{IfOk, MatchResult};
ghost use Rattle.script_commands.specs.Commands.{command_of};
ghost use Rattle.fleet_script.specs.{Does.{Does, Refuses}, Holds.{Continues, Goes, kept_in}, Scripts.{AnswersLine}};

use crate::states::{Rendered, Shell};
use script_answers::refused;
use script_commands::{Command, Fault, LineRefusal, parse};
use script_words::is_passed_over;
use std::alloc::AllocError;
use std::sync::Wait;
use std::thread::Threads;

/// The most bytes of a line of a script, without its line end.
const LINE_LIMIT: usize = 300_000;

impl Shell {
    // Executes the command of a line.
    fn execute<R: AllocGlobal + Threads + Wait + Sync>(&mut self, rt: &R, line: &[u8]) -> Rendered
        ensures done { Goes (kept_in self.old) (kept_in self.new) (λ before outcome after.
            MatchResult (command_of line.now) (λ command. Does before command outcome after)
            (λ refusal. Refuses before refusal outcome after)) result }
    {
        let alloc = rt.alloc();
        match parse(line)? {
            Command::Node { name, writer } => self.node(alloc, name.as_slice(), writer),
            Command::Put { node, place, text } => self.put(
                alloc,
                node.as_slice(),
                place.as_slice(),
                text.as_slice(),
            ),
            Command::Link {
                node,
                place,
                target,
            } => self.link(alloc, node.as_slice(), place.as_slice(), target.as_slice()),
            Command::Remove { node, place } => self.remove(
                alloc,
                node.as_slice(),
                place.as_slice(),
            ),
            Command::Merge { from, to } => self.merge(alloc, from.as_slice(), to.as_slice()),
            Command::Part {
                piece,
                from,
                to,
                places,
            } => self.part(
                alloc,
                piece.as_slice(),
                from.as_slice(),
                to.as_slice(),
                places,
            ),
            Command::Send { piece, node } => self.send(alloc, piece.as_slice(), node.as_slice()),
            Command::Sweep => self.sweep(alloc),
            Command::Files { node } => self.files(alloc, node.as_slice()),
            Command::Text { node, place } => self.text(alloc, node.as_slice(), place.as_slice()),
            Command::Cat { node, host, unit } => {
                self.cat(alloc, node.as_slice(), host, unit.as_slice())
            }
            Command::Ask {
                node,
                host,
                inquiry,
            } => self.ask(rt, alloc, node.as_slice(), host, inquiry),
            Command::Workers { count } => self.workers(alloc, count),
            Command::Profile { profile } => self.profile(alloc, profile),
            Command::Same { left, right } => self.same(alloc, left.as_slice(), right.as_slice()),
            Command::Crowd { node, seats, edits } => {
                self.crowd(rt, alloc, node.as_slice(), seats, edits)
            }
        }
    }

    /// The answer to a line.
    pub(crate) fn answer_line<R: AllocGlobal + Threads + Wait + Sync>(
        &mut self,
        rt: &R,
        line: &[u8],
    ) -> Result<Vec<u8>, AllocError>
        ensures answered { IfOk result (λ answer. Continues (kept_in self.old) (kept_in self.new)
            (λ old new. AnswersLine old line.now answer.items new)) }
    {
        let alloc = rt.alloc();
        if line.len() > LINE_LIMIT {
            return refused(alloc, LineRefusal::LineTooLong);
        }
        if is_passed_over(line) {
            return Ok(Vec::new(alloc));
        }
        match self.execute(rt, line) {
            Ok(text) => Ok(text),
            Err(Fault::Refused(refusal)) => refused(alloc, refusal),
            Err(Fault::Memory) => Err(AllocError),
        }
    }
}
