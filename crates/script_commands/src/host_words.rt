//! The host in a node's word, after an at sign.
ghost use Rattle.std.specs.Prelude.{◌≡◌, Ok, MatchResult, position};
ghost use Rattle.script_commands.specs.Hosts.{IsHostFault, host_asked, host_in, is_at, node_in};

use crate::commands::{Fault, Word};
use load_places::HostName;
use std::alloc::Global;

/// Splits a word at its first at sign into the node before it and the host after it, which isn't parsed. A word without
/// an at sign is only a node.
pub(crate) fn cut_host(word: &[u8]) -> (Word<'_>, Option<Word<'_>>)
    ensures node { result.0 ≡ node_in word.now }
    ensures host { result.1 ≡ host_in word.now }
{
    match first_at(word) {
        None => (Word::new(word), None),
        Some(at) => (Word::new(&word[..at]), Some(Word::new(&word[at + 1..]))),
    }
}

// Returns the index of the first at sign.
fn first_at(word: &[u8]) -> Option<usize>
    ensures position { result ≡ position is_at word.now }
{
    word.iter().position(|b| *b == b'@')
}

/// Parses the host, if one is asked for, or returns that these bytes aren't a host. `Memory` if memory runs out, which
/// happens only for a valid host.
pub fn read_host(alloc: Global, asked: Option<Word<'_>>) -> Result<Option<HostName>, Fault>
    ensures read { MatchResult result (λ host. host_asked asked.entry ≡ Ok host)
        (IsHostFault (host_asked asked.entry)) }
{
    let Some(name) = asked else {
        return Ok(None);
    };
    match HostName::parse(alloc, name.as_slice()) {
        Ok(host) => Ok(Some(host)),
        Err(fault) => Err(Fault::from(fault)),
    }
}
