//! Parsing the words after a command's nodes: places, files and links.
ghost use Rattle.std.specs.Prelude.{◌≡◌, ◌⊎◌, Ok, Err, MatchResult};
ghost use Rattle.load_places.specs.Texts.{place_of};
ghost use Rattle.script_commands.specs.{Files.{IsFileOf, IsLinkTo, IsNoFile, IsNoLink}, Places.{IsPlaceFault, places_of}};

use crate::commands::{Fault, LineRefusal, Words};
use edit_sums::Content;
use load_places::Place;
use script_words::unescape;
use std::alloc::Global;

/// Parses a place, or returns the first fault in it. `Memory` if memory runs out, which happens only for a valid place.
pub fn read_place(alloc: Global, text: &[u8]) -> Result<Place, Fault>
    ensures read { MatchResult result (λ place. place_of text.now ≡ Ok place)
        (IsPlaceFault (place_of text.now)) }
{
    match Place::parse(alloc, text) {
        Ok(place) => Ok(place),
        Err(fault) => Err(Fault::from(fault)),
    }
}

/// Parses the places that the words of a line spell, or returns the first fault in the first word that isn't a place.
/// `Memory` if memory runs out, whatever the words are.
pub fn read_places(alloc: Global, mut texts: Words<'_>) -> Result<Vec<Place>, Fault>
    ensures read { MatchResult result (λ places. places_of texts.entry ≡ Ok places.items)
        (IsPlaceFault (places_of texts.entry)) }
{
    let mut places = Vec::new(alloc);
    while let Some(text) = texts.take_first() {
        let place = read_place(alloc, text)?;
        places.push(place)?;
    }
    Ok(places)
}

/// Returns the file that a text spells, or why it spells none.
pub fn read_file(alloc: Global, text: &[u8]) -> Result<Content, Fault>
    ensures read { MatchResult result (IsFileOf text.now) (IsNoFile text.now) }
{
    let Some(bytes) = unescape(alloc, text)? else {
        return Err(Fault::Refused(LineRefusal::BadText));
    };
    match Content::file(bytes) {
        Ok(content) => Ok(content),
        Err(fault) => Err(Fault::from(fault)),
    }
}

/// Returns the link to a target, if the target is valid.
pub fn read_link(alloc: Global, target: &[u8]) -> Result<Content, Fault>
    ensures read { MatchResult result (IsLinkTo target.now) (IsNoLink target.now) }
{
    Ok(Content::link(Vec::from_slice(alloc, target)?)?)
}
