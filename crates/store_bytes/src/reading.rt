//! Places and entries, read from the start of bytes.
ghost use Rattle.std.specs.Prelude.{◌≡◌};
ghost use Rattle.byte_fields.specs.Reading.{Gives};
ghost use Rattle.store_bytes.specs.Reading.{scope_at, path_at, parts_at, components_at, is_path, place_at, version_at, numbers_at, target_at, text_at, link_at, file_at, content_at, entry_at};

use byte_fields::{
    DecodeFault, SpellingFault, byte_of, long_string_of, number_of, short_string_of,
};
use edit_sums::{Content, ContentFault, Entry, FILE_LIMIT};
use join_law::Version;
use load_path::{Path, is_component};
use load_places::{HostFault, HostName, Place, Scope};
use plain_values::Bytes;
use std::alloc::Global;

// Reads the scope at the start: the fleet if the host's name is empty. `Host` if it is no host's name.
#[tactic(auto, unfolding(crate::specs::Reading::scope_at))]
pub(crate) fn scope_of(alloc: Global, bytes: &[u8]) -> Result<(Scope, &[u8]), DecodeFault>
    ensures read { Gives (λ x. (x.0, x.1.now)) result (scope_at bytes.now) }
{
    let (host, rest) = short_string_of(bytes)?;
    if host.is_empty() {
        return Ok((Scope::Fleet, rest));
    }
    match HostName::parse(alloc, host) {
        Ok(host) => Ok((Scope::Host(host), rest)),
        Err(HostFault::HostName) => Err(DecodeFault::Fault(SpellingFault::Host)),
        Err(HostFault::Memory) => Err(DecodeFault::Memory),
    }
}

// Returns whether these are the parts of a path.
fn are_path_parts(rank: u8, folder: &[u8], name: &[u8]) -> bool
    ensures parts { result ≡ is_path
        (record { rank = rank; folder = folder.now; name = name.now }) }
{
    rank < 4 && (folder.is_empty() || is_component(folder)) && is_component(name)
}

// Reads the path at the start. `Path` if its parts are none.
#[tactic(auto, unfolding(crate::specs::Reading::path_at, crate::specs::Reading::parts_at, crate::specs::Reading::components_at))]
pub(crate) fn path_of(alloc: Global, bytes: &[u8]) -> Result<(Path, &[u8]), DecodeFault>
    ensures read { Gives (λ x. (x.0, x.1.now)) result (path_at bytes.now) }
{
    let (rank, rest) = byte_of(bytes)?;
    let (folder, rest) = short_string_of(rest)?;
    let (name, rest) = short_string_of(rest)?;
    if !are_path_parts(rank, folder, name) {
        return Err(DecodeFault::Fault(SpellingFault::Path));
    }
    let folder = Bytes::from_slice(alloc, folder)?;
    let name = Bytes::from_slice(alloc, name)?;
    Ok((Path::from_parts(rank, folder, name), rest))
}

/// Reads the place at the start of bytes, and returns it with the bytes after it. The faults are `Memory`, `Truncated`,
/// `Host` and `Path`.
#[tactic(auto, unfolding(crate::specs::Reading::place_at))]
pub fn place_of(alloc: Global, bytes: &[u8]) -> Result<(Place, &[u8]), DecodeFault>
    ensures read { Gives (λ x. (x.0, x.1.now)) result (place_at bytes.now) }
{
    let (scope, rest) = scope_of(alloc, bytes)?;
    let (path, rest) = path_of(alloc, rest)?;
    Ok((Place { scope, path }, rest))
}

// Reads the version at the start. `Number` if the writer isn't below 2^32.
#[tactic(auto, unfolding(crate::specs::Reading::version_at, crate::specs::Reading::numbers_at))]
pub(crate) fn version_of(bytes: &[u8]) -> Result<(Version, &[u8]), DecodeFault>
    ensures read { Gives (λ x. (x.0, x.1.now)) result (version_at bytes.now) }
{
    let (counter, rest) = number_of(bytes)?;
    let (writer, rest) = number_of(rest)?;
    if writer >= 1 << 32 {
        return Err(DecodeFault::Fault(SpellingFault::Number));
    }
    let version = Version {
        counter,
        writer: writer as u32,
    };
    Ok((version, rest))
}

// Reads a link's target at the start. `Content` if it is none.
#[tactic(auto, unfolding(crate::specs::Reading::target_at))]
fn link_of(alloc: Global, bytes: &[u8]) -> Result<(Content, &[u8]), DecodeFault>
    ensures read { Gives (λ x. (x.0, x.1.now)) result (link_at bytes.now) }
{
    let (target, rest) = long_string_of(bytes)?;
    match Content::link(Vec::from_slice(alloc, target)?) {
        Ok(content) => Ok((content, rest)),
        Err(ContentFault::Memory) => Err(DecodeFault::Memory),
        Err(_) => Err(DecodeFault::Fault(SpellingFault::Content)),
    }
}

// Reads a file's bytes at the start. `Content` if there are too many, which are then not copied.
#[tactic(auto, unfolding(crate::specs::Reading::text_at))]
fn file_of(alloc: Global, bytes: &[u8]) -> Result<(Content, &[u8]), DecodeFault>
    ensures read { Gives (λ x. (x.0, x.1.now)) result (file_at bytes.now) }
{
    let (file, rest) = long_string_of(bytes)?;
    if file.len() > FILE_LIMIT {
        return Err(DecodeFault::Fault(SpellingFault::Content));
    }
    match Content::file(Vec::from_slice(alloc, file)?) {
        Ok(content) => Ok((content, rest)),
        Err(_) => Err(DecodeFault::Memory),
    }
}

// Reads the content at the start. `Content` if its first byte names none.
#[tactic(auto, unfolding(crate::specs::Reading::content_at))]
fn content_of(alloc: Global, bytes: &[u8]) -> Result<(Content, &[u8]), DecodeFault>
    ensures read { Gives (λ x. (x.0, x.1.now)) result (content_at bytes.now) }
{
    let (sort, rest) = byte_of(bytes)?;
    match sort {
        0 => Ok((Content::gone(), rest)),
        1 => link_of(alloc, rest),
        2 => file_of(alloc, rest),
        _ => Err(DecodeFault::Fault(SpellingFault::Content)),
    }
}

// Reads the entry at the start.
#[tactic(auto, unfolding(crate::specs::Reading::entry_at))]
pub(crate) fn entry_of(alloc: Global, bytes: &[u8]) -> Result<(Entry, &[u8]), DecodeFault>
    ensures read { Gives (λ x. (x.0, x.1.now)) result (entry_at bytes.now) }
{
    let (version, rest) = version_of(bytes)?;
    let (content, rest) = content_of(alloc, rest)?;
    Ok((Entry { version, content }, rest))
}
