//! The parts of a path within its text.
ghost use Rattle.std.specs.{Prelude.{◌≡◌, ◌<◌, [], ◌∷◌, option_map, position}, List.{list_all, slice_split}};
ghost use Rattle.std.specs.Option.{option_map_or, option_copied};
ghost use Rattle.load_path.specs.Paths.{directory_of, below_directory, is_component, is_component_byte, is_dots, is_slash, located, path_below, path_of};

use crate::paths::{COMPONENT_LIMIT, PathFault};
use std::marker::Model;

/// The parts of a path, borrowed from its text.
#[derive(Drop)]
pub(crate) struct Parts<'a> {
    pub(crate) rank: u8,
    pub(crate) folder: &'a [u8],
    pub(crate) name: &'a [u8],
}

impl<'a> Model for Parts<'a> {
    ghost use Rattle.load_path.specs.Paths.{PathParts, IsPath};

    ghost Value = { PathParts };

    ghost view = { λ p. record { rank = p.rank; folder = p.folder.now; name = p.name.now } };

    ghost invariant = { λ p. IsPath
        (record { rank = p.rank; folder = p.folder.now; name = p.name.now }) };
}

impl<'a> Parts<'a> {
    /// Returns the parts of a text, or the first fault in it.
    pub(crate) fn of(text: &'a [u8]) -> Result<Parts<'a>, PathFault>
        ensures parts { result ≡ path_of text.now }
    {
        match located_in(text) {
            Some((rank, below)) => Parts::below(rank, below),
            None => Err(PathFault::Directory),
        }
    }

    // Returns the parts of a path, given the text below its directory.
    fn below(rank: u8, below: &'a [u8]) -> Result<Parts<'a>, PathFault>
        requires within { rank < 4 }
        ensures parts { result ≡ path_below rank (slice_split is_slash below.now) }
    {
        let (first, after) = cut(below);
        let Some(after) = after else {
            return Parts::of_one(rank, first);
        };
        let (second, further) = cut(after);
        if further.is_some() {
            return Err(PathFault::Depth);
        }
        Parts::of_two(rank, first, second)
    }

    // Returns the parts of a path with one component.
    fn of_one(rank: u8, name: &'a [u8]) -> Result<Parts<'a>, PathFault>
        requires within { rank < 4 }
        ensures parts { result ≡ path_below rank (name.now ∷ []) }
    {
        if !is_component(name) {
            return Err(PathFault::Component);
        }
        Ok(Parts {
            rank,
            folder: &[],
            name,
        })
    }

    // Returns the parts of a path with two components.
    fn of_two(rank: u8, folder: &'a [u8], name: &'a [u8]) -> Result<Parts<'a>, PathFault>
        requires within { rank < 4 }
        ensures parts { result ≡ path_below rank (folder.now ∷ name.now ∷ []) }
    {
        if !is_component(folder) || !is_component(name) {
            return Err(PathFault::Component);
        }
        Ok(Parts { rank, folder, name })
    }
}

/// Returns the directory of a rank.
pub(crate) fn directory(rank: u8) -> &'static [u8]
    requires within { rank < 4 }
    ensures directory { result.now ≡ directory_of rank }
{
    match rank {
        0 => b"/etc/systemd/system",
        1 => b"/run/systemd/system",
        2 => b"/usr/local/lib/systemd/system",
        _ => b"/usr/lib/systemd/system",
    }
}

// Returns the rank of the directory that a text begins with, and the text after that directory and a slash.
fn located_in(text: &[u8]) -> Option<(u8, &[u8])>
    ensures located { option_map (λ found. (found.0, found.1.now)) result ≡ located text.now }
{
    for rank in 0..4 {
        if let Some(below) = after_directory(text, directory(rank)) {
            return Some((rank, below));
        }
    }
    None
}

// Returns the text after `directory` and a slash, if the text begins with these.
fn after_directory<'a>(text: &'a [u8], directory: &[u8]) -> Option<&'a [u8]>
    ensures below { option_copied result ≡ below_directory directory.now text.now }
{
    text.strip_prefix(directory)?.strip_prefix(b"/")
}

// Splits bytes at the first slash, which is dropped.
fn cut(bytes: &[u8]) -> (&[u8], Option<&[u8]>)
    ensures parts { slice_split is_slash bytes.now
        ≡ result.0.now ∷ option_map_or (λ rest. slice_split is_slash rest.now) result.1 [] }
{
    match first_slash(bytes) {
        Some(at) => (&bytes[..at], Some(&bytes[at + 1..])),
        None => (bytes, None),
    }
}

// Returns the index of the first slash.
fn first_slash(bytes: &[u8]) -> Option<usize>
    ensures position { result ≡ position is_slash bytes.now }
{
    bytes.iter().position(|b| *b == b'/')
}

/// Returns whether bytes are a component of a path: 1 to 255 bytes from 33 to 126 without a slash, and neither `.` nor
/// `..`. Allocates nothing.
pub fn is_component(bytes: &[u8]) -> bool
    ensures component { result ≡ is_component bytes.now }
{
    !bytes.is_empty()
        && bytes.len() <= COMPONENT_LIMIT
        && has_component_bytes(bytes)
        && !is_one_or_two_dots(bytes)
}

// Returns whether every byte is allowed in a component.
fn has_component_bytes(bytes: &[u8]) -> bool
    ensures all { result ≡ list_all is_component_byte bytes.now }
{
    bytes.iter().all(|&b| matches!(b, 33..=126) && b != b'/')
}

// Returns whether bytes are exactly one or two dots.
fn is_one_or_two_dots(bytes: &[u8]) -> bool
    ensures dots { result ≡ is_dots bytes.now }
{
    bytes == b".".as_slice() || bytes == b"..".as_slice()
}
