//! Search by name prefix: finds the names that begin as the first component of a path does.
ghost use Rattle.std.specs.{Prelude.{◌≡◌, ◌↔◌, ◌≤◌, ◌||◌, length, position, IsTrue, MatchOption}, Ordering.{is_lt}};
ghost use Rattle.unit_name.specs.Names.{name_cmp};
ghost use Rattle.parallel_load.specs.SearchPrefixes.{AreWithin, IsNonDecreasing, EndsWith, HasNoStop, IsSearchPrefixOf, IsOfNoType, IsOfType, begins_so, is_stop};

use plain_values::order;
use std::ops::Range;
use unit_name::UnitName;

/// The prefix that a name must have for this component to be the name itself, its template or one of its folders: the
/// component up to and with its first dot or at sign, or without that byte where a dash stands before it, since
/// prefixes are cut after dashes. None where the component has neither a dot nor an at sign.
pub(crate) fn search_prefix_of(part: &[u8]) -> Option<&[u8]>
    ensures search_prefix { MatchOption result (HasNoStop part.now)
        (λ search_prefix. IsSearchPrefixOf part.now search_prefix.now) }
{
    let stop = stop_of(part)?;
    if stop > 0 && part[stop - 1] == b'-' {
        Some(&part[..stop])
    } else {
        Some(&part[..stop + 1])
    }
}

// Where the first dot or at sign is.
fn stop_of(part: &[u8]) -> Option<usize>
    ensures place { result ≡ position is_stop part.now }
{
    part.iter().position(|byte| is_stop(*byte))
}

// Whether a byte is a dot or an at sign.
fn is_stop(byte: u8) -> bool
    ensures stop { result ≡ is_stop byte }
{
    byte == b'.' || byte == b'@'
}

/// The type whose drop-in folder a component is. None where the component has a dot besides that of its ending.
pub(crate) fn type_of(part: &[u8]) -> Option<&[u8]>
    ensures word { MatchOption result (IsOfNoType part.now) (λ word. IsOfType part.now word.now) }
{
    let word = part.strip_suffix(b".d")?;
    if word.contains(&b'.') {
        None
    } else {
        Some(word)
    }
}

/// The range of the names that begin with these bytes, among pairs in byte order of names. O(log n). Allocates nothing.
pub(crate) fn places_of<V>(pairs: &[(UnitName, V)], search_prefix: &[u8]) -> Range<usize>
    requires ascending { IsNonDecreasing pairs.now }
    ensures within { result.end ≤ length pairs.now }
    ensures all { AreWithin search_prefix.now pairs.now result.start result.end }
{
    let start = pairs.partition_point(|pair| is_below(&pair.0, search_prefix));
    let end = pairs.partition_point(|pair| is_below_or_begins(&pair.0, search_prefix));
    start..end
}

// Whether a name is less than these bytes.
fn is_below(name: &UnitName, search_prefix: &[u8]) -> bool
    ensures below { result ≡ is_lt (name_cmp name.now search_prefix.now) }
{
    order(name.bytes(), search_prefix).is_lt()
}

// Whether a name is less than these bytes, or begins with them.
fn is_below_or_begins(name: &UnitName, search_prefix: &[u8]) -> bool
    ensures test { result ≡ (is_lt (name_cmp name.now search_prefix.now)
        || begins_so search_prefix.now name.now) }
{
    is_below(name, search_prefix) || name.bytes().starts_with(search_prefix)
}

/// Whether a name ends with these bytes.
pub(crate) fn ends_with(name: &UnitName, ending: &[u8]) -> bool
    ensures ends { IsTrue result ↔ EndsWith ending.now name.now }
{
    name.bytes().ends_with(ending)
}
