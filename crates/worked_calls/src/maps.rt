//! Calls on join maps: maps from numbers to versioned numbers, and maps of maps of such maps. Numbers are below 256.
//!
//! A map is written as its pairs, `KEY:VERSION=NUMBER`, separated by commas, and read in their order; `none` has no pair,
//! and `FIRST-LAST:VERSION=NUMBER` is read as a pair for each of these keys. In a map of maps a key is two numbers,
//! separated by a slash.
use crate::joins::{append_value, joined, versioned};
use join_law::{Join, Versioned};
use join_maps::{AddAt, AddValue, Addition, JoinMap};
use worked_lines::{Answer, LineFault, Words, byte_of, cut_at, match_word, parts_of};

/// A map from numbers to versioned numbers.
pub type Numbers = JoinMap<u8, Versioned<u8>>;

type Tree = JoinMap<u8, Numbers>;

/// Writes the answer to a call on join maps.
pub fn answer(words: &mut Words, out: &mut Answer) -> Result<(), LineFault> {
    let call = words.word()?;
    match_word!(call;
        b"deep" => deep(words, out),
        b"last" => last(words, out),
        _ => returned(call, &map(words)?, words, out),
    )
}

// The answer to a call on a map, and on another one or on more words.
fn returned(
    call: &[u8],
    first: &Numbers,
    words: &mut Words,
    out: &mut Answer,
) -> Result<(), LineFault> {
    match_word!(call;
        b"join" => append_joined(out, first, &map(words)?),
        b"at" => joined_at(first, words, out),
        b"keys" => append_keys(out, first),
        b"get" => {
            append_found(out, first, byte_of(words.word()?)?);
            Ok(())
        },
    )
}

// Joins the pair, or the pairs of a range of keys, that a word writes to a map.
fn join_pair(map: &mut Numbers, pair: &[u8]) -> Result<(), LineFault> {
    let (keys, value) = cut_at(pair, b':').ok_or(LineFault::Words)?;
    match cut_at(keys, b'-') {
        Some((first, last)) => join_keys(map, byte_of(first)?, byte_of(last)?, value),
        None => join_key(map, byte_of(keys)?, value),
    }
}

// Joins the value that a word writes to a map at a key.
fn join_key(map: &mut Numbers, key: u8, value: &[u8]) -> Result<(), LineFault> {
    let value = versioned(value)?;
    let addition = AddValue { value };
    AddAt { key, addition }.join_to(map)?;
    Ok(())
}

// Joins the value that a word writes to a map at each key of a range.
fn join_keys(map: &mut Numbers, first: u8, last: u8, value: &[u8]) -> Result<(), LineFault> {
    for key in first..last {
        join_key(map, key, value)?;
    }
    join_key(map, last, value)
}

/// Returns the next word as a map.
pub fn map(words: &mut Words) -> Result<Numbers, LineFault> {
    let mut map = JoinMap::new(words.alloc);
    for pair in &parts_of(words.alloc, words.word()?)? {
        join_pair(&mut map, pair)?;
    }
    Ok(map)
}

// Writes the pairs of a map, each key after those of the maps that contain it.
fn append_pairs(out: &mut Answer, outer: &Answer, map: &Numbers) {
    let mut pairs = map.pairs();
    while let Some((key, value)) = pairs.next() {
        out.part(b",");
        out.append(outer);
        out.print(key);
        out.write(b":");
        append_value(out, value);
    }
}

/// Writes a map.
pub fn append_map(out: &mut Answer, map: &Numbers) {
    append_pairs(out, &Answer::new(out.alloc), map);
    out.or(b"none");
}

// Writes a map, its length, and whether it is unchanged.
fn append_outcome(out: &mut Answer, old: &Numbers, new: &Numbers) {
    append_map(out, new);
    out.write(b" ");
    out.print(&new.len());
    out.either(old.same(new), b" unchanged", b"");
}

// A map that copies of another's pairs are joined to.
fn with_copies(left: &Numbers, right: &Numbers) -> Result<Numbers, LineFault> {
    let mut map = left.try_clone()?;
    map.join_copy(right)?;
    Ok(map)
}

// Writes the join of two maps, and whether copies of the second's pairs give the same.
fn append_joined(out: &mut Answer, left: &Numbers, right: &Numbers) -> Result<(), LineFault> {
    let whole = joined(left, right)?;
    append_outcome(out, left, &whole);
    let is_same = whole.same(&with_copies(left, right)?);
    out.either(is_same, b"", b" but not by copies");
    Ok(())
}

// A map to which one value is joined.
fn joined_at(old: &Numbers, words: &mut Words, out: &mut Answer) -> Result<(), LineFault> {
    let key = byte_of(words.word()?)?;
    let value = versioned(words.word()?)?;
    let mut new = old.try_clone()?;
    new.join_at(key, value)?;
    append_outcome(out, old, &new);
    Ok(())
}

// Writes the keys of a map.
fn append_keys(out: &mut Answer, map: &Numbers) -> Result<(), LineFault> {
    for key in map.keys()? {
        out.part(b",");
        out.print(key);
    }
    Ok(())
}

// Writes the value at a key.
fn append_found(out: &mut Answer, map: &Numbers, key: u8) {
    match map.get(&key) {
        Some(value) => append_value(out, value),
        None => out.write(b"none"),
    }
}

// A map without its last pair, and that pair's key.
fn last(words: &mut Words, out: &mut Answer) -> Result<(), LineFault> {
    let mut map = map(words)?;
    let popped = map.pop_last();
    append_map(out, &map);
    if let Some((key, _)) = popped {
        out.write(b" ");
        out.print(&key);
    }
    Ok(())
}

// Joins the pair that a word writes to a map of maps.
fn join_branch(tree: &mut Tree, pair: &[u8]) -> Result<(), LineFault> {
    let (keys, value) = cut_at(pair, b':').ok_or(LineFault::Words)?;
    let (outer, inner) = cut_at(keys, b'/').ok_or(LineFault::Words)?;
    let value = versioned(value)?;
    let branch = AddAt {
        key: byte_of(outer)?,
        addition: AddAt {
            key: byte_of(inner)?,
            addition: AddValue { value },
        },
    };
    branch.join_to(tree)?;
    Ok(())
}

// The next word as a map of maps.
fn tree(words: &mut Words) -> Result<Tree, LineFault> {
    let mut tree = JoinMap::new(words.alloc);
    for pair in &parts_of(words.alloc, words.word()?)? {
        join_branch(&mut tree, pair)?;
    }
    Ok(tree)
}

// Writes a map of maps, and how many keys its outer map has.
fn append_tree(out: &mut Answer, tree: &Tree) {
    let mut pairs = tree.pairs();
    while let Some((outer, map)) = pairs.next() {
        let mut keys = Answer::new(out.alloc);
        keys.write_made(format!(in out.alloc; "{outer}/"));
        append_pairs(out, &keys, map);
    }
    out.or(b"none");
    out.write(b" ");
    out.print(&tree.len());
}

// The join of two maps of maps.
fn deep(words: &mut Words, out: &mut Answer) -> Result<(), LineFault> {
    let first = tree(words)?;
    append_trees(out, &first, &tree(words)?)
}

// Writes the join of two maps of maps, and whether it is the same in both orders.
fn append_trees(out: &mut Answer, left: &Tree, right: &Tree) -> Result<(), LineFault> {
    let whole = joined(left, right)?;
    append_tree(out, &whole);
    let is_same = whole.same(&joined(right, left)?);
    out.either(is_same, b" both ways", b"");
    Ok(())
}
