//! The entries of a store or a piece, read one by one.
ghost use Rattle.std.specs.{Option.{option_copied}, Prelude.{◌<◌, ◌≡◌, IfErr, IfOk, IfSome, OnErr}};
ghost use Rattle.load_places.specs.Places.{scope_cmp};
ghost use Rattle.load_path.specs.Paths.{path_cmp};
ghost use Rattle.byte_fields.specs.Reading.{Fails, Gives};
ghost use Rattle.store_bytes.specs.{Bytes.{entries_in}, ListReading.{is_above, pair_above_at}, Reading.{entry_at, path_at}};
ghost use Rattle.store_bytes.specs.Streams.{entries_begun, entries_to_come, most_left, scope_head_at, scope_or_fleet, Yields};

use crate::heads::open;
use crate::reading::{entry_of, path_of, scope_of};
use byte_fields::{DecodeFault, SpellingFault, number_of};
use edit_sums::Entry;
use load_path::Path;
use load_places::{Place, Scope};
use std::alloc::{AllocError, Global};
use std::marker::Model;

/// The entries that the bytes of a store or a piece have still to give, in place order. The bytes are borrowed.
pub struct EntryReader<'a> {
    alloc: Global,
    // How many scopes follow the last one.
    scopes: u64,
    // The last scope.
    scope: Option<Scope>,
    // How many of its entries follow.
    entries: u64,
    // The path of its last entry.
    path: Option<Path>,
    rest: &'a [u8],
}

impl<'a> Drop for EntryReader<'a> {
    fn drop(self) {
        let EntryReader {
            alloc: _,
            scopes: _,
            scope: _,
            entries: _,
            path: _,
            rest: _,
        } = self;
    }
}

impl<'a> Model for EntryReader<'a> {
    ghost use Rattle.store_bytes.specs.Streams.{EntriesLeft};

    ghost Value = { EntriesLeft };

    ghost view = { λ d. record {
      scopes = d.scopes;
      scope = d.scope;
      entries = d.entries;
      path = d.path;
      rest = d.rest.now;
    } };
}

impl<'a> EntryReader<'a> {
    // Begins to read the bytes of a value of this kind. The faults are those of the head, the checksum and the number of
    // scopes. Allocates nothing.
    pub(crate) fn open(
        alloc: Global,
        kind: u8,
        bytes: &'a [u8],
    ) -> Result<EntryReader<'a>, DecodeFault>
        ensures all { IfOk result (λ reader. entries_to_come reader ≡ entries_in kind bytes.now) }
        ensures fault { IfErr result (λ e. Fails e (entries_in kind bytes.now)) }
    {
        EntryReader::begin(alloc, kind, bytes)
    }

    #[tactic(auto, unfolding(crate::specs::Streams::entries_begun))]
    fn begin(alloc: Global, kind: u8, bytes: &'a [u8]) -> Result<EntryReader<'a>, DecodeFault>
        ensures begun { Gives (λ reader. reader) result (entries_begun kind bytes.now) }
    {
        let inner = open(kind, bytes)?;
        let (scopes, rest) = number_of(inner)?;
        Ok(EntryReader {
            alloc,
            scopes,
            scope: None,
            entries: 0,
            path: None,
            rest,
        })
    }

    /// Reads the next entry with its place, or returns `None` after the last one. `Memory` if memory runs out, else the
    /// first fault in the bytes that are left, which then comes at each call; an error changes nothing.
    pub fn next(&mut self) -> Result<Option<(Place, Entry)>, DecodeFault>
        ensures next { IfOk result
            (λ next. Yields next (entries_to_come self.old) (entries_to_come self.new)) }
        ensures fewer { IfOk result
            (λ next. IfSome next (λ _. most_left self.new < most_left self.old)) }
        ensures fault { IfErr result (λ e. Fails e (entries_to_come self.old)) }
        ensures err { OnErr result (self.new ≡ self.old) }
    {
        if self.entries > 0 {
            return self.next_of_scope();
        }
        if self.scopes > 0 {
            return self.first_of_next_scope();
        }
        if !self.rest.is_empty() {
            return Err(DecodeFault::Fault(SpellingFault::Trailing));
        }
        Ok(None)
    }

    // Reads the next entry of the last scope.
    fn next_of_scope(&mut self) -> Result<Option<(Place, Entry)>, DecodeFault>
        requires some { 0 < self.old.entries }
        ensures next { IfOk result
            (λ next. Yields next (entries_to_come self.old) (entries_to_come self.new)) }
        ensures fewer { IfOk result
            (λ next. IfSome next (λ _. most_left self.new < most_left self.old)) }
        ensures fault { IfErr result (λ e. Fails e (entries_to_come self.old)) }
        ensures err { OnErr result (self.new ≡ self.old) }
    {
        let (pair, rest) = entry_above(self.alloc, self.path.as_ref(), self.rest)?;
        let scope = copy_of(self.scope.as_ref())?;
        let (path, entry) = pair;
        let last = path.try_clone()?;
        self.entries -= 1;
        self.path = Some(last);
        self.rest = rest;
        Ok(Some((Place { scope, path }, entry)))
    }

    // Reads the first entry of the next scope.
    fn first_of_next_scope(&mut self) -> Result<Option<(Place, Entry)>, DecodeFault>
        requires none { self.old.entries ≡ 0 }
        requires some { 0 < self.old.scopes }
        ensures next { IfOk result
            (λ next. Yields next (entries_to_come self.old) (entries_to_come self.new)) }
        ensures fewer { IfOk result
            (λ next. IfSome next (λ _. most_left self.new < most_left self.old)) }
        ensures fault { IfErr result (λ e. Fails e (entries_to_come self.old)) }
        ensures err { OnErr result (self.new ≡ self.old) }
    {
        let (head, inner) = scope_head_of(self.alloc, self.scope.as_ref(), self.rest)?;
        let (pair, rest) = entry_above(self.alloc, None, inner)?;
        let (scope, entries) = head;
        let (path, entry) = pair;
        let last_scope = scope.try_clone()?;
        let last = path.try_clone()?;
        self.scopes -= 1;
        self.scope = Some(last_scope);
        self.entries = entries - 1;
        self.path = Some(last);
        self.rest = rest;
        Ok(Some((Place { scope, path }, entry)))
    }
}

// Returns a copy of the last scope.
fn copy_of(scope: Option<&Scope>) -> Result<Scope, AllocError>
    ensures copy { IfOk result (λ copy. copy ≡ scope_or_fleet (option_copied scope.entry)) }
{
    match scope {
        None => Ok(Scope::Fleet),
        Some(scope) => scope.try_clone(),
    }
}

// Returns whether a scope is above the one before it, if there is one.
fn is_scope_above(last: Option<&Scope>, scope: &Scope) -> bool
    ensures above { result ≡ is_above scope_cmp (option_copied last.entry) scope.now }
{
    match last {
        None => true,
        Some(last) => last.cmp(scope).is_lt(),
    }
}

// Returns whether a path is above the one before it, if there is one.
fn is_path_above(last: Option<&Path>, path: &Path) -> bool
    ensures above { result ≡ is_above path_cmp (option_copied last.entry) path.now }
{
    match last {
        None => true,
        Some(last) => last.cmp(path).is_lt(),
    }
}

/// Reads the scope at the start of bytes, which is above the last one, and how many entries it has, and returns both with
/// the bytes after them. `Host` if it is no host's name, `Order` if it isn't above the last one, `Number` if it has none.
#[tactic(auto, unfolding(crate::specs::Streams::scope_head_at, crate::specs::ListReading::key_above_at))]
pub fn scope_head_of<'a>(
    alloc: Global,
    last: Option<&Scope>,
    bytes: &'a [u8],
) -> Result<((Scope, u64), &'a [u8]), DecodeFault>
    ensures read { Gives (λ x. (x.0, x.1.now)) result
        (scope_head_at (option_copied last.entry) bytes.now) }
{
    let (scope, rest) = scope_of(alloc, bytes)?;
    if !is_scope_above(last, &scope) {
        return Err(DecodeFault::Fault(SpellingFault::Order));
    }
    let (count, rest) = number_of(rest)?;
    if count == 0 {
        return Err(DecodeFault::Fault(SpellingFault::Number));
    }
    Ok(((scope, count), rest))
}

/// Reads the path at the start of bytes, which is above the last one, and its entry, and returns both with the bytes after
/// them. `Path` if it is none, `Order` if it isn't above the last one, `Number` or `Content` if the entry is none.
#[tactic(auto, unfolding(crate::specs::ListReading::pair_above_at, crate::specs::ListReading::key_above_at))]
pub fn entry_above<'a>(
    alloc: Global,
    last: Option<&Path>,
    bytes: &'a [u8],
) -> Result<((Path, Entry), &'a [u8]), DecodeFault>
    ensures read { Gives (λ x. (x.0, x.1.now)) result
        (pair_above_at path_cmp path_at entry_at (option_copied last.entry) bytes.now) }
{
    let (path, rest) = path_of(alloc, bytes)?;
    if !is_path_above(last, &path) {
        return Err(DecodeFault::Fault(SpellingFault::Order));
    }
    let (entry, rest) = entry_of(alloc, rest)?;
    Ok(((path, entry), rest))
}
