//! Cursors over nested maps, by scope, rank, folder and name: each entry with what is held beside it.
ghost use Rattle.std.specs.{Prelude.{◌≡◌, ◌∷◌, [], List}, List.{flat_map}, Ordering.{nat_cmp}};
ghost use Rattle.std.specs.declared.cmp.Ordering.TheVariants.{Less};
ghost use Rattle.load_path.specs.Paths.{IsPath};
ghost use Rattle.load_places.specs.Places.{PlaceParts, scope_cmp};
ghost use Rattle.edit_sums.specs.Entries.{Entry};
ghost use Rattle.path_maps.specs.Cursors.{held_at_path, folders_read, IsHeldAt, left_of, names_read, scope_read};
ghost use Rattle.path_maps.specs.PathMaps.{at_name, bytes_cmp, in_folder, in_rank, listed};
ghost use Rattle.path_maps.specs.{Folders.{path_at}, Kept.{HasWellFormedPaths}, PlaceMaps.{all_listed}, Spread.{AllKeys}, Zipped.{zipped}};

use crate::cursors::{Cursor, Nested};
use crate::entries::PathEntry;
use crate::folders::{FolderMap, NameMap};
use crate::levels::{Level, Pair, Reading};
use crate::others::OtherMap;
use crate::places::Placed;
use crate::stores::{RankMap, ScopeMap};
use edit_sums::Content;
use join_law::Versioned;
use join_maps::Pairs;
use load_places::Scope;
use plain_values::Bytes;
use std::marker::Model;

/// A cursor over the names of a folder.
pub type Names<'a, N> = Level<Pairs<'a, Bytes, Versioned<Content>>, InFolder<'a, N>>;

/// A cursor over the folders of a rank.
pub type Folders<'a, F> = Level<Pairs<'a, Bytes, NameMap>, InRank<F>>;

/// A cursor over ranks.
pub type Ranks<'a, R> = Level<Pairs<'a, u8, FolderMap>, InRanks<R>>;

/// A cursor over the entries of all ranks, in path order.
pub type Paths<'a, N, F, R> = Nested<Names<'a, N>, Nested<Folders<'a, F>, Ranks<'a, R>>>;

/// Reads the names of a folder.
#[derive(Drop)]
pub struct InFolder<'a, N> {
    rank: usize,
    folder: &'a Bytes,
    others: N,
}

impl<'a, N: OtherMap<Bytes>> Reading<Pair<'a, Bytes, Versioned<Content>>> for InFolder<'a, N> {
    type Read = (PathEntry<'a>, N::Held);

    ghost can = { λ s p. IsHeldAt (path_at s.rank s.folder.now p.0) p.1 };

    ghost before = { λ p q. bytes_cmp p.0 q.0 ≡ Less };

    ghost part = { λ s p. zipped (λ _. N.held s.others p.0) (at_name s.rank s.folder.now p.0 p.1) };

    #[inline(always)]
    fn read(&mut self, item: Pair<'a, Bytes, Versioned<Content>>) -> (PathEntry<'a>, N::Held) {
        let Pair { key: name, value } = item;
        let Some(entry) = value.entry() else {
            unreachable!()
        };
        let entry = PathEntry::new(self.rank, self.folder, name, entry);
        (entry, self.others.meet(name))
    }
}

/// Reads the folders of a rank.
#[derive(Drop)]
pub struct InRank<F> {
    rank: usize,
    others: F,
}

impl<'a, N: OtherMap<Bytes>, F: OtherMap<Bytes, Held = N>> Reading<Pair<'a, Bytes, NameMap>>
    for InRank<F> {
    type Read = Names<'a, N>;

    ghost can = { λ s p. AllKeys IsPath (in_folder s.rank p.0 p.1) };

    ghost before = { λ p q. bytes_cmp p.0 q.0 ≡ Less };

    ghost part = { λ s p. names_read (N.held (F.held s.others p.0)) s.rank p.0 p.1 ∷ [] };

    #[inline(always)]
    fn read(&mut self, item: Pair<'a, Bytes, NameMap>) -> Names<'a, N> {
        names_of(self.rank, item.key, item.value, self.others.meet(item.key))
    }
}

/// Reads all ranks.
#[derive(Drop)]
pub struct InRanks<R> {
    others: R,
}

impl<'a, N: OtherMap<Bytes>, F: OtherMap<Bytes, Held = N>, R: OtherMap<u8, Held = F>> Reading<
    Pair<'a, u8, FolderMap>,
> for InRanks<R> {
    type Read = Folders<'a, F>;

    ghost can = { λ _ p. AllKeys IsPath (in_rank p.0 p.1) };

    ghost before = { λ p q. nat_cmp p.0 q.0 ≡ Less };

    ghost part = { λ s p. folders_read (λ f. N.held (F.held (R.held s.others p.0) f)) p.0 p.1
        ∷ [] };

    #[inline(always)]
    fn read(&mut self, item: Pair<'a, u8, FolderMap>) -> Folders<'a, F> {
        let others = self.others.meet(item.key);
        let rank = *item.key as usize;
        let left = item.value.pairs();
        Level::new(left, InRank { rank, others })
    }
}

/// Returns a cursor over the names of a folder with valid paths.
#[inline(always)]
pub fn names_of<'a, N: OtherMap<Bytes>>(
    rank: usize,
    folder: &'a Bytes,
    names: &'a NameMap,
    others: N,
) -> Names<'a, N>
    requires paths { AllKeys IsPath (in_folder rank folder.now names.now) }
    ensures names { result ≡ names_read (N.held others) rank folder.now names.now }
{
    let left = names.pairs();
    let reading = InFolder {
        rank,
        folder,
        others,
    };
    Level::new(left, reading)
}

/// Returns a cursor over the entries of nested maps with valid paths.
pub fn paths_of<'a, N: OtherMap<Bytes>, F: OtherMap<Bytes, Held = N>, R: OtherMap<u8, Held = F>>(
    ranks: &'a RankMap,
    others: R,
) -> Paths<'a, N, F, R>
    requires paths { AllKeys IsPath (listed ranks.now) }
    ensures entries { left_of result.inner (left_of result.outer.inner result.outer.outer)
        ≡ zipped (held_at_path (λ r f. N.held (F.held (R.held others r) f))) (listed ranks.now) }
{
    let left = ranks.pairs();
    Nested {
        inner: None,
        outer: Nested {
            inner: None,
            outer: Level::new(left, InRanks { others }),
        },
    }
}

/// A cursor over scopes.
pub type Scopes<'a, S> = Level<Pairs<'a, Scope, RankMap>, InScopes<S>>;

/// A cursor over the entries of all scopes, in place order.
pub type Places<'a, N, F, R, S> = Nested<InScope<'a, N, F, R>, Scopes<'a, S>>;

/// A cursor over the entries of a scope.
#[derive(Drop)]
pub struct InScope<
    'a,
    N: OtherMap<Bytes>,
    F: OtherMap<Bytes, Held = N>,
    R: OtherMap<u8, Held = F>,
> {
    scope: &'a Scope,
    entries: Paths<'a, N, F, R>,
}

impl<'a, N: OtherMap<Bytes>, F: OtherMap<Bytes, Held = N>, R: OtherMap<u8, Held = F>> Model
    for InScope<'a, N, F, R> {
    ghost Value = { List ((PlaceParts × Entry) × N.Held) };

    ghost view = { λ s. scope_read s.scope.now
        (left_of s.entries.inner (left_of s.entries.outer.inner s.entries.outer.outer)) };
}

impl<'a, N: OtherMap<Bytes>, F: OtherMap<Bytes, Held = N>, R: OtherMap<u8, Held = F>> Cursor
    for InScope<'a, N, F, R> {
    type Item = (Placed<'a>, N::Held);

    ghost left = { λ s. s };

    #[inline(always)]
    fn next(&mut self) -> Option<(Placed<'a>, N::Held)> {
        let (entry, held) = self.entries.next()?;
        let scope = self.scope;
        Some((Placed::new(scope, entry), held))
    }
}

/// Reads all scopes.
#[derive(Drop)]
pub struct InScopes<S> {
    others: S,
}

impl<
    'a,
    N: OtherMap<Bytes>,
    F: OtherMap<Bytes, Held = N>,
    R: OtherMap<u8, Held = F>,
    S: OtherMap<Scope, Held = R>,
> Reading<Pair<'a, Scope, RankMap>> for InScopes<S> {
    type Read = InScope<'a, N, F, R>;

    ghost can = { λ _ p. AllKeys IsPath (listed p.1) };

    ghost before = { λ p q. scope_cmp p.0 q.0 ≡ Less };

    ghost part = { λ s p. scope_read p.0
        (zipped (held_at_path (λ r f. N.held (F.held (R.held (S.held s.others p.0) r) f)))
        (listed p.1)) ∷ [] };

    #[inline(always)]
    fn read(&mut self, item: Pair<'a, Scope, RankMap>) -> InScope<'a, N, F, R> {
        let scope = item.key;
        let others = self.others.meet(scope);
        let entries = paths_of(item.value, others);
        InScope { scope, entries }
    }
}

/// Returns a cursor over the entries of nested maps with valid paths.
pub fn places_of<
    'a,
    N: OtherMap<Bytes>,
    F: OtherMap<Bytes, Held = N>,
    R: OtherMap<u8, Held = F>,
    S: OtherMap<Scope, Held = R>,
>(scopes: &'a ScopeMap, others: S) -> Places<'a, N, F, R, S>
    requires paths { HasWellFormedPaths scopes.now }
    ensures entries { left_of result.inner result.outer
        ≡ zipped
        (λ q. N.held (F.held (R.held (S.held others q.scope) q.path.rank) q.path.folder)
        q.path.name) (all_listed scopes.now) }
{
    let left = scopes.pairs();
    Nested {
        inner: None,
        outer: Level::new(left, InScopes { others }),
    }
}
