//! A cursor over the paths at which a host's own places or the fleet's show something, each with what both show.
ghost use Rattle.std.specs.{Prelude.{◌≡◌, ◌∷◌, [], IfOk, MatchOption, Some}, Option.{option_copied}};
ghost use Rattle.load_places.specs.declared.places.Scope.TheVariants.{Fleet};
ghost use Rattle.std.specs.FinMap as finmap;
ghost use Rattle.host_trees.specs.Merged.{merged, content_of, of_both, only_fleets, only_own, pair_of, seen_in, standing_of, tree_of};
ghost use Rattle.host_trees.specs.Merged as specs;
ghost use Rattle.host_trees.specs.Trees.{standing};

use crate::parts::counts;
use replica_store::{Content, Entries, Path, Placed, Scope, Store};
use std::alloc::{AllocError, Global};
use std::cmp::Ordering;
use std::marker::Model;

// A path, and the content that is visible there in a scope.
struct Seen<'a> {
    path: Path,
    content: &'a Content,
}

impl<'a> Drop for Seen<'a> {
    fn drop(self) {
        let Seen {
            path: _,
            content: _,
        } = self;
    }
}

impl<'a> Model for Seen<'a> {
    ghost Value = { specs.Seen };

    ghost view = { λ s. (s.path, s.content.now) };
}

impl<'a> Seen<'a> {
    // Returns its path and its content.
    fn into_parts(self) -> (Path, &'a Content)
        ensures path { result.0 ≡ self.entry.0 }
        ensures content { result.1.now ≡ self.entry.1 }
    {
        let Seen { path, content } = self;
        (path, content)
    }
}

// A path, and what a host's own place and the fleet's show there.
pub(crate) struct MergedPath<'a> {
    path: Path,
    own: Option<&'a Content>,
    fleets: Option<&'a Content>,
}

impl<'a> Drop for MergedPath<'a> {
    fn drop(self) {
        let MergedPath {
            path: _,
            own: _,
            fleets: _,
        } = self;
    }
}

impl<'a> Model for MergedPath<'a> {
    ghost Value = { specs.Merged };

    ghost view = { λ b. (b.path, (option_copied b.own, option_copied b.fleets)) };
}

impl<'a> MergedPath<'a> {
    // Returns a path at which only the host's own place shows something.
    fn of_own(own: Seen<'a>) -> Self
        ensures merged { result ≡ only_own own.entry }
    {
        let (path, content) = own.into_parts();
        MergedPath {
            path,
            own: Some(content),
            fleets: None,
        }
    }

    // Returns a path at which only the fleet's place shows something.
    fn of_fleet(fleets: Seen<'a>) -> Self
        ensures merged { result ≡ only_fleets fleets.entry }
    {
        let (path, content) = fleets.into_parts();
        MergedPath {
            path,
            own: None,
            fleets: Some(content),
        }
    }

    // Returns a path at which both places show something.
    fn of_both(own: Seen<'a>, fleets: &Seen<'a>) -> Self
        ensures merged { result ≡ of_both own.entry fleets.now }
    {
        let (path, content) = own.into_parts();
        MergedPath {
            path,
            own: Some(content),
            fleets: Some(fleets.content),
        }
    }

    // Returns what stands at the path. Fails only if memory runs out.
    #[tactic(auto, using(crate::specs::TreeLaws::own_stands, crate::specs::TreeLaws::fleets_stand))]
    fn standing(&self, alloc: Global) -> Result<Option<&'a Content>, AllocError>
        ensures standing { IfOk result (λ stands. option_copied stands ≡ standing_of self.now) }
    {
        match (self.own, self.fleets) {
            (Some(own), Some(fleets)) => Ok(Some(first_counting(alloc, &self.path, own, fleets)?)),
            (Some(own), None) => Ok(Some(own)),
            (None, fleets) => Ok(fleets),
        }
    }

    // Returns the path with a copy of what stands there, which shares its bytes. Fails only if memory runs out.
    fn into_pair(self, alloc: Global) -> Result<Option<(Path, Content)>, AllocError>
        ensures pair { IfOk result (λ pair. pair ≡ pair_of self.entry) }
    {
        let stands = self.standing(alloc)?;
        let MergedPath {
            path,
            own: _,
            fleets: _,
        } = self;
        match stands {
            Some(content) => Ok(Some((path, content.try_clone()?))),
            None => Ok(None),
        }
    }
}

// Returns the host's own content, unless it is passed over and the fleet's isn't. Fails only if memory runs out.
fn first_counting<'a>(
    alloc: Global,
    path: &Path,
    own: &'a Content,
    fleets: &'a Content,
) -> Result<&'a Content, AllocError>
    ensures first { IfOk result
        (λ stands. Some stands.now ≡ standing path.now (Some own.now) (Some fleets.now)) }
{
    if counts(alloc, path, own)? {
        return Ok(own);
    }
    if counts(alloc, path, fleets)? {
        return Ok(fleets);
    }
    Ok(own)
}

/// A cursor over the paths at which a host's own places or the fleet's show something, in path order.
///
/// Goes through all entries of the store twice: once for the host's own places, and once for the fleet's.
pub(crate) struct MergedPaths<'a> {
    // The host's own scope, if there is a host.
    scope: Option<&'a Scope>,
    // The next path of each side, and the entries after it. Where there is no next path, nothing is left.
    own: Option<Seen<'a>>,
    fleets: Option<Seen<'a>>,
    own_left: Entries<'a>,
    fleets_left: Entries<'a>,
}

impl<'a> Drop for MergedPaths<'a> {
    fn drop(self) {
        let MergedPaths {
            scope: _,
            own: _,
            fleets: _,
            own_left: _,
            fleets_left: _,
        } = self;
    }
}

impl<'a> Model for MergedPaths<'a> {
    ghost use Rattle.std.specs.{Prelude.{List, Some}, Option.{option_copied}};
    ghost use Rattle.load_places.specs.declared.places.Scope.TheVariants.{Fleet};
    ghost use Rattle.path_maps.specs.Together.{from_first};
    ghost use Rattle.host_trees.specs.Merged.{Merged, merged, seen_in};

    ghost Value = { List Merged };

    ghost view = { λ s. merged (from_first s.own (seen_in (option_copied s.scope) s.own_left))
        (from_first s.fleets (seen_in (Some Fleet) s.fleets_left)) };
}

impl<'a> MergedPaths<'a> {
    // Returns a cursor over the paths of a store. Fails only if memory runs out.
    pub(crate) fn of(store: &'a Store, scope: Option<&'a Scope>) -> Result<Self, AllocError>
        ensures merged { IfOk result
            (λ paths. paths
            ≡ merged (seen_in (option_copied scope.entry) (finmap.entries store.now))
            (seen_in (Some Fleet) (finmap.entries store.now))) }
    {
        let mut own_left = store.entries();
        let mut fleets_left = store.entries();
        Ok(MergedPaths {
            scope,
            own: next_seen(&mut own_left, scope)?,
            fleets: next_seen(&mut fleets_left, Some(&Scope::Fleet))?,
            own_left,
            fleets_left,
        })
    }

    // Takes the next path, if one is left. Fails only if memory runs out.
    fn next_merged(&mut self) -> Result<Option<MergedPath<'a>>, AllocError>
        ensures first { IfOk result
            (λ next. MatchOption next ((self.old ≡ []) × (self.new ≡ []))
            (λ it. self.old ≡ it ∷ self.new)) }
    {
        match (self.own.take(), self.fleets.take()) {
            (None, None) => Ok(None),
            (Some(own), None) => {
                self.own = next_seen(&mut self.own_left, self.scope)?;
                Ok(Some(MergedPath::of_own(own)))
            }
            (None, Some(fleets)) => {
                self.fleets = next_seen(&mut self.fleets_left, Some(&Scope::Fleet))?;
                Ok(Some(MergedPath::of_fleet(fleets)))
            }
            (Some(own), Some(fleets)) => match own.path.cmp(&fleets.path) {
                Ordering::Less => {
                    self.own = next_seen(&mut self.own_left, self.scope)?;
                    self.fleets = Some(fleets);
                    Ok(Some(MergedPath::of_own(own)))
                }
                Ordering::Equal => {
                    self.own = next_seen(&mut self.own_left, self.scope)?;
                    self.fleets = next_seen(&mut self.fleets_left, Some(&Scope::Fleet))?;
                    Ok(Some(MergedPath::of_both(own, &fleets)))
                }
                Ordering::Greater => {
                    self.own = Some(own);
                    self.fleets = next_seen(&mut self.fleets_left, Some(&Scope::Fleet))?;
                    Ok(Some(MergedPath::of_fleet(fleets)))
                }
            },
        }
    }

    // Returns the paths that are left, each with what stands there. Fails only if memory runs out.
    pub(crate) fn tree(mut self, alloc: Global) -> Result<Vec<(Path, Content)>, AllocError>
        ensures tree { IfOk result (λ tree. tree.items ≡ tree_of self.entry) }
    {
        let mut tree = Vec::new(alloc);
        while let Some(merged) = self.next_merged()? {
            if let Some(pair) = merged.into_pair(alloc)? {
                tree.push(pair)?;
            }
        }
        Ok(tree)
    }
}

// Takes entries up to the next one that shows something of the scope, if there is a scope. Fails only if memory runs out.
fn next_seen<'a>(
    entries: &mut Entries<'a>,
    scope: Option<&Scope>,
) -> Result<Option<Seen<'a>>, AllocError>
    ensures first { IfOk result
        (λ next. MatchOption next
        ((seen_in (option_copied scope.entry) entries.old ≡ [])
        × (seen_in (option_copied scope.entry) entries.new ≡ []))
        (λ seen. seen_in (option_copied scope.entry) entries.old
        ≡ seen ∷ seen_in (option_copied scope.entry) entries.new)) }
{
    while let Some(placed) = entries.next_entry() {
        if let Some(content) = content_of(scope, &placed) {
            let (_, path) = placed.place()?.into_parts();
            return Ok(Some(Seen { path, content }));
        }
    }
    Ok(None)
}

// Returns what an entry shows, if it is of this scope.
fn content_of<'a>(scope: Option<&Scope>, placed: &Placed<'a>) -> Option<&'a Content>
    ensures content { option_copied result ≡ content_of (option_copied scope.entry) placed.now }
{
    if scope? == placed.scope() {
        placed.visible()
    } else {
        None
    }
}
