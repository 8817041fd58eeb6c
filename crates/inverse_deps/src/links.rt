//! The edges from each unit by index: its own dependencies, and the reverse of those on it.
ghost use Rattle.std.specs.{Prelude.{◌≡◌, ◌<◌, IfOk, OnOk, length}, List.{All}};
ghost use Rattle.inverse_deps.specs.{Links.{AreFoundIn, AreTransposedIn, links_in}, Rows.{AreWithin}};

use parallel_load::Dependency;
use plain_values::{Items, Shared};
use std::alloc::{AllocError, Global};

// For each row the edges from its unit: each dependency is listed at its unit, and its reverse at the unit that it is
// on. O(n + m), for n rows with m dependencies.
pub(crate) fn links_of(
    alloc: Global,
    rows: &[Shared<Items<Dependency>>],
) -> Result<Vec<Vec<Dependency>>, AllocError>
    requires within { AreWithin (length rows.now) rows.now }
    ensures links { IfOk result
        (λ links. AreFoundIn rows.now (length rows.now) (links_in links.items)) }
{
    let mut links = own_links(alloc, rows)?;
    for (from, deps) in rows.iter().enumerate() {
        add_transposed(&mut links, deps.get().as_slice(), from)?;
    }
    Ok(links)
}

// Copies each unit's own dependencies, with room for those on it.
fn own_links(
    alloc: Global,
    rows: &[Shared<Items<Dependency>>],
) -> Result<Vec<Vec<Dependency>>, AllocError>
    ensures links { IfOk result (λ links. links_in links.items ≡ rows.now) }
{
    let counts = counts_on(alloc, rows)?;
    let mut links = Vec::with_capacity(alloc, rows.len())?;
    for (index, deps) in rows.iter().enumerate() {
        links.push(neighbors_of(alloc, deps.get().as_slice(), counts[index])?)?;
    }
    Ok(links)
}

// Copies dependencies, with room for this many more.
fn neighbors_of(
    alloc: Global,
    deps: &[Dependency],
    more: usize,
) -> Result<Vec<Dependency>, AllocError>
    ensures neighbors { IfOk result (λ neighbors. neighbors.items ≡ deps.now) }
{
    let mut neighbors = Vec::with_capacity(alloc, deps.len().saturating_add(more))?;
    neighbors.extend_from_slice(deps)?;
    Ok(neighbors)
}

// How many dependencies are on each unit, by its index.
fn counts_on(alloc: Global, rows: &[Shared<Items<Dependency>>]) -> Result<Vec<usize>, AllocError>
    ensures one_each { IfOk result (λ counts. length counts.items ≡ length rows.now) }
{
    let mut counts: Vec<usize> = vec![in alloc; 0; rows.len()]?;
    for deps in rows {
        count_on(&mut counts, deps.get().as_slice());
    }
    Ok(counts)
}

// Adds dependencies to the counts of the units that they are on.
fn count_on(counts: &mut Vec<usize>, deps: &[Dependency])
    ensures one_each { length counts.new.items ≡ length counts.old.items }
{
    for dep in deps {
        if let Some(count) = counts.get_mut(dep.index) {
            *count = count.saturating_add(1);
        }
    }
}

// Adds the reverse of a unit's dependencies to the lists of the units that they are on.
fn add_transposed(
    links: &mut Vec<Vec<Dependency>>,
    deps: &[Dependency],
    from: usize,
) -> Result<(), AllocError>
    requires within { All (λ dep. dep.index < length links.old.items) deps.now }
    ensures added { OnOk result
        (AreTransposedIn (links_in links.old.items) deps.now from (links_in links.new.items)) }
{
    for dep in deps {
        links[dep.index].push(Dependency {
            kind: dep.kind.inverse(),
            index: from,
        })?;
    }
    Ok(())
}
