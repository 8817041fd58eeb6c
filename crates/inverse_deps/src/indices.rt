//! Indices of names: the positions of a load's names in byte order.
ghost use Rattle.std.specs.{Prelude.{◌≡◌, ◌<◌, IfOk, MatchOption, None, map}, List.{All}};
ghost use Rattle.parallel_load.specs.{Indices.{IsIndexOfMain}, Loads.{main_in}};
ghost use Rattle.inverse_deps.specs.{Edges.{IsUnitIn}, Indices.{IsIndexOf, count_of, name_at}};

use parallel_load::{Loaded, NameLoad};
use sorted_pairs::seek;
use std::alloc::{AllocError, Global};
use unit_name::UnitName;

/// Returns the index of the unit with this main name: its position among all names of the load. None for a name without
/// a unit. O(log n); allocates nothing.
pub fn index_of(loaded: &Loaded, name: &UnitName) -> Option<usize>
    ensures index { MatchOption result (¬ IsUnitIn loaded.now name.now)
        (IsIndexOf loaded.now name.now) }
{
    let names = loaded.names();
    match seek(names, name) {
        Ok(at) => match &names[at].1 {
            NameLoad::Unit(_) => Some(at),
            NameLoad::Alias(_) => None,
        },
        Err(_) => None,
    }
}

/// Returns the index of a name's main name: the position of that name among all names. It is the name of a unit. None for
/// a name outside the universe. One search: O(log n). Allocates nothing.
pub fn main_index(loaded: &Loaded, name: &UnitName) -> Option<usize>
    ensures index { MatchOption result (main_in loaded.now name.now ≡ None)
        (IsIndexOfMain loaded.now name.now) }
{
    let names = loaded.names();
    match seek(names, name) {
        Ok(at) => Some(loaded.main_index_at(at)),
        Err(_) => None,
    }
}

/// Returns the names with these indices. Linear in their number. Fails only if memory runs out.
pub fn names_at(
    alloc: Global,
    loaded: &Loaded,
    indices: &[usize],
) -> Result<Vec<UnitName>, AllocError>
    requires indices { All (λ i. i < count_of loaded.now) indices.now }
    ensures names { IfOk result (λ names. names.items ≡ map (name_at loaded.now) indices.now) }
{
    let names = loaded.names();
    let mut named = Vec::with_capacity(alloc, indices.len())?;
    for index in indices {
        named.push(names[*index].0.try_clone()?)?;
    }
    Ok(named)
}
