//! The entries of a store by scope, appended to bytes.
ghost use Rattle.std.specs.{List.{AllByRecursion}, Option.{IfSome, IsNone}, Prelude.{[], OnOk, flat_map, length, ◌++◌, ◌≡◌, ◌≤◌}};
ghost use Rattle.load_path.specs.Paths.{IsPath};
ghost use Rattle.store_bytes.specs.{ListSpelling.{pair, pairs}, Parts.{by_path, leading, parted}, PartingLaws.{AreFit}, Spelling.{entry, IsEntry, path, scope}};
ghost use Rattle.store_bytes.specs.Scopes.{IsFirstScope};

use crate::writing::{put_entry, put_path, put_scope};
use byte_fields::put_number;
use edit_sums::Entry;
use load_places::{Place, Scope};
use std::alloc::AllocError;

// Appends entries in place order, by scope: each scope with its entries by path.
pub(crate) fn put_scopes(out: &mut Vec<u8>, list: &[(Place, Entry)]) -> Result<(), AllocError>
    ensures written { OnOk result
        (out.new.items ≡ out.old.items ++ pairs scope (pairs path entry) (parted list.now)) }
    ensures fits { OnOk result (AreFit (parted list.now)) }
{
    put_number(out, count_scopes(list))?;
    put_each(out, list)
}

// How many scopes the entries have.
fn count_scopes(list: &[(Place, Entry)]) -> u64
    ensures count { result ≡ length (parted list.now) }
{
    let mut count = 0;
    let mut start = 0;
    while start < list.len() {
        start += leading_of(&list[start..], &list[start].0.scope);
        count += 1;
    }
    count
}

// Appends each scope with its entries.
fn put_each(out: &mut Vec<u8>, list: &[(Place, Entry)]) -> Result<(), AllocError>
    ensures written { OnOk result
        (out.new.items
        ≡ out.old.items ++ flat_map (pair scope (pairs path entry)) (parted list.now)) }
    ensures fits { OnOk result (AreFit (parted list.now)) }
{
    let mut rest = list;
    while let Some((own, others)) = first_scope(rest) {
        put_scope(out, &own[0].0.scope)?;
        put_entries(out, own)?;
        rest = others;
    }
    Ok(())
}

// Appends entries of one scope by path.
fn put_entries(out: &mut Vec<u8>, own: &[(Place, Entry)]) -> Result<(), AllocError>
    ensures written { OnOk result
        (out.new.items ≡ out.old.items ++ pairs path entry (by_path own.now)) }
    ensures fits { OnOk result (AllByRecursion (λ p. IsPath p.0 × IsEntry p.1) (by_path own.now)) }
{
    put_number(out, own.len() as u64)?;
    for (place, one) in own {
        put_path(out, &place.path)?;
        put_entry(out, one)?;
    }
    Ok(())
}

// Splits entries after those of the first scope. None if there are no entries.
fn first_scope(list: &[(Place, Entry)]) -> Option<(&[(Place, Entry)], &[(Place, Entry)])>
    ensures none { IsNone result → parted list.now ≡ [] }
    ensures some { IfSome result (λ parts. IsFirstScope list.now parts.0.now parts.1.now) }
{
    let (first, _) = list.first()?;
    Some(list.split_at(leading_of(list, &first.scope)))
}

// How many of the first entries are of a scope.
fn leading_of(list: &[(Place, Entry)], scope: &Scope) -> usize
    ensures count { result ≡ leading scope.now list.now }
    ensures within { result ≤ length list.now }
{
    for (index, (place, _)) in list.iter().enumerate() {
        if *scope != place.scope {
            return index;
        }
    }
    list.len()
}
