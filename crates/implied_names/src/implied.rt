//! All that a unit implies.
ghost use Rattle.std.specs.{List.{filter_map, flat_map}, Prelude.{[], IfOk, OnOk, ◌++◌, ◌∷◌, ◌≡◌}};
ghost use Rattle.implied_names.specs.Implied.{by_kinds, default_names, given_by, implied_names, mounts_of};
ghost use Rattle.unit_values.specs.Defaults.{has_defaults as has_defaults_by};
ghost use Rattle.implied_names.specs.{Sources.{found_by, names_from}, Tables.{kinds_of}};
ghost use Rattle.unit_values.specs.Named.{named};

use crate::needed_paths::NeededPaths;
use crate::roles::Role;
use crate::sources::Source;
use crate::tables::{Ways, default_table, implied_table};
use crate::unit_facts::Facts;
use plain_values::Items;
use setting_rules::{DepKind, Row, in_byte_order};
use std::alloc::{AllocError, Global};
use unit_name::UnitName;
use unit_values::named;

// Room for as many names as most units imply.
const USUAL: usize = 12;

/// What a unit implies.
#[derive(Drop)]
pub struct Implied {
    /// The names of units that it implies, each with the kind of the dependency, in the order of the tables. Names may be
    /// there more than once.
    pub names: Items<(DepKind, UnitName)>,
    /// Whether it has default dependencies.
    pub has_defaults: bool,
    /// The mounts of its paths and of all above them, in byte order. It comes after those of them that are units.
    pub mounts: Items<UnitName>,
}

impl Implied {
    /// Returns what a loaded unit implies, by its name and its effective values (`values`). Fails only if memory runs
    /// out.
    ///
    /// Asks for some ten values, each by one pass over the rows, and makes as many names as it returns.
    #[tactic(auto, unfolding(crate::specs::Implied::mounts_of))]
    pub fn of(alloc: Global, unit: &UnitName, rows: &[Row]) -> Result<Implied, AllocError>
        ensures names { IfOk result
            (λ it. it.names ≡ implied_names (record { unit = unit.now; rows = rows.now })) }
        ensures defaults { IfOk result
            (λ it. it.has_defaults
            ≡ has_defaults_by (record { unit = unit.now; rows = rows.now })) }
        ensures mounts { IfOk result
            (λ it. it.mounts ≡ mounts_of (record { unit = unit.now; rows = rows.now })) }
    {
        let facts = Facts::of(alloc, unit, rows)?;
        let has_defaults = facts.has_defaults();
        let names = names_of(alloc, &facts)?;
        let needed = NeededPaths::of(alloc, &facts)?;
        Ok(Implied {
            names: Items::from_vec(names),
            has_defaults,
            mounts: in_byte_order(needed.into_mounts()?),
        })
    }
}

// Returns the names that the tables give.
#[tactic(auto, unfolding(crate::specs::Implied::implied_names))]
fn names_of(alloc: Global, facts: &Facts) -> Result<Vec<(DepKind, UnitName)>, AllocError>
    ensures names { IfOk result (λ names. names.items ≡ implied_names facts.now) }
{
    let mut names = Vec::with_capacity(alloc, USUAL)?;
    add_table(alloc, facts, implied_table(), &mut names)?;
    add_defaults(alloc, facts, &mut names)?;
    Ok(names)
}

// Adds the names of a unit with default dependencies.
fn add_defaults(
    alloc: Global,
    facts: &Facts,
    names: &mut Vec<(DepKind, UnitName)>,
) -> Result<(), AllocError>
    ensures added { OnOk result (names.new.items ≡ names.old.items ++ default_names facts.now) }
{
    if facts.has_defaults() {
        add_table(alloc, facts, default_table(), names)?;
    }
    Ok(())
}

// Adds the names that a table gives.
fn add_table(
    alloc: Global,
    facts: &Facts,
    table: &[(Role, Ways, Source)],
    names: &mut Vec<(DepKind, UnitName)>,
) -> Result<(), AllocError>
    ensures added { OnOk result
        (names.new.items ≡ names.old.items ++ flat_map (given_by facts.now) table.now) }
{
    for (role, ways, source) in table {
        if facts.has_role(alloc, *role)? {
            add_names(alloc, facts, *ways, *source, names)?;
        }
    }
    Ok(())
}

// Adds the names that a source gives, by some kinds.
fn add_names(
    alloc: Global,
    facts: &Facts,
    ways: Ways,
    source: Source,
    names: &mut Vec<(DepKind, UnitName)>,
) -> Result<(), AllocError>
    ensures added { OnOk result
        (names.new.items
        ≡ names.old.items ++ flat_map (by_kinds (kinds_of ways)) (names_from facts.now source)) }
{
    match source.fixed_name() {
        Some(text) => add_text(alloc, facts.unit(), ways.kinds(), text, names),
        None => add_texts(alloc, facts, ways.kinds(), source, names),
    }
}

// Adds the units that a source finds, by some kinds.
fn add_texts(
    alloc: Global,
    facts: &Facts,
    kinds: &[DepKind],
    source: Source,
    names: &mut Vec<(DepKind, UnitName)>,
) -> Result<(), AllocError>
    ensures added { OnOk result
        (names.new.items ≡ names.old.items ++ flat_map (by_kinds kinds.now)
        (filter_map (named facts.now.unit) (found_by facts.now source))) }
{
    for text in facts.found(alloc, source)? {
        add_text(alloc, facts.unit(), kinds, &text, names)?;
    }
    Ok(())
}

// Adds the unit that a unit means by a text, by some kinds, if it is a name.
fn add_text(
    alloc: Global,
    unit: &UnitName,
    kinds: &[DepKind],
    text: &[u8],
    names: &mut Vec<(DepKind, UnitName)>,
) -> Result<(), AllocError>
    ensures added { OnOk result
        (names.new.items ≡ names.old.items ++ flat_map (by_kinds kinds.now)
        (filter_map (named unit.now) (text.now ∷ []))) }
{
    match named(alloc, unit, text)? {
        Some(name) => add_by(kinds, &name, names),
        None => Ok(()),
    }
}

// Adds a name by some kinds.
fn add_by(
    kinds: &[DepKind],
    name: &UnitName,
    names: &mut Vec<(DepKind, UnitName)>,
) -> Result<(), AllocError>
    ensures added { OnOk result (names.new.items ≡ names.old.items ++ by_kinds kinds.now name.now) }
{
    for kind in kinds {
        names.push((*kind, name.try_clone()?))?;
    }
    Ok(())
}
