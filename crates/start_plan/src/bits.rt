//! What is known of units, as bit sets.
ghost use Rattle.std.specs.Prelude.{◌≡◌, ◌↔◌, ◌<◌, ◌⊎◌, ℕ, IfOk, length};
ghost use Rattle.list_laws.specs.Members.{IsAmong};
ghost use Rattle.index_rows.specs.Adjacency.{IsMember};
ghost use Rattle.parallel_load.specs.Loads.{unit_part};
ghost use Rattle.inverse_deps.specs.Indices.{count_of};
ghost use Rattle.unit_graph.specs.Graphs.{IsIndexFor};
ghost use Rattle.start_plan.specs.{Requests.{is_loaded, is_manual, is_perpetual_by}, Bits.{AreBitsBy}};

use index_rows::empty_bits;
use parallel_load::{Loaded, NameLoad};
use profiles::Profile;
use std::alloc::{AllocError, Global};
use unit_graph::IndexedGraph;
use unit_name::UnitName;
use unit_values::is_perpetual;

// The sets of the units that are loaded, of those that refuse to be started by hand, and of those that for a manager always
// run.
#[derive(Drop)]
pub(crate) struct StatusBits {
    pub(crate) loaded: Vec<bool>,
    pub(crate) manual: Vec<bool>,
    pub(crate) perpetual: Vec<bool>,
}

// The sets that the units' statuses give. O(n).
pub(crate) fn status_bits(alloc: Global, load: &Loaded) -> Result<StatusBits, AllocError>
    ensures loaded { IfOk result (λ bits. AreBitsBy load.now is_loaded bits.loaded.items) }
    ensures manual { IfOk result (λ bits. AreBitsBy load.now is_manual bits.manual.items) }
    ensures perpetual { IfOk result
        (λ bits. AreBitsBy load.now
        (is_perpetual_by load.now.viewer.profile) bits.perpetual.items) }
{
    let profile = load.viewer().profile;
    let names = load.names();
    let mut loaded = Vec::new(alloc);
    let mut manual = Vec::new(alloc);
    let mut perpetual = Vec::new(alloc);
    for index in 0..names.len() {
        let one = &names[index].1;
        loaded.push(is_loaded(one))?;
        manual.push(is_manual(one))?;
        perpetual.push(is_perpetual_by(profile, one))?;
    }
    Ok(StatusBits {
        loaded,
        manual,
        perpetual,
    })
}

// Whether a name has a unit of its own, and it is loaded.
fn is_loaded(load: &NameLoad) -> bool
    ensures loaded { result ≡ is_loaded (unit_part load.now) }
{
    match load {
        NameLoad::Unit(unit) => unit.get().status.is_loaded(),
        NameLoad::Alias(_) => false,
    }
}

// Whether a name has a unit of its own, and it refuses to be started by hand.
fn is_manual(load: &NameLoad) -> bool
    ensures manual { result ≡ is_manual (unit_part load.now) }
{
    match load {
        NameLoad::Unit(unit) => unit.get().manual,
        NameLoad::Alias(_) => false,
    }
}

// Whether a name has a unit of its own, and for a manager that always runs.
fn is_perpetual_by(profile: Profile, load: &NameLoad) -> bool
    ensures perpetual { result ≡ is_perpetual_by profile (unit_part load.now) }
{
    match (profile, load) {
        (Profile::Manager, NameLoad::Unit(unit)) => is_perpetual(&unit.get().name),
        _ => false,
    }
}

// The set of what is in one set or another.
pub(crate) fn either(alloc: Global, bits: &[bool], others: &[bool]) -> Result<Vec<bool>, AllocError>
    requires units { length others.now ≡ length bits.now }
    ensures units { IfOk result (λ all. length all.items ≡ length bits.now) }
    ensures members { IfOk result
        (λ all. (i : ℕ) → IsMember all.items i ↔ (IsMember bits.now i ⊎ IsMember others.now i)) }
{
    let mut all = Vec::new(alloc);
    for (index, is_member) in bits.iter().enumerate() {
        all.push(*is_member || others[index])?;
    }
    Ok(all)
}

// The set of the units that names resolve to.
pub(crate) fn named_bits(
    alloc: Global,
    graph: &IndexedGraph,
    names: &[UnitName],
) -> Result<Vec<bool>, AllocError>
    ensures units { IfOk result (λ bits. length bits.items ≡ count_of graph.now.load) }
    ensures bits { IfOk result (λ bits. (i : ℕ) → IsMember bits.items i
        ↔ ((n : _) × IsAmong n names.now × IsIndexFor graph.now.load n i)) }
{
    let mut bits = empty_bits(alloc, graph.loaded().names().len())?;
    for name in names {
        if let Some(index) = graph.index(name) {
            bits[index] = true;
        }
    }
    Ok(bits)
}
