//! How loads and units are written.
use crate::loads::edits::Done;
use parallel_load::{LoadFault, Loaded, NameLoad, Status, Unit};
use replica_store::Place;
use start_plan::Plan;
use unit_name::UnitName;
use worked_lines::{Answer, LineFault};

// Writes the names of a load, each with the main name of which it is an alias.
fn append_loads(out: &mut Answer, names: &[(UnitName, NameLoad)]) {
    for (name, load) in names {
        out.write(b" ");
        out.write(name.bytes());
        if let NameLoad::Alias(main) = load {
            out.write(b">");
            out.write(main.bytes());
        }
    }
}

// Writes the names of units.
fn append_units(out: &mut Answer, units: &[&Unit]) {
    for unit in units {
        out.write(b" ");
        out.write(unit.name.bytes());
    }
}

/// Writes for which host the load is, if for one, what was asked for, all names with what they stand for, and the units.
pub fn append_load(out: &mut Answer, load: &Loaded) -> Done {
    if let Some(host) = &load.viewer().host {
        out.line(b"for ");
        out.write(host.bytes());
    }
    out.line(b"asked");
    out.names(load.extra());
    out.line(b"names");
    append_loads(out, load.names());
    out.line(b"units");
    append_units(out, &load.units()?);
    Ok(())
}

/// Writes places, each behind a space.
pub fn append_places(out: &mut Answer, places: &[Place]) {
    for place in places {
        out.write(b" ");
        out.place_in_full(place);
    }
}

/// Whether two loads are for the same viewer, with the same names asked for, the same names, dependencies and units.
pub fn is_same_load(one: &Loaded, other: &Loaded) -> Result<bool, LineFault> {
    let is_same_asked = *one.viewer() == *other.viewer() && one.extra() == other.extra();
    let is_same_map = one.names() == other.names() && one.dependencies() == other.dependencies();
    Ok(is_same_asked && is_same_map && one.units()? == other.units()?)
}

/// Writes why there is no load, unless memory ran out.
pub fn append_fault(out: &mut Answer, fault: &LoadFault) -> Done {
    if matches!(fault, LoadFault::Memory) {
        return Err(LineFault::Memory);
    }
    out.print(fault);
    Ok(())
}

/// Writes what stands for a unit.
pub fn append_status(out: &mut Answer, status: &Status) {
    match status {
        Status::Loaded(place) => {
            out.write(b"loaded from ");
            out.place_in_full(place);
        }
        Status::BuiltIn => out.write(b"built in"),
        Status::NotFound => out.write(b"not found"),
        Status::Masked => out.write(b"masked"),
        Status::Bad(cause) => {
            out.write(b"bad ");
            out.print(cause);
        }
    }
}

/// Writes which units stop and which start.
pub fn append_plan(out: &mut Answer, plan: &Plan) {
    out.write(b"stops");
    out.names(plan.stop.as_slice());
    out.write(b", starts");
    out.names(plan.start.as_slice());
}

/// Writes what stands for a unit, its names, the main name first, and its drop-ins.
pub fn append_unit(out: &mut Answer, unit: &Unit) {
    append_status(out, &unit.status);
    out.write(b", names");
    out.names(unit.names.as_slice());
    if !unit.dropins.as_slice().is_empty() {
        out.write(b", drop-ins");
    }
    append_places(out, unit.dropins.as_slice());
    append_additions(out, unit);
}

// Writes what a manager adds to a unit besides names.
fn append_additions(out: &mut Answer, unit: &Unit) {
    if unit.has_defaults {
        out.write(b", with defaults");
    }
    if !unit.mounts.as_slice().is_empty() {
        out.write(b", after mounts");
        out.names(unit.mounts.as_slice());
    }
}

/// Writes the main name of a name of a load, and the unit whose main name it is.
pub fn append_looked_up(out: &mut Answer, load: &Loaded, name: &UnitName) {
    out.line(name.bytes());
    out.write(b": main ");
    match load.main(name) {
        Some(main) => out.write(main.bytes()),
        None => out.write(b"none"),
    }
    out.write(b", unit ");
    match load.unit(name) {
        Some(unit) => append_unit(out, unit),
        None => out.write(b"none"),
    }
}
