//! Loads of stores by one thread and by workers, their graphs, and questions.
mod asking;
mod edits;
mod graphs;
mod refreshing;
mod rendering;
mod tracking;
mod universes;

use crate::loads::asking::{ask, world};
use crate::loads::edits::{Asked, Done, asked_of};
use crate::loads::graphs::graph;
use crate::loads::refreshing::{footprint, refresh};
use crate::loads::rendering::{append_load, append_looked_up, append_unit, is_same_load};
use crate::loads::tracking::{Taking, again, far};
use parallel_load::{LoadFault, Loaded, load_fleet, load_here, load_one};
use profiles::Profile;
use replica_store::Viewer;
use std::alloc::Global;
use std::thread::Threads;
use std::time::Clock;
use unit_name::UnitName;
use worked_lines::{Answer, CountingGate, Meeting, Words, asked_of as call_of, match_word};
use worker_rounds::{Gate, OpenGate};

// Writes a load with what it has for some names, or why there is no load.
fn append_here(out: &mut Answer, here: &Result<Loaded, LoadFault>, looked: &[UnitName]) -> Done {
    match here {
        Ok(load) => {
            append_load(out, load)?;
            append_looked(out, load, looked);
        }
        Err(fault) => out.print(fault),
    }
    Ok(())
}

// Writes what a load has for some names.
fn append_looked(out: &mut Answer, load: &Loaded, looked: &[UnitName]) {
    for name in looked {
        append_looked_up(out, load, name);
    }
}

// Writes how a load by workers compares with that by one thread, or why there is none.
fn append_compared(
    out: &mut Answer,
    here: &Result<Loaded, LoadFault>,
    fleet: &Result<Loaded, LoadFault>,
) -> Done {
    match (here, fleet) {
        (Ok(here), Ok(fleet)) => out.either(is_same_load(here, fleet)?, b"the same", b"another"),
        (Err(_), Ok(_)) => out.write(b"a load"),
        (_, Err(fault)) => out.print(fault),
    }
    Ok(())
}

// The load by so many workers.
fn load_by<R: Threads + Sync, G: Gate + Sync>(
    rt: &R,
    alloc: Global,
    asked: &Asked,
    workers: usize,
    gate: &G,
) -> Result<Loaded, LoadFault> {
    let viewer = &asked.viewer;
    load_fleet(rt, alloc, &asked.store, viewer, &asked.names, workers, gate)
}

// Loads by each number of workers, and writes how that compares with the load by one thread.
fn append_each<R: Threads + Sync, G: Gate + Sync>(
    rt: &R,
    out: &mut Answer,
    asked: &Asked,
    here: &Result<Loaded, LoadFault>,
    workers: &[usize],
    gate: &G,
) -> Done {
    for count in workers {
        let fleet = load_by(rt, out.alloc, asked, *count, gate);
        out.line_made(format!(in out.alloc; "{count} workers: "));
        append_compared(out, here, &fleet)?;
    }
    Ok(())
}

// Loads by one thread, looks up names, and writes how the loads by each number of workers compare with it.
fn load_by_each<R: Threads + Sync, G: Gate + Sync>(
    rt: &R,
    out: &mut Answer,
    asked: &Asked,
    looked: &[UnitName],
    workers: &[usize],
    gate: &G,
) -> Done {
    let here = load_here(out.alloc, &asked.store, &asked.viewer, &asked.names);
    append_here(out, &here, looked)?;
    append_each(rt, out, asked, &here, workers, gate)
}

// Loads by one thread and by each number of workers.
fn load<R: Threads + Sync>(rt: &R, words: &mut Words, viewer: Viewer, out: &mut Answer) -> Done {
    let workers = words.numbers()?;
    let asked = asked_of(words, viewer)?;
    let looked = words.names()?;
    load_by_each(rt, out, &asked, &looked, &workers, &OpenGate)
}

// Loads as `load` does, at a gate that refuses each chunk a given number of times. Then writes how often the gate was
// asked for each.
fn gate<R: Threads + Sync>(rt: &R, words: &mut Words, viewer: Viewer, out: &mut Answer) -> Done {
    let gate = CountingGate::new(words.alloc, words.index()?)?;
    let workers = words.numbers()?;
    let asked = asked_of(words, viewer)?;
    load_by_each(rt, out, &asked, &[], &workers, &gate)?;
    out.line(b"the gate was asked for");
    gate.append_to(out);
    Ok(())
}

// Loads by two workers that wait for each other.
fn meet<R: Threads + Clock + Sync>(
    rt: &R,
    words: &mut Words,
    viewer: Viewer,
    out: &mut Answer,
) -> Done {
    let asked = asked_of(words, viewer)?;
    let gate = Meeting::new(rt);
    let fleet = load_by(rt, words.alloc, &asked, 2, &gate);
    append_here(out, &fleet, &[])?;
    out.line(if gate.were_together() {
        b"both pieces worked at the same time"
    } else {
        b"no two pieces worked at the same time"
    });
    Ok(())
}

// Loads the unit of each name by itself.
fn one(words: &mut Words, viewer: Viewer, out: &mut Answer) -> Done {
    let asked = asked_of(words, viewer)?;
    for name in &asked.names {
        let unit = load_one(words.alloc, &asked.store, &asked.viewer, name)?;
        out.line(name.bytes());
        out.write(b": ");
        append_unit(out, &unit);
    }
    Ok(())
}

/// Writes the answer to a call of a manager of this profile.
pub fn answer<R: Threads + Clock + Sync>(
    rt: &R,
    profile: Profile,
    call: &[u8],
    words: &mut Words,
    out: &mut Answer,
) -> Done {
    let (call, host) = call_of(words.alloc, call)?;
    let viewer = Viewer { host, profile };
    match_word!(call;
        b"graph" => graph(words, viewer, out),
        b"load" => load(rt, words, viewer, out),
        b"gate" => gate(rt, words, viewer, out),
        b"meet" => meet(rt, words, viewer, out),
        b"one" => one(words, viewer, out),
        b"refresh" => refresh(words, viewer, out),
        b"footprint" => footprint(words, viewer, out),
        b"ask" => ask(rt, words, viewer, out),
        b"again" => again(rt, words, viewer, Taking::Edits, out),
        b"merged" => again(rt, words, viewer, Taking::Merge, out),
        b"far" => far(rt, words, viewer, out),
        b"world" => world(rt, words, viewer, out),
    )
}
