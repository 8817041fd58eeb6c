//! Gates, at which workers wait before they load.

/// Each worker asks the gate before it loads its chunk, until the answer is true. A gate can wait for other chunks of
/// the round, and so observe that all of them were begun. Its answers never change a load.
pub trait Gate {
    /// Whether the worker of this chunk may go on. The chunks of a round are numbered from 0.
    fn arrive(&self, chunk: usize) -> bool;
}

/// The most times that a gate is asked for one chunk; after that its worker goes on.
pub const TURNS: u32 = 1_000_000;

/// Asks the gate until it lets the chunk's worker go on, at most `TURNS` times.
pub fn pass_gate<G: Gate>(gate: &G, chunk: usize) {
    for _ in 0..TURNS {
        if gate.arrive(chunk) {
            return;
        }
    }
}

/// A gate that lets each worker go on at once.
#[derive(Clone, Copy, Debug)]
pub struct OpenGate;

impl Gate for OpenGate {
    fn arrive(&self, _chunk: usize) -> bool {
        true
    }
}
