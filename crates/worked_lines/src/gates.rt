//! A gate at which two workers wait for each other, and one that counts how often it is asked.
use crate::answers::Answer;
use std::alloc::{AllocError, Global};
use std::sync::atomic::{AtomicBool, AtomicUsize, Ordering};
use std::thread;
use std::time::{Clock, Duration};
use worker_rounds::{Gate, MOST_WORKERS, TURNS};

/// Lets each of two workers go on once both have arrived.
///
/// A worker that has arrived waits inside the gate's call until the other one arrives too, for at most `TURNS` sleeps
/// of a microsecond. So if one thread asks for both, in whatever order and however often, a wait times out, and the
/// gate records that.
#[derive(Drop)]
pub struct Meeting<'a, R: Clock> {
    clock: &'a R,
    first: AtomicBool,
    second: AtomicBool,
    ran_out: AtomicBool,
}

impl<'a, R: Clock> Meeting<'a, R> {
    /// Returns a gate at which no worker has arrived.
    pub fn new(clock: &'a R) -> Self {
        Meeting {
            clock,
            first: AtomicBool::new(false),
            second: AtomicBool::new(false),
            ran_out: AtomicBool::new(false),
        }
    }

    /// Whether both workers arrived, and each met the other while it waited.
    pub fn were_together(&self) -> bool {
        let have_come = self.first.load(Ordering::SeqCst) && self.second.load(Ordering::SeqCst);
        have_come && !self.ran_out.load(Ordering::SeqCst)
    }
}

impl<R: Clock> Gate for Meeting<'_, R> {
    fn arrive(&self, worker: usize) -> bool {
        let (own, other) = if worker == 0 {
            (&self.first, &self.second)
        } else {
            (&self.second, &self.first)
        };
        own.store(true, Ordering::SeqCst);
        for _ in 0..TURNS {
            if other.load(Ordering::SeqCst) {
                return true;
            }
            thread::sleep(self.clock, Duration::from_micros(1));
        }
        self.ran_out.store(true, Ordering::SeqCst);
        true
    }
}

/// Turns each worker number away this many times before it lets it go on, and counts how often it is asked for each.
/// Numbers from `MOST_WORKERS` on are counted together.
#[derive(Drop)]
pub struct CountingGate {
    turned_away: usize,
    asked: Vec<AtomicUsize>,
}

impl CountingGate {
    /// Returns a gate that wasn't asked yet.
    pub fn new(alloc: Global, turned_away: usize) -> Result<Self, AllocError> {
        let mut asked = Vec::new(alloc);
        for _ in 0..=MOST_WORKERS {
            asked.push(AtomicUsize::new(0))?;
        }
        Ok(CountingGate { turned_away, asked })
    }

    /// Writes each number that the gate was asked for, with its count, in ascending order.
    pub fn append_to(&self, out: &mut Answer) {
        for (number, count) in self.asked.iter().enumerate() {
            let often = count.load(Ordering::SeqCst);
            if often > 0 {
                out.write_made(format!(in out.alloc; " {number}:{often}"));
            }
        }
    }
}

impl Gate for CountingGate {
    fn arrive(&self, number: usize) -> bool {
        match self.asked.get(number.min(MOST_WORKERS)) {
            Some(count) => count.fetch_add(1, Ordering::SeqCst) >= self.turned_away,
            None => true,
        }
    }
}
