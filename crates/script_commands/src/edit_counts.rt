//! The number of edits of each worker of a crowd.
ghost use Rattle.std.specs.Prelude.{◌≡◌, ◌<◌, ◌≤◌, MatchOption};

use std::marker::Model;

// The most edits of one worker.
const MOST_EDITS: u32 = 1_000;

/// The number of edits that each worker of a crowd makes: 0 to 1,000.
#[derive(Debug, Drop)]
pub struct EditCount {
    count: u32,
}

impl Model for EditCount {
    ghost use Rattle.std.specs.Prelude.{ℕ, ◌≤◌};

    ghost Value = { ℕ };

    ghost view = { λ e. e.count };

    ghost invariant = { λ e. e.count ≤ 1000 };
}

impl EditCount {
    /// Makes a number of edits; `None` for more than 1,000.
    pub fn of(count: u32) -> Option<EditCount>
        ensures edits { MatchOption result (1000 < count)
            (λ edits. (edits ≡ count) × (count ≤ 1000)) }
    {
        if count > MOST_EDITS {
            return None;
        }
        Some(EditCount { count })
    }

    /// Returns the number.
    pub fn count(&self) -> u32
        ensures count { result ≡ self.now }
        ensures within { result ≤ 1000 }
    {
        self.count
    }
}
