//! Errors of loads by workers.
ghost use Rattle.std.specs.Prelude.{◌≡◌};
ghost use Rattle.worker_rounds.specs.Refusals.{refusal_of};

use name_closure::ClosureFault;
use thiserror::Error;

/// Why there is no load by workers.
#[derive(Clone, Copy, Debug, PartialEq, Eq, Error)]
pub enum RoundFault {
    /// The number of workers isn't 1 to 64.
    #[error("the workers aren't 1 to 64")]
    Workers,
    /// More nodes than the limit are reached.
    #[error("more is reached than the limit")]
    TooMany,
    #[error("out of memory")]
    Memory,
}

impl From<ClosureFault> for RoundFault {
    ghost from_gives = { λ fault refusal. refusal ≡ refusal_of fault };

    fn from(fault: ClosureFault) -> RoundFault {
        match fault {
            ClosureFault::TooMany => RoundFault::TooMany,
            ClosureFault::Memory => RoundFault::Memory,
        }
    }
}
