//! Why there is no load.
ghost use Rattle.std.specs.Prelude.{◌≡◌};
ghost use Rattle.parallel_load.specs.{declared.faults.LoadFault.TheVariants.{Memory}, Refusals.{refusal_of}};

use name_closure::ClosureFault;
use std::alloc::AllocError;
use thiserror::Error;

/// Why there is no load.
#[derive(Clone, Copy, Debug, PartialEq, Eq, Error)]
pub enum LoadFault {
    /// L1: the number of workers isn't 1 to 64.
    #[error("L1 Workers")]
    Workers,
    /// L2: more than 4,096 names must be loaded, aliases included.
    #[error("L2 TooManyUnits")]
    TooManyUnits,
    /// Memory ran out.
    #[error("out of memory")]
    Memory,
}

impl From<AllocError> for LoadFault {
    ghost from_gives = { λ _ fault. fault ≡ Memory };

    fn from(_fault: AllocError) -> LoadFault {
        LoadFault::Memory
    }
}

impl From<ClosureFault> for LoadFault {
    ghost from_gives = { λ fault refusal. refusal ≡ refusal_of fault };

    fn from(fault: ClosureFault) -> LoadFault {
        LoadFault::from(worker_rounds::RoundFault::from(fault))
    }
}

impl From<worker_rounds::RoundFault> for LoadFault {
    ghost use Rattle.parallel_load.specs.Refusals.{refusal_by_workers};

    ghost from_gives = { λ fault refusal. refusal ≡ refusal_by_workers fault };

    fn from(fault: worker_rounds::RoundFault) -> LoadFault {
        match fault {
            worker_rounds::RoundFault::Workers => LoadFault::Workers,
            worker_rounds::RoundFault::TooMany => LoadFault::TooManyUnits,
            worker_rounds::RoundFault::Memory => LoadFault::Memory,
        }
    }
}
