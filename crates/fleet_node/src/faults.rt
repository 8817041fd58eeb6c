//! Why something was not done.
ghost use Rattle.std.specs.Prelude.{◌≡◌};
ghost use Rattle.fleet_node.specs.declared.faults.FleetFault.TheVariants.{Command, Exchange, Memory, Tree};

use load_places::{HostFault, PlaceFault};
use node_commands::CommandFault;
use node_exchange::ExchangeFault;
use node_files::NodeFault;
use std::alloc::AllocError;
use thiserror::Error;
use tree_files::TreeFault;

/// Why something was not done.
#[derive(Clone, Copy, Debug, PartialEq, Eq, Error)]
pub enum FleetFault {
    /// A command over the file was not done.
    #[error("{0}")]
    Command(CommandFault),
    /// An exchange ended early.
    #[error("{0}")]
    Exchange(ExchangeFault),
    /// A tree was not written.
    #[error("{0}")]
    Tree(TreeFault),
    /// Memory ran out.
    #[error("out of memory")]
    Memory,
}

impl From<CommandFault> for FleetFault {
    ghost from_gives = { λ refused fault. fault ≡ Command refused };

    fn from(refused: CommandFault) -> FleetFault {
        FleetFault::Command(refused)
    }
}

impl From<NodeFault> for FleetFault {
    fn from(refused: NodeFault) -> FleetFault {
        FleetFault::Command(CommandFault::Node(refused))
    }
}

impl From<HostFault> for FleetFault {
    fn from(refused: HostFault) -> FleetFault {
        FleetFault::Command(CommandFault::from(PlaceFault::from(refused)))
    }
}

impl From<PlaceFault> for FleetFault {
    fn from(refused: PlaceFault) -> FleetFault {
        FleetFault::Command(CommandFault::from(refused))
    }
}

impl From<ExchangeFault> for FleetFault {
    ghost from_gives = { λ refused fault. fault ≡ Exchange refused };

    fn from(refused: ExchangeFault) -> FleetFault {
        FleetFault::Exchange(refused)
    }
}

impl From<TreeFault> for FleetFault {
    ghost from_gives = { λ refused fault. fault ≡ Tree refused };

    fn from(refused: TreeFault) -> FleetFault {
        FleetFault::Tree(refused)
    }
}

impl From<AllocError> for FleetFault {
    ghost from_gives = { λ _ fault. fault ≡ Memory };

    fn from(_: AllocError) -> FleetFault {
        FleetFault::Memory
    }
}
