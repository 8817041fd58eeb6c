//! Loaders: what is loaded for a node, and which nodes it names.
ghost use Rattle.std.specs.Prelude.{◌≡◌, List, All, IfOk};
ghost use Rattle.name_closure.specs.{Loading.{AreLoads}, declared.loads.ClosureFault.TheVariants.{Memory}};

use plain_values::Key;
use std::alloc::{AllocError, Global};
use thiserror::Error;

/// Why a closure can't be computed.
#[derive(Clone, Copy, Debug, PartialEq, Eq, Error)]
pub enum ClosureFault {
    /// More nodes than the limit are reached.
    #[error("more is reached than the limit")]
    TooMany,
    #[error("out of memory")]
    Memory,
}

impl From<AllocError> for ClosureFault {
    ghost from_gives = { λ _ fault. fault ≡ Memory };

    fn from(_fault: AllocError) -> ClosureFault {
        ClosureFault::Memory
    }
}

/// A loader: what it loads for a node, and the nodes that are named there. It always loads the same for the same node,
/// and fails only if memory runs out.
pub trait Loads<K: Key> {
    /// What is loaded for one node.
    type Loaded: Drop;

    // The node is one that can be loaded.
    ghost is_node: { Self → K → Type 0 };

    // This is what is loaded for the node.
    ghost is_loaded: { Self → K → Self.Loaded → Type 0 };

    // The nodes that are named in what was loaded for one node.
    ghost named: { Self → Self.Loaded → List K };

    /// Loads what belongs to a node.
    fn load(&self, alloc: Global, node: &K) -> Result<Self::Loaded, AllocError>
        requires node { is_node self.now node.now }
        ensures loaded { IfOk result (λ one. is_loaded self.now node.now one) };

    /// Returns the nodes that are named in what was loaded for one node. They can be loaded too.
    fn names(&self, alloc: Global, one: &Self::Loaded) -> Result<Vec<K>, AllocError>
        ensures named { IfOk result (λ names. names.items ≡ named self.now one.now) }
        ensures nodes { IfOk result (λ names. (node : K) → is_node self.now node
            → is_loaded self.now node one.now → All (is_node self.now) names.items) };

    // At most one thing is loaded for a node.
    ghost one: { (loader : Self) (node : K) (x y : Self.Loaded) → is_loaded loader node x
        → is_loaded loader node y → x ≡ y };
}

/// What a round loads.
#[derive(Drop)]
pub struct Round<K, U> {
    /// The round's nodes, each with what is loaded for it.
    pub pairs: Vec<(K, U)>,
    /// The other nodes that are named there, and perhaps some of the round's own.
    pub names: Vec<K>,
}

/// Loads each of the nodes, and returns them in their order with what is loaded for them. Fails only if memory runs
/// out.
pub fn load_each<K: Key, L: Loads<K>>(
    alloc: Global,
    loader: &L,
    nodes: Vec<K>,
) -> Result<Vec<(K, L::Loaded)>, AllocError>
    requires nodes { All (L.is_node loader.now) nodes.items }
    ensures pairs { IfOk result
        (λ pairs. AreLoads (L.is_loaded loader.now) nodes.items pairs.items) }
{
    let mut pairs = Vec::new(alloc);
    for node in nodes {
        let one = loader.load(alloc, &node)?;
        pairs.push((node, one))?;
    }
    Ok(pairs)
}
