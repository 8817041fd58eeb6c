//! Laws of start lists and cycles, for any nodes: the contract of a function that does nothing.
ghost use Rattle.std.specs.{Prelude.{◌≡◌, List}, FinMap.{IsAntisymmetric}};
ghost use Rattle.list_laws.specs.Members.{IsAmong};
ghost use Rattle.start_order.specs.StartOrder.{IsStartList, IsStuck, IsCycle};

use name_closure::{EdgeSet, NodeSet};

/// There is one start list, and one cycle. A start list has no stuck nodes. Where there is a cycle, some node is stuck.
pub fn start_order_laws<N: Ord, C: NodeSet<N>, B: EdgeSet<N>>()
    ensures list { IsAntisymmetric N.cmp → (xs ys : List N) → IsStartList N.cmp C.holds B.leads xs
        → IsStartList N.cmp C.holds B.leads ys → xs ≡ ys }
    ensures ring { IsAntisymmetric N.cmp → (xs ys : List N)
        → IsCycle N.cmp (IsStuck C.holds B.leads) B.leads xs
        → IsCycle N.cmp (IsStuck C.holds B.leads) B.leads ys → xs ≡ ys }
    ensures out { (list : List N) → IsStartList N.cmp C.holds B.leads list → (u : N)
        → IsStuck C.holds B.leads u → ¬ IsAmong u list }
    ensures cycle { (cycle : List N) → IsCycle N.cmp (IsStuck C.holds B.leads) B.leads cycle
        → (u : N) × IsStuck C.holds B.leads u }
{}
