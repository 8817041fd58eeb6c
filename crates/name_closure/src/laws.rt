//! Laws of reachability, for any nodes, sources and edges: the contract of a function that does nothing.
//! Its type parameters are the sets and the edges that its clauses speak of.
ghost use Rattle.std.specs.Prelude.{◌≡◌, ◌↔◌, ◌<◌, ℕ, List, length};
ghost use Rattle.name_closure.specs.{Chains.{IsReached, IsClosure, HasOver}, ClosureLaws.{IsClosed}, StableLaws.{SuccessorsStayWithin}};

/// A set of nodes, for contracts alone.
pub trait NodeSet<N> {
    // The node is in the set.
    ghost holds: { N → Type 0 };
}

/// The edges of a graph, for contracts alone.
pub trait EdgeSet<N> {
    // An edge leads from the first node to the second.
    ghost leads: { N → N → Type 0 };
}

/// The reached nodes include the sources, are closed under the edges, and lie within every other such set. There is exactly
/// one list of them in ascending order; it is longer than a limit exactly where more nodes than the limit are reached. It
/// stays where each old edge from a reached node is still there, or ends at a node that is reached anyway, as a source is,
/// and no new edge leaves the reached nodes.
pub fn closure_laws<N: Ord, S: NodeSet<N>, O: EdgeSet<N>, E: EdgeSet<N>, T: NodeSet<N>>()
    ensures closed { IsClosed S.holds E.leads (IsReached S.holds E.leads) }
    ensures least { IsClosed S.holds E.leads T.holds → (n : N) → IsReached S.holds E.leads n
        → T.holds n }
    ensures one { (xs ys : List N) → IsClosure S.holds E.leads N.cmp xs
        → IsClosure S.holds E.leads N.cmp ys → xs ≡ ys }
    ensures over { (nodes : List N) (limit : ℕ) → IsClosure S.holds E.leads N.cmp nodes
        → HasOver S.holds E.leads N.cmp limit ↔ (limit < length nodes) }
    ensures stays { SuccessorsStayWithin S.holds O.leads E.leads → (nodes : List N)
        → IsClosure S.holds O.leads N.cmp nodes → IsClosure S.holds E.leads N.cmp nodes }
{}
