//! Laws of views.
ghost use Rattle.std.specs.Prelude.{◌≡◌};
ghost use Rattle.list_laws.specs.Members.{IsAmong};
ghost use Rattle.edit_sums.specs.declared.entries.Edit.{Edit};
ghost use Rattle.node_histories.specs.Histories.{all_edits, store_of};

use crate::seat::View;
use node_histories::NodeName;

/// Views borrow the same store if their histories have the same edits, openings included, even if they are of different
/// nodes. So whatever is loaded, planned or refused from one is the same from the other.
pub fn views_of_same_edits<N: NodeName, M: NodeName>(one: &View<N>, other: &View<M>)
    ensures same { ((e : Edit) → IsAmong e (all_edits one.now.seen)
        → IsAmong e (all_edits other.now.seen))
        → ((e : Edit) → IsAmong e (all_edits other.now.seen) → IsAmong e (all_edits one.now.seen))
        → store_of one.now.seen ≡ store_of other.now.seen }
{}
