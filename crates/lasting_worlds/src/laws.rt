//! The law of lives in a world.
ghost use Rattle.std.specs.Prelude.{◌≡◌, List};
ghost use Rattle.edit_sums.specs.declared.entries.Edit.{Edit};
ghost use Rattle.edit_sums.specs.Sums.{sum_of};
ghost use Rattle.list_laws.specs.Members.{IsAmong};
ghost use Rattle.world_law.specs.Worlds.{after, AreSameEdits, blank, puts_of};
ghost use Rattle.lasting_worlds.specs.LifeEvents.{AreThere, events_of, held_by, Life, nodes_of, WasAskedFor};

/// Nodes that last, each with what happens to it, are nodes of a world in which only puts happen: the last life of each
/// holds there what the node holds (`held`), and no more is put there than was logged at first or asked for (`puts`). So
/// nodes that hold the same edits hold the same store, whatever crashed (`same`).
pub fn lives_are_events()
    ensures held { (lives : List Life)
        → AreThere 0 lives (after (events_of 0 lives) (blank (nodes_of lives))) }
    ensures puts { (lives : List Life) (e : Edit)
        → IsAmong e (puts_of (nodes_of lives) (events_of 0 lives)) → WasAskedFor e lives }
    ensures same { (one other : Life) → AreSameEdits (held_by one) (held_by other) →
        sum_of (held_by one) ≡ sum_of (held_by other) }
{}
