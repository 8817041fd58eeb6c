//! What holds over all lives of a node.
ghost use Rattle.std.specs.Prelude.{◌≡◌, ◌⊎◌, ◌<◌, ℕ, [], ◌∷◌, ◌++◌, List};
ghost use Rattle.list_laws.specs.Members.{IsAmong};
ghost use Rattle.load_places.specs.Places.{PlaceParts};
ghost use Rattle.edit_sums.specs.declared.{contents.Content.{Content}, entries.Edit.{Edit}};
ghost use Rattle.edit_log.specs.declared.happenings.Happening.{Happening, TheVariants.{Commit}};
ghost use Rattle.edit_log.specs.Lives.{after, all_of, AlwaysTakesOwnBack, HasPrefix, held_after, IsAskedFor, IsHonestOf, Lived, own_edit, survivors};

/// The log only grows. Once a commit was answered, all that the node held then stays in the log, over all crashes.
pub fn answered_edits_stay()
    ensures logged { (writer : ℕ) (s : Lived) (later : List Happening)
        → HasPrefix s.logged (after writer s later).logged }
    ensures answered { (writer : ℕ) (s : Lived) (before later : List Happening)
        → HasPrefix (all_of (after writer s before))
        (after writer s (before ++ Commit ∷ later)).logged }
{}

/// A node holds nothing but what it held at first and what it was asked to write or to take.
pub fn only_asked_edits()
    ensures asked { (writer : ℕ) (s : Lived) (all : List Happening) (e : Edit)
        → IsAmong e (all_of (after writer s all)) → IsAmong e (all_of s) ⊎ IsAskedFor writer e all }
{}

/// What a node writes has a greater counter than each edit that ever stood in its log, whatever crashes lie between. So no
/// version of its own belongs to two edits, if what it takes of its own edits is what it has logged before.
pub fn versions_are_made_once()
    ensures fresh { (writer : ℕ) (s : Lived) (later : List Happening) (place : PlaceParts)
        (content : Content) (e : Edit) → IsAmong e s.logged → e.version.counter
        < (own_edit writer (all_of (after writer s later)) place content).version.counter }
    ensures honest { (writer : ℕ) (s : Lived) (all : List Happening) → IsHonestOf writer (all_of s)
        → AlwaysTakesOwnBack writer s all → IsHonestOf writer (all_of (after writer s all)) }
{}

/// A node that crashes and opens again holds what a node that never ends holds after the puts and takes whose edits weren't
/// lost: its lives are one history.
pub fn lives_are_one_history()
    ensures one { (writer : ℕ) (logged : List Edit) (all : List Happening)
        → all_of (after writer (record { logged = logged; unsaved = [] }) all)
        ≡ held_after writer logged (survivors [] all) }
{}
