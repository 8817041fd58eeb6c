//! Laws of scripts and of the worlds that they lead to.
ghost use Rattle.std.specs.Prelude.{◌≡◌, ℕ, List, slice_get};
ghost use Rattle.edit_sums.specs.Sums.{IsHonest};
ghost use Rattle.script_worlds.specs.{Worlds.{ScriptWorld, blank, held, state}, Validity.{puts}};
ghost use Rattle.fleet_script.specs.{Readings.{SameEditsSameOutcomes, SameEditsSameStores, StoresAreLeast}, Scripts.{Answers, Run}, ScriptLaws.{CountersAreLines, CountsOn, NodesHaveTheNumbers, NoLineIsRefusedForVersions, PrefixesAreOfTheWhole, StaysHonest}};
ghost use Rattle.world_law.specs.Worlds as worlds;

/// A script has at most one list of answers, and what a fault leaves written is a prefix of it. In every world that a script
/// leads to each version belongs to one edit, so each node's store is the sum of what it took. No counter is greater than
/// the number of lines so far, so no line of a script of at most 16,777,216 bytes is refused with `VersionsSpent`. If the world
/// begins with a store whose versions each belong to one edit, they still do, and counters go on from the store's greatest;
/// if it begins without one, a writer number is used exactly where a node has it.
pub fn script_laws()
    ensures one { (script first second : List ℕ) → Answers script first → Answers script second →
        first ≡ second }
    ensures prefix { PrefixesAreOfTheWhole }
    ensures honest { (lines : List (List ℕ)) (written : List ℕ) (world : ScriptWorld) →
        Run blank lines written world → IsHonest (puts world) }
    ensures sums { (lines : List (List ℕ)) (written : List ℕ) (world : ScriptWorld) →
        Run blank lines written world
        → (k : ℕ) (node : worlds.Node) → slice_get (state world).nodes k ≡ Some node →
        node.store ≡ held world k }
    ensures counters { CountersAreLines }
    ensures lines { NoLineIsRefusedForVersions }
    ensures numbers { NodesHaveTheNumbers }
    ensures begun { StaysHonest }
    ensures counts { CountsOn }
{}

/// The main result for scripts: if two nodes took the same edits, each at any moment of any script, each command that only
/// reads (`files`, `text`, `cat`, `show`, `units`, `tree`, `list`, `plan`, `crowd`) has one outcome for both, questions about
/// units by one profile. Both then hold the same store, and it is below exactly those stores that are above each of these
/// edits.
pub fn readings_agree()
    ensures outcomes { SameEditsSameOutcomes }
    ensures stores { SameEditsSameStores }
    ensures least { StoresAreLeast }
{}
