//! The kinds of dependencies.
ghost use Rattle.std.specs.{Prelude.{◌≡◌, IsTrue}, List.{slice_index_or}};
ghost use Rattle.setting_rules.specs.declared.kinds.DepKind.TheVariants.{Before};
ghost use Rattle.setting_rules.specs.{Kinds.{kinds, naming_kinds, is_settable, inverse, word, settable_kind}, Places.{place, is_naming}};

use profiles::Profile;

/// How one unit depends on another (systemd.unit(5), "Mapping of unit properties to their inverses"). The kinds come in
/// pairs of a kind and its inverse, which states the same relation from the other unit.
#[derive(Clone, Copy, Debug, PartialEq, Eq, PartialOrd, Ord)]
pub enum DepKind {
    Before,
    After,
    Wants,
    WantedBy,
    Requires,
    RequiredBy,
    Requisite,
    RequisiteOf,
    BindsTo,
    BoundBy,
    PartOf,
    ConsistsOf,
    Conflicts,
    ConflictedBy,
    OnFailure,
    OnFailureOf,
    PropagatesReloadTo,
    ReloadPropagatedFrom,
    Upholds,
    UpheldBy,
    Triggers,
    TriggeredBy,
    InSlice,
    SliceOf,
}

// All kinds, in order.
const KINDS: [DepKind; 24] = [
    DepKind::Before,
    DepKind::After,
    DepKind::Wants,
    DepKind::WantedBy,
    DepKind::Requires,
    DepKind::RequiredBy,
    DepKind::Requisite,
    DepKind::RequisiteOf,
    DepKind::BindsTo,
    DepKind::BoundBy,
    DepKind::PartOf,
    DepKind::ConsistsOf,
    DepKind::Conflicts,
    DepKind::ConflictedBy,
    DepKind::OnFailure,
    DepKind::OnFailureOf,
    DepKind::PropagatesReloadTo,
    DepKind::ReloadPropagatedFrom,
    DepKind::Upholds,
    DepKind::UpheldBy,
    DepKind::Triggers,
    DepKind::TriggeredBy,
    DepKind::InSlice,
    DepKind::SliceOf,
];

// The kinds by which a unit may name another, in order.
const NAMING: [DepKind; 15] = [
    DepKind::Before,
    DepKind::After,
    DepKind::Wants,
    DepKind::Requires,
    DepKind::Requisite,
    DepKind::BindsTo,
    DepKind::PartOf,
    DepKind::Conflicts,
    DepKind::OnFailure,
    DepKind::PropagatesReloadTo,
    DepKind::ReloadPropagatedFrom,
    DepKind::Upholds,
    DepKind::Triggers,
    DepKind::TriggeredBy,
    DepKind::InSlice,
];

impl DepKind {
    /// Returns all kinds, pair by pair: a kind and then its inverse. Allocates nothing.
    pub fn all() -> &'static [DepKind]
        ensures kinds { result.now ≡ kinds }
    {
        &KINDS
    }

    /// Returns the kinds by which a unit may name another, in the order of all kinds: those that a key of `[Unit]` sets
    /// by some profile, and those that a manager implies. Allocates nothing.
    pub fn naming() -> &'static [DepKind]
        ensures kinds { result.now ≡ naming_kinds }
    {
        &NAMING
    }

    /// Returns the index of the kind among those by which a unit may name another; the number of those for any other
    /// kind. Allocates nothing.
    pub fn place(self) -> usize
        ensures place { result ≡ place self }
        ensures kind { IsTrue (is_naming self) → slice_index_or naming_kinds result Before ≡ self }
    {
        match self {
            DepKind::Before => 0,
            DepKind::After => 1,
            DepKind::Wants => 2,
            DepKind::Requires => 3,
            DepKind::Requisite => 4,
            DepKind::BindsTo => 5,
            DepKind::PartOf => 6,
            DepKind::Conflicts => 7,
            DepKind::OnFailure => 8,
            DepKind::PropagatesReloadTo => 9,
            DepKind::ReloadPropagatedFrom => 10,
            DepKind::Upholds => 11,
            DepKind::Triggers => 12,
            DepKind::TriggeredBy => 13,
            DepKind::InSlice => 14,
            _ => NAMING.len(),
        }
    }

    /// Returns the kind that states the same relation from the other unit.
    pub fn inverse(self) -> DepKind
        ensures inverse { result ≡ inverse self }
    {
        match self {
            DepKind::Before => DepKind::After,
            DepKind::After => DepKind::Before,
            DepKind::Wants => DepKind::WantedBy,
            DepKind::WantedBy => DepKind::Wants,
            DepKind::Requires => DepKind::RequiredBy,
            DepKind::RequiredBy => DepKind::Requires,
            DepKind::Requisite => DepKind::RequisiteOf,
            DepKind::RequisiteOf => DepKind::Requisite,
            DepKind::BindsTo => DepKind::BoundBy,
            DepKind::BoundBy => DepKind::BindsTo,
            DepKind::PartOf => DepKind::ConsistsOf,
            DepKind::ConsistsOf => DepKind::PartOf,
            DepKind::Conflicts => DepKind::ConflictedBy,
            DepKind::ConflictedBy => DepKind::Conflicts,
            DepKind::OnFailure => DepKind::OnFailureOf,
            DepKind::OnFailureOf => DepKind::OnFailure,
            DepKind::PropagatesReloadTo => DepKind::ReloadPropagatedFrom,
            DepKind::ReloadPropagatedFrom => DepKind::PropagatesReloadTo,
            DepKind::Upholds => DepKind::UpheldBy,
            DepKind::UpheldBy => DepKind::Upholds,
            DepKind::Triggers => DepKind::TriggeredBy,
            DepKind::TriggeredBy => DepKind::Triggers,
            DepKind::InSlice => DepKind::SliceOf,
            DepKind::SliceOf => DepKind::InSlice,
        }
    }

    /// Returns the name of the kind, as in unit files and answers: `Before`, `After` and so on.
    pub fn word(self) -> &'static str
        ensures word { result.now ≡ word self }
    {
        match self {
            DepKind::Before => "Before",
            DepKind::After => "After",
            DepKind::Wants => "Wants",
            DepKind::WantedBy => "WantedBy",
            DepKind::Requires => "Requires",
            DepKind::RequiredBy => "RequiredBy",
            DepKind::Requisite => "Requisite",
            DepKind::RequisiteOf => "RequisiteOf",
            DepKind::BindsTo => "BindsTo",
            DepKind::BoundBy => "BoundBy",
            DepKind::PartOf => "PartOf",
            DepKind::ConsistsOf => "ConsistsOf",
            DepKind::Conflicts => "Conflicts",
            DepKind::ConflictedBy => "ConflictedBy",
            DepKind::OnFailure => "OnFailure",
            DepKind::OnFailureOf => "OnFailureOf",
            DepKind::PropagatesReloadTo => "PropagatesReloadTo",
            DepKind::ReloadPropagatedFrom => "ReloadPropagatedFrom",
            DepKind::Upholds => "Upholds",
            DepKind::UpheldBy => "UpheldBy",
            DepKind::Triggers => "Triggers",
            DepKind::TriggeredBy => "TriggeredBy",
            DepKind::InSlice => "InSlice",
            DepKind::SliceOf => "SliceOf",
        }
    }

    /// Returns whether a key of `[Unit]` sets the kind by this profile. Allocates nothing.
    pub(crate) fn is_settable(self, profile: Profile) -> bool
        ensures test { result ≡ is_settable profile self }
    {
        match self {
            DepKind::Before
            | DepKind::After
            | DepKind::Wants
            | DepKind::Requires
            | DepKind::Requisite
            | DepKind::BindsTo
            | DepKind::PartOf
            | DepKind::Conflicts
            | DepKind::OnFailure
            | DepKind::PropagatesReloadTo
            | DepKind::ReloadPropagatedFrom => true,
            DepKind::Upholds => matches!(profile, Profile::Manager),
            _ => false,
        }
    }

    /// Returns the kind that the key of `[Unit]` with this name sets by this profile: by files alone, `Upholds` sets
    /// none. Allocates nothing.
    #[tactic(auto, unfolding(crate::specs::Kinds::settable_kind))]
    pub fn of_key(profile: Profile, key: &[u8]) -> Option<DepKind>
        ensures kind { result ≡ settable_kind profile key.now }
    {
        KINDS
            .iter()
            .copied()
            .filter(|kind| kind.is_settable(profile))
            .find(|kind| kind.word().as_bytes() == key)
    }
}
