//! The kinds of units.
ghost use Rattle.std.specs.Prelude.{◌≡◌};
ghost use Rattle.unit_name.specs.Names.{word, kind_of};

/// The kind of a unit, which the suffix of its name says (systemd.unit(5), "Description").
#[derive(Clone, Copy, Debug, PartialEq, Eq)]
pub enum Kind {
    Service,
    Socket,
    Device,
    Mount,
    Automount,
    Swap,
    Target,
    Path,
    Timer,
    Slice,
    Scope,
}

const KINDS: [Kind; 11] = [
    Kind::Service,
    Kind::Socket,
    Kind::Device,
    Kind::Mount,
    Kind::Automount,
    Kind::Swap,
    Kind::Target,
    Kind::Path,
    Kind::Timer,
    Kind::Slice,
    Kind::Scope,
];

impl Kind {
    /// Returns the suffix of names of this kind, without the dot.
    pub fn word(self) -> &'static [u8]
        ensures word { result.now ≡ word self }
    {
        match self {
            Kind::Service => b"service",
            Kind::Socket => b"socket",
            Kind::Device => b"device",
            Kind::Mount => b"mount",
            Kind::Automount => b"automount",
            Kind::Swap => b"swap",
            Kind::Target => b"target",
            Kind::Path => b"path",
            Kind::Timer => b"timer",
            Kind::Slice => b"slice",
            Kind::Scope => b"scope",
        }
    }
}

/// Returns the kind with this suffix.
#[tactic(auto, unfolding(crate::specs::Names::kind_of))]
pub(crate) fn kind_of_word(word: &[u8]) -> Option<Kind>
    ensures kind { result ≡ kind_of word.now }
{
    KINDS.iter().copied().find(|kind| kind.word() == word)
}
