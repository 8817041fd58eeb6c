//! Places: where a content is stored, and for whom; and the texts that spell them.
ghost use Rattle.std.specs.Prelude.{Err, IfOk, IsErr, OnErr, OnOk, position, ◌++◌, ◌≡◌, ◌⊎◌};
ghost use Rattle.load_places.specs.{Places.{scope_cmp}, Texts.{fault_of_host, fault_of_path, host_end, is_colon, place_of, place_text, scope_text}};

use crate::hosts::{HostFault, HostName, is_host_name};
use load_path::{Path, PathFault};
use plain_values::{Key, TryClone};
use std::alloc::{AllocError, Global};
use std::cmp::Ordering;
use thiserror::Error;

/// For whom an edit is: the whole fleet, or one host. The fleet comes first, then hosts in byte order.
#[derive(Debug)]
pub enum Scope {
    /// The whole fleet.
    Fleet,
    /// One host.
    Host(HostName),
}

impl Drop for Scope {
    fn drop(self) {
        match self {
            Scope::Fleet => (),
            Scope::Host(_) => (),
        }
    }
}

impl Scope {
    /// Compares the scope with the scope of a host. Allocates nothing.
    pub fn cmp_host(&self, host: &HostName) -> Ordering
        ensures order { result ≡ scope_cmp self.now (Scope.Host host.now) }
    {
        match self {
            Scope::Fleet => Ordering::Less,
            Scope::Host(own) => own.cmp(host),
        }
    }

    /// Returns an equal scope. Fails only if memory runs out.
    pub fn try_clone(&self) -> Result<Scope, AllocError>
        ensures copy { IfOk result (λ copy. copy ≡ self.now) }
    {
        match self {
            Scope::Fleet => Ok(Scope::Fleet),
            Scope::Host(host) => Ok(Scope::Host(host.try_clone()?)),
        }
    }
}

impl PartialEq for Scope {
    ghost use Rattle.std.specs.{Ordering.{eq_by_cmp}, Cmp.{eq_by_cmp_equiv, partial_equiv_from_equiv}};
    ghost use Rattle.load_places.specs.{Places.{scope_cmp}, PlaceLaws.{scope_cmp_total}};

    ghost eq = { eq_by_cmp scope_cmp };

    ghost laws = { partial_equiv_from_equiv (eq_by_cmp_equiv scope_cmp_total) };

    fn eq(&self, other: &Self) -> bool {
        self.cmp(other).is_eq()
    }
}

impl Eq for Scope {
    ghost use Rattle.std.specs.Cmp.{eq_by_cmp_equiv};
    ghost use Rattle.load_places.specs.PlaceLaws.{scope_cmp_total};

    ghost laws = { eq_by_cmp_equiv scope_cmp_total };
}

impl PartialOrd for Scope {
    ghost use Rattle.std.specs.{Ordering.{as_partial_cmp}, Cmp.{partial_order_from_total}};
    ghost use Rattle.load_places.specs.{Places.{scope_cmp}, PlaceLaws.{scope_cmp_total}};

    ghost partial_cmp = { as_partial_cmp scope_cmp };

    ghost laws = { partial_order_from_total scope_cmp_total };

    fn partial_cmp(&self, other: &Self) -> Option<Ordering> {
        Some(self.cmp(other))
    }
}

impl Ord for Scope {
    ghost use Rattle.std.specs.Prelude.{refl};
    ghost use Rattle.load_places.specs.{Places.{scope_cmp}, PlaceLaws.{scope_cmp_total}};

    ghost cmp = { scope_cmp };

    ghost total = { scope_cmp_total };

    ghost matches_partial_cmp = { λ x y. refl };

    ghost matches_eq = { λ x y. refl };

    fn cmp(&self, other: &Self) -> Ordering {
        match (self, other) {
            (Scope::Fleet, Scope::Fleet) => Ordering::Equal,
            (Scope::Fleet, Scope::Host(_)) => Ordering::Less,
            (Scope::Host(_), Scope::Fleet) => Ordering::Greater,
            (Scope::Host(own), Scope::Host(host)) => own.cmp(host),
        }
    }
}

impl TryClone for Scope {
    fn try_clone(&self) -> Result<Scope, AllocError> {
        Scope::try_clone(self)
    }
}

impl Key for Scope {
    ghost use Rattle.load_places.specs.PlaceLaws.{scope_cmp-IsAntisymmetric};

    ghost exact = { scope_cmp-IsAntisymmetric };
}

/// A path, for the whole fleet or for one host. Places are ordered by scope, then by path.
#[derive(Debug, PartialEq, Eq, PartialOrd, Ord)]
pub struct Place {
    /// For whom the place is.
    pub scope: Scope,
    /// The path of the place.
    pub path: Path,
}

impl Drop for Place {
    fn drop(self) {
        let Place { scope: _, path: _ } = self;
    }
}

impl Place {
    /// Takes the place apart.
    pub fn into_parts(self) -> (Scope, Path)
        ensures scope { result.0 ≡ self.scope }
        ensures path { result.1 ≡ self.path }
    {
        let Place { scope, path } = self;
        (scope, path)
    }

    /// Returns an equal place that shares the bytes. Fails only if memory runs out.
    pub fn try_clone(&self) -> Result<Place, AllocError>
        ensures copy { IfOk result (λ copy. copy ≡ self.now) }
    {
        Ok(Place {
            scope: self.scope.try_clone()?,
            path: self.path.try_clone()?,
        })
    }
}

impl TryClone for Place {
    fn try_clone(&self) -> Result<Place, AllocError> {
        Place::try_clone(self)
    }
}

impl Key for Place {
    ghost use Rattle.load_places.specs.PlaceLaws.{place_cmp-IsAntisymmetric};

    ghost exact = { place_cmp-IsAntisymmetric };
}

/// Why a text is no place.
#[derive(Clone, Copy, Debug, PartialEq, Eq, Error)]
pub enum PlaceFault {
    /// H1: what precedes its first colon is no host name.
    #[error("H1 HostName")]
    HostName,
    /// F1: its path doesn't begin with a directory of the load path and a slash.
    #[error("F1 Directory")]
    Directory,
    /// F2: more than two components follow the directory.
    #[error("F2 Depth")]
    Depth,
    /// F3: a component is `.`, `..` or empty, has more than 255 bytes, or has a byte outside 33 to 126.
    #[error("F3 Component")]
    Component,
    /// Memory ran out.
    #[error("out of memory")]
    Memory,
}

impl From<HostFault> for PlaceFault {
    ghost from_gives = { λ refused fault. fault ≡ fault_of_host refused };

    fn from(refused: HostFault) -> PlaceFault {
        match refused {
            HostFault::HostName => PlaceFault::HostName,
            HostFault::Memory => PlaceFault::Memory,
        }
    }
}

impl From<PathFault> for PlaceFault {
    ghost from_gives = { λ refused fault. fault ≡ fault_of_path refused };

    fn from(refused: PathFault) -> PlaceFault {
        match refused {
            PathFault::Directory => PlaceFault::Directory,
            PathFault::Depth => PlaceFault::Depth,
            PathFault::Component => PlaceFault::Component,
            PathFault::Memory => PlaceFault::Memory,
        }
    }
}

impl Place {
    /// Parses a place: a path for the whole fleet, or a host, a colon and a path for one host. A text that doesn't
    /// begin with a slash is split at its first colon, if it has one.
    ///
    /// Fails with `HostName` if the host is no host name, else with the fault of its path, and with `Memory` if the
    /// text is a place and memory runs out. Linear in the text. A text that is refused leaves nothing allocated.
    pub fn parse(alloc: Global, text: &[u8]) -> Result<Place, PlaceFault>
        ensures parsed { (result ≡ Err PlaceFault.Memory) ⊎ (result ≡ place_of text.now) }
        ensures faults { IsErr (place_of text.now) → result ≡ place_of text.now }
    {
        let Some(at) = host_end(text) else {
            let path = Path::parse(alloc, text)?;
            return Ok(Place {
                scope: Scope::Fleet,
                path,
            });
        };
        let host = &text[..at];
        if !is_host_name(host) {
            return Err(PlaceFault::HostName);
        }
        let path = Path::parse(alloc, &text[at + 1..])?;
        let host = HostName::parse(alloc, host)?;
        Ok(Place {
            scope: Scope::Host(host),
            path,
        })
    }

    /// Appends the text of the place. Fails only if memory runs out, and then appends nothing.
    pub fn append_to(&self, out: &mut Vec<u8>) -> Result<(), AllocError>
        ensures ok { OnOk result (out.new.items ≡ out.old.items ++ place_text self.now) }
        ensures err { OnErr result (out.new.items ≡ out.old.items) }
    {
        let len = out.len();
        append_scope(out, &self.scope)?;
        match self.path.append_to(out) {
            Ok(()) => Ok(()),
            Err(refused) => {
                out.truncate(len);
                Err(refused)
            }
        }
    }
}

// Appends what precedes the path in the text. Fails only if memory runs out, and then appends nothing.
fn append_scope(out: &mut Vec<u8>, scope: &Scope) -> Result<(), AllocError>
    ensures ok { OnOk result (out.new.items ≡ out.old.items ++ scope_text scope.now) }
    ensures err { OnErr result (out.new.items ≡ out.old.items) }
{
    match scope {
        Scope::Fleet => Ok(()),
        Scope::Host(host) => {
            let host = host.bytes();
            out.reserve(host.len() + 1)?;
            out.extend_from_slice(host)?;
            out.push(b':')?;
            Ok(())
        }
    }
}

// Returns the index where the name of a host ends, if the text names a host.
fn host_end(text: &[u8]) -> Option<usize>
    ensures end { result ≡ host_end text.now }
{
    if *text.first()? == b'/' {
        return None;
    }
    first_colon(text)
}

// Returns the index of the first colon.
fn first_colon(text: &[u8]) -> Option<usize>
    ensures position { result ≡ position is_colon text.now }
{
    text.iter().position(|b| *b == b':')
}
