//! Who reads a store.
ghost use Rattle.std.specs.Prelude.{IfOk, ◌≡◌};

use crate::hosts::HostName;
use plain_values::TryClone;
use profiles::Profile;
use std::alloc::AllocError;

/// Who reads a store: the manager of one host, or one of the whole fleet; and by which rules it loads units.
#[derive(Debug, PartialEq, Eq)]
pub struct Viewer {
    /// The host; none for what is seen without one.
    pub host: Option<HostName>,
    /// By which rules units are loaded. What is seen doesn't depend on it.
    pub profile: Profile,
}

impl Drop for Viewer {
    fn drop(self) {
        let Viewer {
            host: _,
            profile: _,
        } = self;
    }
}

impl Viewer {
    /// Returns an equal viewer. Fails only if memory runs out.
    pub fn try_clone(&self) -> Result<Viewer, AllocError>
        ensures copy { IfOk result (λ copy. copy ≡ self.now) }
    {
        let host = match &self.host {
            Some(host) => Some(host.try_clone()?),
            None => None,
        };
        Ok(Viewer {
            host,
            profile: self.profile,
        })
    }
}

impl TryClone for Viewer {
    fn try_clone(&self) -> Result<Viewer, AllocError> {
        Viewer::try_clone(self)
    }
}
