//! Stores, as lines write them.
use profiles::Profile;
use replica_store::{HostName, Store, Viewer};
use unit_name::UnitName;
use worked_lines::{LineFault, Words};

/// A write to the answer, or why it failed.
pub type Done = Result<(), LineFault>;

/// A store, who looks at it, and the names that are asked for.
pub struct Asked {
    pub viewer: Viewer,
    pub store: Store,
    pub names: Vec<UnitName>,
}

impl Drop for Asked {
    fn drop(self) {
        let Asked {
            viewer: _,
            store: _,
            names: _,
        } = self;
    }
}

/// The manager of a host, or one of the whole fleet, that loads units as their files say alone.
pub fn by_files(host: Option<HostName>) -> Viewer {
    Viewer {
        host,
        profile: Profile::Files,
    }
}

/// What a list of edits and a list of names write, for a call that a host makes, or none.
pub fn asked_of(words: &mut Words, viewer: Viewer) -> Result<Asked, LineFault> {
    let store = words.store()?;
    let names = words.names()?;
    Ok(Asked {
        viewer,
        store,
        names,
    })
}
