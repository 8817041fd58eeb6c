//! The profiles.

/// What a unit has beside what its files ask for.
#[derive(Clone, Copy, Debug, PartialEq, Eq)]
pub enum Profile {
    /// Nothing: a unit has what its files and links ask for.
    Files,
    /// What systemd's system manager implies: the implicit and default dependencies that the page of each type of unit
    /// lists (as systemd.service(5), "Implicit Dependencies" and "Default Dependencies"), and units that need no file.
    Manager,
}
