//! The words that name profiles.
ghost use Rattle.std.specs.Prelude.{◌≡◌};
ghost use Rattle.script_commands.specs.Profiles.{profile_of};

use profiles::Profile;

/// Returns the profile that a word names, if it names one.
pub(crate) fn profile_of(word: &[u8]) -> Option<Profile>
    ensures profile { result ≡ profile_of word.now }
{
    if word == b"files".as_slice() {
        Some(Profile::Files)
    } else if word == b"manager".as_slice() {
        Some(Profile::Manager)
    } else {
        None
    }
}
