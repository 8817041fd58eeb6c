//! The names in scripts.
ghost use Rattle.std.specs.{Prelude.{◌≡◌}, Char.{is_ascii_alphanumeric}, List.{list_all}};
ghost use Rattle.script_words.specs.Names.{is_name};

/// The most bytes of a name.
const LONGEST: usize = 32;

/// Returns whether a word is a name: 1 to 32 bytes, each an ASCII letter or digit.
#[tactic(auto, unfolding(crate::specs::Names::is_name))]
pub fn is_name(word: &[u8]) -> bool
    ensures value { result ≡ is_name word.now }
{
    !word.is_empty() && word.len() <= LONGEST && all_alphanumeric(word)
}

fn all_alphanumeric(word: &[u8]) -> bool
    ensures value { result ≡ list_all is_ascii_alphanumeric word.now }
{
    word.iter().all(|b| b.is_ascii_alphanumeric())
}
