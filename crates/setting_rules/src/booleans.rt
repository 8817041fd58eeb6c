//! Boolean values.
ghost use Rattle.std.specs.{Prelude.{◌≡◌}, List.{list_any}, Str.{str_eq_ignore_ascii_case}};
ghost use Rattle.setting_rules.specs.Rules.{boolean};

/// Parses a boolean, ignoring case (systemd.syntax(7), "Introduction").
#[tactic(auto, unfolding(crate::specs::Rules::boolean))]
pub fn boolean(text: &[u8]) -> Option<bool>
    ensures boolean { result ≡ boolean text.now }
{
    if is_word_of(text, &[b"1", b"yes", b"true", b"on"]) {
        Some(true)
    } else if is_word_of(text, &[b"0", b"no", b"false", b"off"]) {
        Some(false)
    } else {
        None
    }
}

// Returns whether a text is one of these words, ignoring case.
fn is_word_of(text: &[u8], words: &[&[u8]]) -> bool
    ensures word { result ≡ list_any
        (λ word. str_eq_ignore_ascii_case text.now word.now) words.now }
{
    words.iter().any(|word| text.eq_ignore_ascii_case(word))
}
