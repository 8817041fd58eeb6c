//! The words of a line.
ghost use Rattle.std.specs.{Prelude.{◌≡◌, [], ◌∷◌, ◌<◌, ◌≤◌, length, MatchOption, IfSome}, List.{prefix_len, position_or_len}};
ghost use Rattle.script_words.specs.Words.{words_of, after_word, text_after, is_space, skip_spaces};

use bstr::ByteSlice;

// Returns the number of leading spaces.
fn count_spaces(line: &[u8]) -> usize
    ensures count { result ≡ prefix_len is_space line.now }
    ensures within { result ≤ length line.now }
{
    line.iter().take_while(|b| **b == b' ').count()
}

// Returns a line without its leading spaces.
fn without_spaces(line: &[u8]) -> &[u8]
    ensures line { result.now ≡ skip_spaces line.now }
{
    &line[count_spaces(line)..]
}

// Returns the number of bytes before the first space.
fn count_to_space(line: &[u8]) -> usize
    ensures count { result ≡ position_or_len is_space line.now }
    ensures within { result ≤ length line.now }
{
    line.find_byte(b' ').unwrap_or(line.len())
}

/// Splits a line after its first word, and returns the word and the rest; `None` if the line has no words.
///
/// Only spaces separate words; spaces before the first word are skipped. The rest begins with a space, unless it is
/// empty.
pub fn cut_word(line: &[u8]) -> Option<(&[u8], &[u8])>
    ensures words { MatchOption result (words_of line.now ≡ [])
        (λ cut. words_of line.now ≡ cut.0.now ∷ words_of cut.1.now) }
    ensures rest { IfSome result (λ cut. cut.1.now ≡ after_word line.now) }
    ensures shorter { IfSome result (λ cut. length cut.1.now < length line.now) }
{
    let body = without_spaces(line);
    if body.is_empty() {
        return None;
    }
    Some(body.split_at(count_to_space(body)))
}

/// Returns the text after a word, given the rest that `cut_word` returned: everything after one space.
///
/// More spaces belong to the text, at its start and at its end.
pub fn text_of_rest(rest: &[u8]) -> &[u8]
    ensures text { result.now ≡ text_after 0 rest.now }
{
    rest.get(1..).unwrap_or(&[])
}
