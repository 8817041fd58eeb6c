//! The lines of a script.
ghost use Rattle.std.specs.{Prelude.{◌≡◌, ◌∷◌, ◌<◌, length}, List.{list_all}, Str.Lines.{strip_carriage_return}};
ghost use Rattle.script_words.specs.{Lines.{lines_of, is_passed_over}, Words.{is_space}};

use bstr::ByteSlice;

/// Splits a script after its first line, and returns the line and the rest.
///
/// A line ends at a line feed, which belongs to neither part; one carriage return directly before the line feed is
/// dropped. The last line needs no line feed, and then keeps its carriage return.
pub fn cut_line(script: &[u8]) -> (&[u8], &[u8])
    requires some { 0 < length script.now }
    ensures lines { lines_of script.now ≡ result.0.now ∷ lines_of result.1.now }
    ensures shorter { length result.1.now < length script.now }
{
    match script.find_byte(b'\n') {
        None => (script, &[]),
        Some(end) => (without_return(&script[..end]), &script[end + 1..]),
    }
}

// Returns a line without the one carriage return at its end.
fn without_return(line: &[u8]) -> &[u8]
    ensures line { result.now ≡ strip_carriage_return line.now }
{
    line.strip_suffix(b"\r").unwrap_or(line)
}

/// Returns whether a line is ignored: it begins with `#`, is empty, or has only spaces.
#[tactic(auto, unfolding(crate::specs::Lines::is_passed_over))]
pub fn is_passed_over(line: &[u8]) -> bool
    ensures value { result ≡ is_passed_over line.now }
{
    line.starts_with(b"#") || has_only_spaces(line)
}

fn has_only_spaces(line: &[u8]) -> bool
    ensures value { result ≡ list_all is_space line.now }
{
    line.iter().all(|b| *b == b' ')
}
