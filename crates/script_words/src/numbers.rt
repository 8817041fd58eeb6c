//! The numbers in scripts.
ghost use Rattle.std.specs.{Prelude.{◌≡◌, ◌≤◌, true, length}, Char.{is_ascii_digit}, List.{list_all}, Str.Parse.{digits_value}};
ghost use Rattle.script_words.specs.Numbers.{number_of};

/// The most digits of a number, leading zeros included.
const MOST_DIGITS: usize = 10;

/// Returns the number that a word spells: 1 to 10 decimal digits, at most 4,294,967,295; `None` for any other word.
#[tactic(auto, unfolding(crate::specs::Numbers::number_of))]
pub fn parse_number(word: &[u8]) -> Option<u32>
    ensures value { result ≡ number_of word.now }
{
    if word.is_empty() || word.len() > MOST_DIGITS || !all_digits(word) {
        return None;
    }
    u32::try_from(value_of(word)).ok()
}

fn all_digits(word: &[u8]) -> bool
    ensures value { result ≡ list_all is_ascii_digit word.now }
{
    word.iter().all(|b| b.is_ascii_digit())
}

// Returns the value of decimal digits.
fn value_of(digits: &[u8]) -> u64
    requires few { length digits.now ≤ MOST_DIGITS }
    requires digits { list_all is_ascii_digit digits.now ≡ true }
    ensures value { result ≡ digits_value 10 digits.now }
{
    let mut value = 0;
    for b in digits {
        value = value * 10 + u64::from(*b - b'0');
    }
    value
}
