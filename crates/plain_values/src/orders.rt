//! Order and equality of byte strings.
ghost use Rattle.std.specs.{Prelude.{◌≡◌, ◌≢◌, ◌≤◌, ◌+◌, None, length, take}, Option.{IfSome}, Ordering.{eq_by_cmp, nat_cmp}};
ghost use Rattle.std.specs.{Cmp.Lexicographic.{slice_cmp}, declared.cmp.Ordering.TheVariants.{Equal}};
ghost use Rattle.plain_values.specs.Spelling.{spelled};

use std::cmp::Ordering;

// The number of bytes that are compared as one `u64`.
const WORD: usize = 8;

// The number of bytes in half a word.
const HALF: usize = 4;

// The number of bytes in four words.
const LINE: usize = 32;

/// Compares two byte strings lexicographically: eight bytes at a time as big-endian numbers, the last ones singly.
pub fn order(a: &[u8], b: &[u8]) -> Ordering
    ensures order { result ≡ slice_cmp nat_cmp a.now b.now }
{
    let mut a_left = a;
    let mut b_left = b;
    while a_left.len() >= WORD && b_left.len() >= WORD {
        let (x, y) = (first_word(a_left), first_word(b_left));
        if x != y {
            return x.cmp(&y);
        }
        a_left = &a_left[WORD..];
        b_left = &b_left[WORD..];
    }
    order_of_few(a_left, b_left)
}

// The same comparison, byte by byte.
fn order_of_few(a: &[u8], b: &[u8]) -> Ordering
    ensures order { result ≡ slice_cmp nat_cmp a.now b.now }
{
    let shared = a.len().min(b.len());
    for place in 0..shared {
        if a[place] != b[place] {
            return a[place].cmp(&b[place]);
        }
    }
    a.len().cmp(&b.len())
}

// The first eight bytes as a big-endian number.
fn first_word(bytes: &[u8]) -> u64
    requires eight { 8 ≤ length bytes.now }
    ensures word { result ≡ spelled 0 (take 8 bytes.now) }
{
    u64::from_be_bytes([
        bytes[0], bytes[1], bytes[2], bytes[3], bytes[4], bytes[5], bytes[6], bytes[7],
    ])
}

/// Returns whether two byte strings are equal. Compares 32 bytes at a time, then eight, then four, and the last ones
/// singly.
pub fn same(a: &[u8], b: &[u8]) -> bool
    ensures same { result ≡ eq_by_cmp (slice_cmp nat_cmp) a.now b.now }
{
    if a.len() != b.len() {
        return false;
    }
    match past_all_words(a, b) {
        Some((a_left, b_left)) => are_few_same(a_left, b_left),
        None => false,
    }
}

// Skips the whole words that both strings begin with, and returns what remains of each; `None` if two words differ.
fn past_all_words<'a>(a: &'a [u8], b: &'a [u8]) -> Option<(&'a [u8], &'a [u8])>
    ensures left { IfSome result
        (λ left. slice_cmp nat_cmp left.0.now left.1.now ≡ slice_cmp nat_cmp a.now b.now) }
    ensures differ { result ≡ None → slice_cmp nat_cmp a.now b.now ≢ Equal }
{
    let (mut a_left, mut b_left) = past_lines(a, b)?;
    while a_left.len() >= WORD && b_left.len() >= WORD {
        (a_left, b_left) = past_word(a_left, b_left)?;
    }
    Some((a_left, b_left))
}

// Skips whole lines of 32 bytes, and returns what remains of each string; `None` if two words differ.
fn past_lines<'a>(a: &'a [u8], b: &'a [u8]) -> Option<(&'a [u8], &'a [u8])>
    ensures left { IfSome result
        (λ left. slice_cmp nat_cmp left.0.now left.1.now ≡ slice_cmp nat_cmp a.now b.now) }
    ensures differ { result ≡ None → slice_cmp nat_cmp a.now b.now ≢ Equal }
{
    let mut a_left = a;
    let mut b_left = b;
    while a_left.len() >= LINE && b_left.len() >= LINE {
        let (a_second, b_second) = past_word(a_left, b_left)?;
        let (a_third, b_third) = past_word(a_second, b_second)?;
        let (a_last, b_last) = past_word(a_third, b_third)?;
        (a_left, b_left) = past_word(a_last, b_last)?;
    }
    Some((a_left, b_left))
}

// Skips the first eight bytes, and returns what remains of each string; `None` if they differ.
#[inline(always)]
fn past_word<'a>(a: &'a [u8], b: &'a [u8]) -> Option<(&'a [u8], &'a [u8])>
    requires eight { 8 ≤ length a.now }
    requires other_eight { 8 ≤ length b.now }
    ensures left { IfSome result
        (λ left. slice_cmp nat_cmp left.0.now left.1.now ≡ slice_cmp nat_cmp a.now b.now) }
    ensures following { IfSome result (λ left. 8 + length left.0.now ≡ length a.now) }
    ensures other_following { IfSome result (λ left. 8 + length left.1.now ≡ length b.now) }
    ensures differ { result ≡ None → slice_cmp nat_cmp a.now b.now ≢ Equal }
{
    if first_word(a) != first_word(b) {
        return None;
    }
    Some((&a[WORD..], &b[WORD..]))
}

// Returns whether two strings of fewer than eight bytes are equal. Compares four bytes at once if both have as many.
fn are_few_same(a: &[u8], b: &[u8]) -> bool
    ensures same { result ≡ eq_by_cmp (slice_cmp nat_cmp) a.now b.now }
{
    if a.len() < HALF || b.len() < HALF {
        return order_of_few(a, b).is_eq();
    }
    if first_half(a) != first_half(b) {
        return false;
    }
    order_of_few(&a[HALF..], &b[HALF..]).is_eq()
}

// The first four bytes as a big-endian number.
fn first_half(bytes: &[u8]) -> u32
    requires four { 4 ≤ length bytes.now }
    ensures half { result ≡ spelled 0 (take 4 bytes.now) }
{
    u32::from_be_bytes([bytes[0], bytes[1], bytes[2], bytes[3]])
}
