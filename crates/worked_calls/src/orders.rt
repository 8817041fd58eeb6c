//! How values are ordered.
use std::cmp::Ordering;
use worked_lines::Answer;

// How one value compares to another, by all tests that there are.
fn sign<T: Ord>(low: &T, high: &T) -> u8 {
    match low.cmp(high) {
        Ordering::Less if low < high => b'<',
        Ordering::Equal if low == high => b'=',
        Ordering::Greater if low > high => b'>',
        _ => b'?',
    }
}

// Writes how a value compares to each of these.
fn append_row<T: Ord>(out: &mut Answer, low: &T, values: &[T]) {
    for high in values {
        out.write(&[sign(low, high)]);
    }
}

/// Writes a word of `<`, `=` and `>` for each value: how it compares to each of them.
pub fn append_signs<T: Ord>(out: &mut Answer, values: &[T]) {
    for low in values {
        out.part(b" ");
        append_row(out, low, values);
    }
}
