//! One pass over sorted pairs, which are held in two parts: those already passed, and those still ahead.
ghost use Rattle.std.specs.{Prelude.{◌≡◌, ◌+◌, ◌<◌, ◌≤◌, ◌++◌, [], take, drop, vec_len, vec_capacity}, VecDeque.{deque_len}};
ghost use Rattle.sorted_pairs.specs.Places.{AreBelow, IsNotBelow};

use std::collections::VecDeque;

/// Moves the pairs whose keys are below `key` to `passed`. No pair is lost or reordered. Linear in the pairs that it
/// moves.
pub fn pass_below<K: Ord + Drop, V: Drop>(
    passed: &mut Vec<(K, V)>,
    rest: &mut VecDeque<(K, V)>,
    key: &K,
)
    requires room { vec_len passed.old + deque_len rest.old ≤ vec_capacity passed.old }
    requires below { AreBelow K.cmp key.now passed.old.items }
    ensures pairs { passed.new.items ++ rest.new.items ≡ passed.old.items ++ rest.old.items }
    ensures below { AreBelow K.cmp key.now passed.new.items }
    ensures next { IsNotBelow K.cmp key.now rest.new.items }
    ensures len { vec_len passed.new + deque_len rest.new
        ≡ vec_len passed.old + deque_len rest.old }
    ensures capacity { vec_capacity passed.old ≤ vec_capacity passed.new }
{
    while let Some(pair) = rest.front() {
        if !pair.0.cmp(key).is_lt() {
            return;
        }
        pass_one(passed, rest);
    }
}

/// Moves all remaining pairs to `passed`. Linear in them.
pub fn pass_all<K: Drop, V: Drop>(passed: &mut Vec<(K, V)>, rest: &mut VecDeque<(K, V)>)
    requires room { vec_len passed.old + deque_len rest.old ≤ vec_capacity passed.old }
    ensures pairs { passed.new.items ≡ passed.old.items ++ rest.old.items }
    ensures none_left { rest.new.items ≡ [] }
{
    while !rest.is_empty() {
        pass_one(passed, rest);
    }
}

// Moves the first remaining pair.
fn pass_one<K: Drop, V: Drop>(passed: &mut Vec<(K, V)>, rest: &mut VecDeque<(K, V)>)
    requires room { vec_len passed.old + deque_len rest.old ≤ vec_capacity passed.old }
    requires some { 0 < deque_len rest.old }
    ensures pairs { passed.new.items ++ rest.new.items ≡ passed.old.items ++ rest.old.items }
    ensures first { passed.new.items ≡ passed.old.items ++ take 1 rest.old.items }
    ensures left { rest.new.items ≡ drop 1 rest.old.items }
    ensures len { vec_len passed.new + deque_len rest.new
        ≡ vec_len passed.old + deque_len rest.old }
    ensures shorter { deque_len rest.new + 1 ≡ deque_len rest.old }
    ensures capacity { vec_capacity passed.old ≤ vec_capacity passed.new }
{
    if let Some(pair) = rest.pop_front() {
        match passed.push(pair) {
            Ok(()) => {}
            Err(_) => unreachable!(),
        }
    }
}
