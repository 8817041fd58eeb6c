//! Copies of lists whose elements can be copied if memory allows.
ghost use Rattle.std.specs.Prelude.{◌≡◌, ◌++◌, IfOk, OnOk};

use crate::keys::TryClone;
use std::alloc::{AllocError, Global};

/// Returns copies of the elements. Allocates their list once. Fails only if memory runs out.
pub fn copied<T: TryClone>(alloc: Global, elements: &[T]) -> Result<Vec<T>, AllocError>
    ensures copy { IfOk result (λ copy. copy.items ≡ elements.now) }
{
    let mut copy = Vec::with_capacity(alloc, elements.len())?;
    append_copies(&mut copy, elements)?;
    Ok(copy)
}

/// Appends copies of the elements to a list. Fails only if memory runs out; the list then has some of the copies.
pub fn append_copies<T: TryClone>(list: &mut Vec<T>, elements: &[T]) -> Result<(), AllocError>
    ensures appended { OnOk result (list.new.items ≡ list.old.items ++ elements.now) }
{
    for element in elements {
        list.push(element.try_clone()?)?;
    }
    Ok(())
}
