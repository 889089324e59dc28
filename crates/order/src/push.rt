//! Pushes onto the lists of an ordered read.
ghost use Rattle.std.specs.Prelude.{◌≡◌, ◌++◌, [], ◌∷◌, if◌then◌else◌};

use std::alloc::Global;

/// Adds this to a list, and returns whether there was memory for it. Where the list has room, that
/// is one test, and no call.
#[inline(always)]
pub(crate) fn push_onto<T: Drop>(list: &mut Vec<T, Global>, item: T) -> bool
    ensures { list.new.items ≡ (if result then list.old.items ++ item ∷ [] else list.old.items) }
{
    if list.len() < list.capacity() {
        list.push_reserved(item);
        return true;
    }
    push_and_grow(list, item)
}

/// Adds this to a list without room, if there is memory for it.
#[cold]
#[inline(never)]
fn push_and_grow<T: Drop>(list: &mut Vec<T, Global>, item: T) -> bool
    ensures { list.new.items ≡ (if result then list.old.items ++ item ∷ [] else list.old.items) }
{
    list.push(item).is_ok()
}
