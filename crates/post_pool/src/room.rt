ghost use Rattle.std.specs.Prelude.{◌≡◌, ◌<◌, OnOk, vec_len, vec_capacity};

use std::alloc::AllocError;

/// The room that a list takes at first.
const FIRST_ROOM: usize = 4;

/// Makes room for one more. A list without room doubles, but never takes room past the limit; so many calls in a row
/// take constant time on average.
pub(crate) fn make_room<T>(list: &mut Vec<T>, limit: u32) -> Result<(), AllocError>
    requires { vec_len list.old < limit }
    ensures items { list.new.items ≡ list.old.items }
    ensures room { OnOk result (vec_len list.new < vec_capacity list.new) }
{
    let len = list.len();
    if len < list.capacity() {
        return Ok(());
    }
    let allowed = limit as usize - len;
    list.reserve_exact(len.max(FIRST_ROOM).min(allowed))
}
