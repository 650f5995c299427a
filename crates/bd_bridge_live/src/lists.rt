//! The lists that an engine names, as a bridge has them.

ghost use Rattle.std.specs.Prelude.{◌≡◌, OnOk, map};
ghost use Rattle.bd_bridge_live.specs.Lists.{converted};

use bd_bridge::TodoList;
use std::alloc::AllocError;

fn convert(list: bd_space::TodoList) -> TodoList
    ensures { result ≡ converted list }
{
    match list {
        bd_space::TodoList::OfThread(seat) => TodoList::OfSeat(seat),
        bd_space::TodoList::OfProcess(place) => TodoList::OfProcess(place),
    }
}

/// Puts them in place of what was there. Errors: memory was refused.
pub(crate) fn convert_all(
    lists: &[bd_space::TodoList],
    out: &mut Vec<TodoList>,
) -> Result<(), AllocError>
    ensures { OnOk result (out.new.items ≡ map converted lists.now) }
{
    out.clear();
    for list in lists {
        out.push(convert(*list))?;
    }
    Ok(())
}
