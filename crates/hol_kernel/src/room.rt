ghost use Rattle.std.specs.Prelude.{◌≡◌, ◌<◌, ◌≤◌, ◌+◌, [], ◌∷◌, ◌++◌, vec_len, vec_capacity, OnOk};

use crate::kernel::Record;
use crate::step::Step;
use hol_terms::defs::Def;
use std::alloc::AllocError;

/// Makes room for a definition and for `count` steps that say it.
pub(crate) fn make_room(
    defs: &mut Vec<Def>,
    steps: &mut Vec<Record>,
    log: &mut Vec<Step>,
    made: &mut Vec<usize>,
    count: usize,
) -> Result<(), AllocError>
    ensures defs { defs.new.items ≡ defs.old.items }
    ensures steps { steps.new.items ≡ steps.old.items }
    ensures log { log.new.items ≡ log.old.items }
    ensures made { made.new.items ≡ made.old.items }
    ensures def_fits { OnOk result (vec_len defs.new < vec_capacity defs.new) }
    ensures steps_fit { OnOk result (vec_len steps.new + count ≤ vec_capacity steps.new) }
    ensures log_fits { OnOk result (vec_len log.new + count ≤ vec_capacity log.new) }
    ensures made_fits { OnOk result (vec_len made.new < vec_capacity made.new) }
{
    defs.reserve(1)?;
    steps.reserve(count)?;
    log.reserve(count)?;
    made.reserve(1)?;
    Ok(())
}

/// Pushes where there is room, which takes no memory.
pub(crate) fn push_within<T: Drop>(items: &mut Vec<T>, item: T)
    requires { vec_len items.old < vec_capacity items.old }
    ensures items { items.new.items ≡ items.old.items ++ item ∷ [] }
    ensures room { vec_capacity items.old ≤ vec_capacity items.new }
{
    let Ok(()) = items.push(item) else {
        unreachable!()
    };
}

/// Pushes two where there is room.
pub(crate) fn push_two_within<T: Drop>(items: &mut Vec<T>, first: T, second: T)
    requires { vec_len items.old + 2 ≤ vec_capacity items.old }
    ensures { items.new.items ≡ items.old.items ++ first ∷ second ∷ [] }
{
    push_within(items, first);
    push_within(items, second);
}
