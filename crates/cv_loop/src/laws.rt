//! Laws of what is served.
ghost use Rattle.cv_loop.specs.Laws.{SomeService, FirstServed};

use cv_frame::laws::one_cut;
use cv_machine::Machine;
use cv_world::laws::{keeps_tables, never_lacks_alone};

/// From sound tables something is served for every stream: it is impossible that all runs of its whole frames have a
/// failed allocation. `one_service` says that at most one byte string is served for a stream.
pub fn some_service()
    ensures { SomeService }
{
    one_cut();
    keeps_tables();
    never_lacks_alone();
}

/// However serving ended, also by a failed write: if none of the replies that were written whole says that an
/// allocation failed, they are the first of those that are served.
pub fn first_served<M: Machine>(machine: &M)
    ensures { FirstServed M.turn }
{
    machine.assert_valid();
}
