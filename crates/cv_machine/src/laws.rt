//! Laws of the runs of a machine.

ghost use Rattle.cv_machine.specs.Isolation.{OneWriting, OneService, TwoWorlds, AnySchedule, AnyMerge};

use crate::machine::Machine;

/// States that two answers to one byte string are the same if the same replies in both say that an allocation failed.
pub fn one_writing<M: Machine>(machine: &M)
    ensures { OneWriting M.turn }
{
    machine.assert_valid();
}

/// States that a byte string has at most one answer in which no reply says that an allocation failed.
pub fn one_service<M: Machine>(machine: &M)
    ensures { OneService M.turn }
{
    machine.assert_valid();
}

/// States that the replies to a caller, and its table in the end, depend only on its table at the beginning, on its own
/// requests, and on which of these got ENOMEM.
pub fn two_worlds<M: Machine>(machine: &M)
    ensures { TwoWorlds M.turn }
{
    machine.assert_valid();
}

/// States that two runs give each caller the same replies, and leave the same tables, if they differ only in how the
/// requests of different callers interleave, and if the same requests got ENOMEM.
pub fn schedules<M: Machine>(machine: &M)
    ensures { AnySchedule M.turn }
{
    machine.assert_valid();
}

/// States that runs of parts of the callers are together one run, in whatever order their events interleave.
pub fn merges<M: Machine>()
    ensures { AnyMerge M.turn }
{
    // The contract is the law; nothing runs.
}
