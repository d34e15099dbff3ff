//! The answers to requests, by the results of a caller's table.
ghost use Rattle.std.specs.Prelude.{◌≡◌};
ghost use Rattle.cv_world.specs.Answers.{AnswerFits};
ghost use Rattle.cv_world.specs.Private.Changes.{add_answer, drop_answer, part_answer};

use crate::answer::Answer;
use cv_caller::{AddFault, DropFault, PartFault};
use cv_frame::Status;

/// Returns the answer to a PUT of a charmap with `count` mappings.
pub(crate) fn add_answer(count: u32, added: Result<u32, AddFault>) -> Answer
    ensures value { result ≡ add_answer count added }
    ensures fits { AnswerFits result }
{
    match added {
        Ok(_) => Answer::Count(count),
        Err(AddFault::Exists) => Answer::Refused(Status::Exists),
        Err(AddFault::Quota) => Answer::Refused(Status::Quota),
        Err(AddFault::Full | AddFault::Memory) => Answer::Refused(Status::NoMemory),
    }
}

/// Returns the answer to a DROP.
pub(crate) fn drop_answer(dropped: Result<u32, DropFault>) -> Answer
    ensures value { result ≡ drop_answer dropped }
    ensures fits { AnswerFits result }
{
    match dropped {
        Ok(_) => Answer::Empty,
        Err(DropFault::NoName) => Answer::Refused(Status::NoName),
        Err(DropFault::Busy) => Answer::Refused(Status::Busy),
    }
}

/// Returns the answer to a PART.
pub(crate) fn part_answer(parted: Result<u32, PartFault>) -> Answer
    ensures value { result ≡ part_answer parted }
    ensures fits { AnswerFits result }
{
    match parted {
        Ok(count) => Answer::Count(count),
        Err(PartFault::Quota) => Answer::Refused(Status::Quota),
        Err(PartFault::Full | PartFault::Memory) => Answer::Refused(Status::NoMemory),
    }
}
