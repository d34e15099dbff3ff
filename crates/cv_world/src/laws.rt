//! Laws of the turns of a world. Those of its runs hold of every machine.
ghost use Rattle.cv_machine.specs.Machine.{IsOneAnswer, IsSomeAnswer};
ghost use Rattle.cv_world.specs.Laws.{KeepsTables, RunsKeepTables, NeverLacksAlone, LacksWhereTaken};
ghost use Rattle.cv_world.specs.Feeds.{Feeds};
ghost use Rattle.cv_world.specs.Laws.{JoinsParts, ByeStartsAgain, NamesReadBack};
ghost use Rattle.cv_world.specs.Requests.{turn};
ghost use Rattle.cv_world.specs.Stateless.{Stateless};

pub use cv_machine::laws::{merges, one_service, one_writing, schedules, two_worlds};

/// Each request has at most one answer besides an allocation failure.
#[tactic(auto, using(crate::proofs::OneAnswer::one_answer))]
pub fn one_answer()
    ensures { IsOneAnswer turn }
{
    // The contract is the law; nothing runs.
}

/// Each request has some answer. If it takes memory, an allocation failure is one.
#[tactic(auto, using(crate::proofs::SomeAnswer::some_answer))]
pub fn some_answer()
    ensures { IsSomeAnswer turn }
{
    // The contract is the law; nothing runs.
}

/// A sound table stays sound, whatever is asked.
#[tactic(auto, using(crate::proofs::KeepsTables::keeps_tables))]
pub fn keeps_tables()
    ensures { KeepsTables }
{
    // The contract is the law; nothing runs.
}

/// After every run from empty tables each caller's table is sound.
pub fn runs_keep_tables()
    ensures { RunsKeepTables }
{
    // The contract is the law; nothing runs.
}

/// At a sound table, a request that may run out of memory has another outcome too: there is always a longest
/// conversion.
pub fn never_lacks_alone()
    ensures { NeverLacksAlone }
{
    // The contract is the law; nothing runs.
}

/// Only a PUT, an OPEN, a CONV and a PART that is not empty may be answered ENOMEM.
pub fn lacks_where_taken()
    ensures { LacksWhereTaken }
{
    // The contract is the law; nothing runs.
}

/// A charmap whose text is sent in parts is held as if the text were sent whole.
#[tactic(auto, using(crate::proofs::JoinedParts::joins_parts))]
pub fn joins_parts()
    ensures { JoinsParts }
{
    // The contract is the law; nothing runs.
}

/// After a BYE its caller has the table of one that never asked.
pub fn bye_starts_again()
    ensures { ByeStartsAgain }
{
    // The contract is the law; nothing runs.
}

/// The body of a DROP is a name, encoded as those of an OPEN are, and no other body is read as one.
#[tactic(auto, using(crate::proofs::NamesBack::names_read_back))]
pub fn names_read_back()
    ensures { NamesReadBack }
{
    // The contract is the law; nothing runs.
}

/// What a descriptor writes for a text does not depend on how the text and the room were divided among calls, in any
/// run.
pub fn feeds()
    ensures { Feeds }
{
    // The contract is the law; nothing runs.
}

/// Between encodings without marks and shifts a descriptor is at its start after every run, and a CONV of it leaves its
/// caller's table as it was.
pub fn stateless()
    ensures { Stateless }
{
    // The contract is the law; nothing runs.
}
