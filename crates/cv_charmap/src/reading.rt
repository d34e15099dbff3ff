//! Reading a charmap line by line.

ghost use Rattle.std.specs.Prelude.{◌≡◌, ℕ};
ghost use Rattle.cv_lex.specs.Seen.{line_seen, HasBytes};
ghost use Rattle.cv_charmap.specs.Private.Runs.{next_number};
ghost use Rattle.cv_charmap.specs.Private.Seen.{TakesInside, NextTo, taken, header_seen, state_seen, AboveTo};
ghost use Rattle.cv_charmap.specs.Private.Seen.{InsideTo, after_entries};

use crate::fault::{CompileFault, MapFault};
use crate::header::Header;
use crate::pair_list::{EntryFault, PairList};
use crate::phase::{Phase, ReaderState};
use crate::range::{enter_sized_one, enter_sized_range};
use crate::range_start::RangeStart;
use cv_lex::{Line, read_line, read_plain};

/// Reads a line above `CHARMAP`. Returns the header's values after it, and the part in which the next line is.
pub(crate) fn read_above<'a>(
    header: Header<'a>,
    line: &'a [u8],
    number: u32,
) -> Result<(Header<'a>, Phase), MapFault>
    ensures { AboveTo (header_seen header.entry) line.entry.now number result }
{
    match read_line(&header.marks(false), line) {
        Ok(Line::Begin) => Ok((header, Phase::Inside)),
        Ok(Line::Setting(setting)) => Ok((header.with(setting), Phase::Above)),
        Ok(_) => Ok((header, Phase::Above)),
        Err(cause) => Err(MapFault {
            line: number,
            cause,
        }),
    }
}

/// Returns what follows from entering a mapping: the part in which the next line is, or why the text is not read.
fn after(entered: Result<(), EntryFault>, number: u32) -> Result<Phase, CompileFault>
    ensures { result ≡ after_entries entered number }
{
    match entered {
        Ok(()) => Ok(Phase::Inside),
        Err(EntryFault::Faulty(cause)) => Err(CompileFault::Map(MapFault {
            line: number,
            cause,
        })),
        Err(EntryFault::Memory) => Err(CompileFault::Memory),
    }
}

/// Does what a line among the mappings says. Returns the part in which the next line is.
fn take_inside(
    pairs: &mut PairList,
    header: &Header<'_>,
    line: Line<'_>,
    number: u32,
) -> Result<Phase, CompileFault>
    requires { HasBytes line }
    ensures { TakesInside (header_seen header.now) pairs.old (line_seen line.entry) number result
        pairs.new }
{
    match line {
        Line::Finish => Ok(Phase::Behind),
        Line::One { c, bytes } => {
            let entered = enter_sized_one(pairs, header, c, bytes.as_slice());
            after(entered, number)
        }
        Line::Range {
            first,
            last,
            hex,
            bytes,
        } => {
            let start = RangeStart {
                hex,
                first,
                bytes: bytes.as_slice(),
            };
            let entered = enter_sized_range(pairs, header, &start, last);
            after(entered, number)
        }
        Line::Skip | Line::Begin | Line::Setting(_) => Ok(Phase::Inside),
    }
}

/// Reads a line among the mappings, and returns the part in which the next line is. Lines of the commonest form are
/// tried first: their reading is that of `read_line`.
pub(crate) fn read_inside(
    pairs: &mut PairList,
    header: &Header<'_>,
    line: &[u8],
    number: u32,
) -> Result<Phase, CompileFault>
    ensures { InsideTo (header_seen header.now) pairs.old line.now number result pairs.new }
{
    let marks = header.marks(true);
    let mut bytes = [0u8; 8];
    if let Some((c, n)) = read_plain(&marks, line, &mut bytes) {
        let entered = enter_sized_one(pairs, header, c, &bytes[..n]);
        return after(entered, number);
    }
    match read_line(&marks, line) {
        Ok(said) => take_inside(pairs, header, said, number),
        Err(cause) => Err(CompileFault::Map(MapFault {
            line: number,
            cause,
        })),
    }
}

/// Reads a line in the part of the charmap in which it is, and sets what the next line depends on.
#[tactic(auto, unfolding(crate::specs::Private::Runs::line_run))]
pub(crate) fn read_next<'a>(
    pairs: &mut PairList,
    state: &mut ReaderState<'a>,
    line: &'a [u8],
    number: u32,
) -> Result<(), CompileFault>
    ensures { (k : ℕ) → number ≡ next_number k
        → NextTo (state_seen state.old.header pairs.old state.old.phase k) line.entry.now (taken state.new result)
        pairs.new }
{
    match state.phase {
        Phase::Above => match read_above(state.header, line, number) {
            Ok((header, phase)) => {
                *state = ReaderState { header, phase };
                Ok(())
            }
            Err(fault) => Err(CompileFault::Map(fault)),
        },
        Phase::Inside => match read_inside(pairs, &state.header, line, number) {
            Ok(phase) => {
                state.phase = phase;
                Ok(())
            }
            Err(fault) => Err(fault),
        },
        Phase::Behind => Ok(()),
    }
}
