//! Makes what an OPEN needs, before anything changes.
ghost use Rattle.std.specs.Prelude.{◌≡◌, IfOk, IfErr};
ghost use Rattle.cv_pivot.specs.Encodings.{form_of};
ghost use Rattle.cv_caller.specs.Tables.{form_in};
ghost use Rattle.cv_caller.specs.Keyed.{named, IsHeld};
ghost use Rattle.cv_caller.specs.Results.{named_found, IsFound};
ghost use Rattle.cv_world.specs.Private.Opening.{DeclinesOpen, IsOpening};

use cv_base::{Memory, Policy};
use cv_caller::{Found, Table};
use cv_frame::Status;
use cv_pivot::{Conversion, Encoding};

/// A descriptor that is not bound yet.
#[derive(Drop)]
pub(crate) struct Opening {
    pub(crate) number: u32,
    pub(crate) to: Option<u8>,
    pub(crate) from: Option<u8>,
    pub(crate) conversion: Conversion,
}

/// Returns an encoding that was found, with the slot of its charmap unless it is built in.
fn take_found(table: &Table, found: Found) -> Result<(Option<u8>, Encoding), Memory>
    requires { IsFound table.now.charmaps found }
    ensures named { IfOk result (λ r. named r.0 r.1 ≡ named_found found) }
    ensures form { IfOk result (λ r. form_of r.1 ≡ form_in table.now.charmaps (named r.0 r.1)) }
    ensures held { IfOk result (λ r. IsHeld table.now.charmaps r.0) }
{
    match found {
        Found::Builtin(encoding) => Ok((None, encoding)),
        Found::Map(place) => Ok((Some(place), table.encoding(place)?)),
    }
}

/// Returns what an OPEN needs, or the status if it is refused. Changes nothing.
pub(crate) fn prepare(
    table: &Table,
    to: &[u8],
    from: &[u8],
    policy: Policy,
) -> Result<Opening, Status>
    ensures declines { IfErr result (λ s. DeclinesOpen table.now to.now from.now s) }
    ensures opening { IfOk result (λ o. IsOpening table.now to.now from.now policy o) }
{
    let Some(number) = table.least_free() else {
        return Err(Status::TooManyDescriptors);
    };
    let Some(to) = table.find(to) else {
        return Err(Status::Unsupported);
    };
    let Some(from) = table.find(from) else {
        return Err(Status::Unsupported);
    };
    let Ok((to_place, to)) = take_found(table, to) else {
        return Err(Status::NoMemory);
    };
    let Ok((from_place, from)) = take_found(table, from) else {
        return Err(Status::NoMemory);
    };
    Ok(Opening {
        number,
        to: to_place,
        from: from_place,
        conversion: Conversion::new(to, from, policy),
    })
}
