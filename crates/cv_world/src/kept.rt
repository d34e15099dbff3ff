//! One caller's table, as a world keeps it.
ghost use Rattle.std.specs.Prelude.{◌≡◌, IfOk};

use cv_base::Memory;
use cv_caller::Table;
use std::alloc::Global;
use std::marker::Model;

/// One caller's table, in an allocation of its own: a node of the map of callers may be half empty, and a table has 208
/// bytes. Contracts see the table.
#[derive(Drop)]
pub(crate) struct Kept {
    pub(crate) table: Box<Table>,
}

impl Model for Kept {
    ghost use Rattle.cv_caller.specs.Keyed.{Keyed};

    ghost Value = { Keyed };

    ghost view = { λ kept. kept.table.value };
}

impl Kept {
    pub(crate) fn new(alloc: Global, table: Table) -> Result<Kept, Memory>
        ensures { IfOk result (λ kept. kept ≡ table) }
    {
        match Box::new(alloc, table) {
            Ok(table) => Ok(Kept { table }),
            Err(_) => Err(Memory),
        }
    }
}
