//! Pools with a test's own compiler and gate, as engines.
ghost use Rattle.cv_caller.specs.Tables.{Table as WorldTable};
ghost use Rattle.cv_pool.specs.Pools.{pool_tables};
ghost use Rattle.cv_world.specs.Requests.{turn};

use cv_machine::Machine;
use cv_pool::Pool;

/// A pool. It is an engine only for named types of compiler and gate, since no type parameter of an engine may be sent
/// to a thread.
#[derive(Drop)]
pub struct Watched<C, G> {
    pub pool: Pool<C, G>,
}

impl<C, G> Machine for Watched<C, G> {
    ghost Table = { WorldTable };

    ghost turn = { turn };

    ghost tables = { λ engine. pool_tables engine.pool.shards.items };

    fn assert_valid(&self) {
        self.pool.assert_valid();
    }
}
