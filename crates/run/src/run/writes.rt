// What a run writes.
ghost use Rattle.std.specs.Prelude.{◌≤◌, length, IsOk, IsSome};
ghost use Rattle.run.specs.Writes.{OrdersWritten};

use super::Run;
use orders::write::{ROOM_FOR_ORDERS, write_orders};
use refusals::Refusal;

impl Run {
    /// Writes the order file of the orders in force into the front of a buffer, and answers its
    /// length.
    pub fn write_orders(&self, out: &mut [u8]) -> Result<usize, Refusal>
        ensures written { OrdersWritten self.now result out.old out.new }
        ensures room { IsSome self.now → ROOM_FOR_ORDERS ≤ length out.old → IsOk result }
    {
        let driven = self.driven.as_ref().ok_or(Refusal::NoPlan)?;
        Ok(write_orders(driven.plan(), driven.firsts(), out)?)
    }
}
