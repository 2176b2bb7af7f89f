// Statements about order files that are proved once and for all. The function does nothing: its contract is what it is for.
ghost use Rattle.orders.specs.Worked.{WorkedOrders, OwnWaits};

/// The order file of a plan worked by hand, byte by byte; and the waits of a plan are those of its firsts.
pub fn worked_orders_stand()
    ensures bytes { WorkedOrders }
    ensures own { OwnWaits }
{}
