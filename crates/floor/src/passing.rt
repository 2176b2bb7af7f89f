// Passing orders as they are lent to a floor.
ghost use Rattle.std.specs.Prelude.{◌≡◌};
ghost use Rattle.traffic.specs.Index.{order_at};
ghost use Rattle.floor.specs.Passing.{orders_of};

use meetings::meet::First;

/// Who goes first at the meetings of a plan, by their numbers. Nothing is copied.
#[derive(Clone, Copy)]
pub enum PassingOrders<'a> {
    /// Who goes first at each meeting.
    Named(&'a [First]),
    /// The same, where some meetings are left out.
    Partial(&'a [Option<First>]),
}

impl PassingOrders<'_> {
    /// Who goes first at a meeting; none where it is left out.
    pub fn get(self, meeting: usize) -> Option<First>
        ensures { result ≡ order_at (orders_of self.entry) meeting }
    {
        match self {
            PassingOrders::Named(firsts) => firsts.get(meeting).copied(),
            PassingOrders::Partial(orders) => orders.get(meeting).copied().flatten(),
        }
    }
}
