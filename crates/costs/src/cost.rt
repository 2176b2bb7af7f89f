// What a cost is, and the total that it makes of arrivals.
ghost use Rattle.std.specs.Prelude.{◌≡◌, ℕ};
ghost use Rattle.costs.specs.Laws.{LaterNeverLess, GreaterNeverLess, GivesTotals, NoneLaterIsLess, TotalsNeverLess};
ghost use Rattle.costs.specs.Totals.{total as total_of};

// A total to start with, and a rule for the next total. Asking changes nothing.
pub trait Cost {
    ghost start: { Self → ℕ };

    ghost next: { Self → ℕ → ℕ → ℕ → ℕ };

    // The total before any arrival.
    fn start(&self) -> u64
        ensures { result ≡ start self.now };

    // The total after the arrival of a shuttle.
    fn next(&self, total: u64, shuttle: usize, arrival: u32) -> u64
        ensures { result ≡ next self.now total shuttle arrival };

    ghost later: { (cost : Self) → LaterNeverLess (next cost) };

    ghost greater: { (cost : Self) → GreaterNeverLess (next cost) };

    ghost fits: { (cost : Self) → GivesTotals (start cost) (next cost) };
}

// The total of the arrivals of all shuttles, in number order. It is no more than that of any arrivals which are each no earlier.
pub fn total<C: Cost>(cost: &C, arrivals: &[u32]) -> u64
    ensures least { NoneLaterIsLess (C.start cost.now) (C.next cost.now) arrivals.now result }
    ensures value { result ≡ total_of (C.start cost.now) (C.next cost.now) arrivals.now }
{
    arrivals.iter().enumerate().fold(
        cost.start(),
        |total, (shuttle, &arrival)| cost.next(total, shuttle, arrival),
    )
}

/// What follows of every cost: a later arrival never gives a smaller total.
pub fn totals_stand()
    ensures { TotalsNeverLess }
{}
