// A plan as it is read from its file, and the limits of a plan.

/// The most shuttles that a plan has. It has at least one.
pub const MOST_SHUTTLES: usize = 32;

/// The most stops that a path has. It has at least one.
pub const MOST_STOPS: usize = 64;

/// The most stops that all paths of a plan have together.
pub const MOST_STOPS_IN_ALL: usize = 512;

/// The most places that are tables.
pub const MOST_TABLES: usize = 64;

// A place, and the tick at which it is entered.
#[derive(Clone, Copy, PartialEq, Eq, Debug)]
pub struct Stop {
    pub place: u16,
    pub tick: u16,
}

// The stops of one shuttle, in the order in which it enters them.
#[derive(Drop)]
pub struct Path {
    pub stops: Vec<Stop>,
}

// What a plan file holds: a path for each shuttle, and the places that are tables.
#[derive(Drop)]
pub struct PlanFile {
    pub paths: Vec<Path>,
    pub tables: Vec<u16>,
}
