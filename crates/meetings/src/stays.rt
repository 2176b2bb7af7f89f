// The stays of a plan: each stop with the tick at which it is entered and the tick at which it is left.
ghost use Rattle.std.specs.Prelude.{◌≡◌, ◌<◌, ◌++◌, length, IfOk, OnOk};
ghost use Rattle.files.specs.Views.{paths_of};
ghost use Rattle.meetings.specs.Stays.{leave_at, path_stays, stays};

use files::laws::paths_stand;
use files::plan::{Path, Stop};
use std::alloc::{AllocError, Global};

// A stop of a shuttle, by their numbers.
#[derive(Clone, Copy, PartialEq, Eq, Debug)]
pub struct At {
    pub shuttle: usize,
    pub stop: usize,
}

// A shuttle's stay in a place. At its last stop it stays for ever.
#[derive(Clone, Copy, PartialEq, Eq, Debug)]
pub struct Stay {
    pub at: At,
    pub place: u16,
    pub enter: u16,
    pub leave: Option<u16>,
}

// The tick at which a stop is left: that of the next, if there is one.
fn leave_tick(stops: &[Stop], stop: usize) -> Option<u16>
    requires { stop < length stops.now }
    ensures { result ≡ leave_at stops.now stop }
{
    stops.get(stop + 1).map(|next| next.tick)
}

// Adds the stays of one path.
fn add_stays(shuttle: usize, stops: &[Stop], all: &mut Vec<Stay>) -> Result<(), AllocError>
    ensures { OnOk result (all.new.items ≡ all.old.items ++ path_stays shuttle stops.now) }
{
    for (stop, here) in stops.iter().enumerate() {
        all.push(Stay {
            at: At { shuttle, stop },
            place: here.place,
            enter: here.tick,
            leave: leave_tick(stops, stop),
        })?;
    }
    Ok(())
}

// The stays of all paths, in shuttle and stop order.
pub(crate) fn stays_of(alloc: Global, paths: &[Path]) -> Result<Vec<Stay>, AllocError>
    ensures { IfOk result (λ v. v.items ≡ stays (paths_of paths.now)) }
{
    paths_stand();
    let mut all = Vec::new(alloc);
    for (shuttle, path) in paths.iter().enumerate() {
        add_stays(shuttle, path.stops.as_slice(), &mut all)?;
    }
    Ok(all)
}
