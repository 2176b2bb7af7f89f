// The next stop.
ghost use Rattle.std.specs.Prelude.{◌≡◌};
ghost use Rattle.floor.specs.Next.{next_after};

use meetings::stays::At;

/// The stop after a stop, on a path of so many stops; none after the last.
#[inline]
pub fn next_stop(at: At, stops: usize) -> Option<At>
    ensures { result ≡ next_after at stops }
{
    if at.stop < stops.saturating_sub(1) {
        Some(At {
            shuttle: at.shuttle,
            stop: at.stop + 1,
        })
    } else {
        None
    }
}
