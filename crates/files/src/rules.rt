// The rules that paths keep.
ghost use Rattle.std.specs.Prelude.{◌≡◌, None, Some, MatchResult};
ghost use Rattle.files.specs.Rules.{fault_of, PathKeeps, PathBreaks, PathsKeep, FirstOffence};
ghost use Rattle.files.specs.Views.{paths_of};

use crate::plan::{Path, Stop};

// The first stop that breaks a rule: a first tick that is not 0, a tick that does not rise, or a place that is the one before.
#[derive(Clone, Copy, PartialEq, Eq, Debug)]
pub enum PathFault {
    Start { shuttle: usize },
    Tick { shuttle: usize, stop: usize },
    Place { shuttle: usize, stop: usize },
}

// Whether a stop keeps the rules behind the stop before it, if there is one.
fn check_stop(
    shuttle: usize,
    stop: usize,
    before: Option<Stop>,
    here: Stop,
) -> Result<(), PathFault>
    ensures { MatchResult result (λ _. fault_of shuttle stop before here ≡ None) (λ f. fault_of shuttle stop before here ≡ Some f) }
{
    match before {
        None if here.tick != 0 => Err(PathFault::Start { shuttle }),
        Some(last) if here.tick <= last.tick => Err(PathFault::Tick { shuttle, stop }),
        Some(last) if here.place == last.place => Err(PathFault::Place { shuttle, stop }),
        _ => Ok(()),
    }
}

// Whether the path of a shuttle keeps the rules.
fn check_path(shuttle: usize, stops: &[Stop]) -> Result<(), PathFault>
    ensures { MatchResult result (λ _. PathKeeps stops.now) (λ f. PathBreaks shuttle stops.now f) }
{
    let mut before = None;
    for (stop, here) in stops.iter().enumerate() {
        check_stop(shuttle, stop, before, *here)?;
        before = Some(*here);
    }
    Ok(())
}

// Whether all paths keep the rules; if not, the first offence in shuttle and stop order.
pub fn check_paths(paths: &[Path]) -> Result<(), PathFault>
    ensures { MatchResult result (λ _. PathsKeep (paths_of paths.now)) (λ f. FirstOffence (paths_of paths.now) f) }
{
    for (shuttle, path) in paths.iter().enumerate() {
        check_path(shuttle, path.stops.as_slice())?;
    }
    Ok(())
}
