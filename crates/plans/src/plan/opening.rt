// Opening a plan.
ghost use Rattle.std.specs.Prelude.{◌≡◌, ◌≤◌, [], ◌∷◌, length};
ghost use Rattle.files.specs.Fields.{RefusesExactly};
ghost use Rattle.files.specs.Rules.{offender, offence};
ghost use Rattle.plans.specs.declared.plan.opening.PlanFault.TheVariants.{File, Path, Meetings};
ghost use Rattle.plans.specs.Opening.{Opens, OpensExactly, FirstsStand, GivesFirstCollision, RefusedByNumber};
ghost use Rattle.plans.specs.Refusals.{plan_refusal, number_of, values_of};

use super::Plan;
use arrayvec::ArrayVec;
use files::layout::{FileFault, read_file};
use files::plan::PlanFile;
use files::rules::{PathFault, check_paths};
use meetings::clash::Clash;
use meetings::laws::meetings_stand;
use meetings::meet::MeetingFault;
use meetings::settle;
use std::alloc::Global;

/// The most values that a refusal gives.
pub const MOST_VALUES: usize = 4;

/// Why a plan is refused.
#[derive(Clone, Copy, PartialEq, Eq, Debug)]
pub enum PlanFault {
    File(FileFault),
    Path(PathFault),
    Meetings(MeetingFault),
}

// The conversions are written out, since derived ones (`thiserror`) have no clause that says what comes of each fault.
impl From<FileFault> for PlanFault {
    ghost from_gives = { λ e r. r ≡ File e };

    fn from(e: FileFault) -> PlanFault {
        PlanFault::File(e)
    }
}

impl From<PathFault> for PlanFault {
    ghost from_gives = { λ e r. r ≡ Path e };

    fn from(e: PathFault) -> PlanFault {
        PlanFault::Path(e)
    }
}

impl From<MeetingFault> for PlanFault {
    ghost from_gives = { λ e r. r ≡ Meetings e };

    fn from(e: MeetingFault) -> PlanFault {
        PlanFault::Meetings(e)
    }
}

// The values as they are handed on.
fn given(values: &[usize]) -> ArrayVec<usize, MOST_VALUES>
    requires { length values.now ≤ MOST_VALUES }
    ensures { result.items ≡ values.now }
{
    let mut all = ArrayVec::new();
    for value in values {
        all.push(*value);
    }
    all
}

// The shuttle and the stop of an offence.
fn offence_values(fault: PathFault) -> [usize; 2]
    ensures { result ≡ offender fault ∷ offence fault ∷ [] }
{
    match fault {
        PathFault::Start { shuttle } => [shuttle, 0],
        PathFault::Tick { shuttle, stop } | PathFault::Place { shuttle, stop } => [shuttle, stop],
    }
}

impl PlanFault {
    /// The number of the refusal; want of memory has none.
    pub fn number(self) -> Option<u8>
        ensures { result ≡ number_of (plan_refusal self) }
    {
        match self {
            PlanFault::File(FileFault::Torn(_)) => Some(3),
            PlanFault::Path(_) => Some(4),
            PlanFault::Meetings(MeetingFault::Collision(_)) => Some(5),
            PlanFault::Meetings(MeetingFault::TooMany) => Some(6),
            PlanFault::File(FileFault::Memory) | PlanFault::Meetings(MeetingFault::Memory) => None,
        }
    }

    /// The values that the refusal gives, in the order in which they are printed.
    pub fn values(self) -> ArrayVec<usize, MOST_VALUES>
        ensures { result.items ≡ values_of (plan_refusal self) }
    {
        match self {
            PlanFault::File(FileFault::Torn(place)) => given(&[place]),
            PlanFault::Path(offence) => given(&offence_values(offence)),
            PlanFault::Meetings(MeetingFault::Collision(Clash { lower, other })) => given(&[
                lower.shuttle,
                lower.stop,
                other.shuttle,
                other.stop,
            ]),
            PlanFault::File(FileFault::Memory)
            | PlanFault::Meetings(MeetingFault::TooMany | MeetingFault::Memory) => given(&[]),
        }
    }
}

/// The plan in a file, or the first fault: layout, then path rules, then the number of meetings, then collisions.
pub fn read_plan(alloc: Global, bytes: &[u8]) -> Result<Plan, PlanFault>
    ensures value { Opens result bytes.now }
    ensures exact { OpensExactly result bytes.now }
    ensures firsts { FirstsStand result }
    ensures torn { RefusesExactly bytes.now }
    ensures collision { GivesFirstCollision result bytes.now }
    ensures numbers { RefusedByNumber plan_refusal result bytes.now }
{
    meetings_stand();
    let file = read_file(alloc, bytes)?;
    check_paths(file.paths.as_slice())?;
    let meetings = settle(alloc, file.paths.as_slice())?;
    let PlanFile { paths, tables } = file;
    Ok(Plan {
        paths,
        tables,
        meetings,
    })
}
