// The refusals of the product: their numbers, and the values that they give.
#![tactic(auto)]

ghost use Rattle.std.specs.Prelude.{◌≡◌};
ghost use Rattle.plans.specs.Refusals.{number_of, values_of};
ghost use Rattle.refusals.specs.declared.Refusal.TheVariants as refusal_of;
ghost use Rattle.refusals.specs.Refusals.{refusal};

use arrayvec::ArrayVec;
use orders::write::OrderFault;
use plans::plan::opening::{MOST_VALUES, PlanFault};
use std::alloc::AllocError;

/// Why a call is refused.
#[derive(Clone, Copy, PartialEq, Eq, Debug)]
pub enum Refusal {
    /// The run has no plan.
    NoPlan,
    /// The run has a plan already.
    HasPlan,
    /// The plan itself is refused.
    Plan(PlanFault),
    /// Memory is wanting.
    Memory,
    /// The plan has no such shuttle.
    NoShuttle,
    /// The shuttle is at its last stop.
    AtLastStop,
    /// The hold would get too long.
    LongHold,
    /// More than 64 meetings are open at a draft.
    TooManyOpen,
    /// 60,000 drafts have been given.
    TooManyDrafts,
    /// The search's list refused a node.
    ListFull { taken: u32 },
    /// The search has taken as many nodes as it may.
    BudgetSpent { taken: u32 },
    /// No draft is in hand, or the slip is not of this run and that draft.
    NotInHand,
    /// The draft is overtaken.
    Overtaken,
    /// What is written is longer than the buffer.
    ShortBuffer,
    /// The console's line is bad.
    BadLine,
}

// The conversions are written out, since derived ones (`thiserror`) have no clause that says what comes of each fault.
impl From<PlanFault> for Refusal {
    ghost from_gives = { λ e r. r ≡ refusal_of.Plan e };

    fn from(fault: PlanFault) -> Refusal {
        Refusal::Plan(fault)
    }
}

impl From<AllocError> for Refusal {
    ghost from_gives = { λ _ r. r ≡ refusal_of.Memory };

    fn from(_fault: AllocError) -> Refusal {
        Refusal::Memory
    }
}

impl From<OrderFault> for Refusal {
    ghost from_gives = { λ _ r. r ≡ refusal_of.ShortBuffer };

    fn from(fault: OrderFault) -> Refusal {
        match fault {
            OrderFault::Short => Refusal::ShortBuffer,
        }
    }
}

impl Refusal {
    /// The number of the refusal, as it is printed; want of memory has none.
    pub fn number(self) -> Option<u8>
        ensures { result ≡ number_of (refusal self) }
    {
        match self {
            Refusal::NoPlan => Some(1),
            Refusal::HasPlan => Some(2),
            Refusal::Plan(fault) => fault.number(),
            Refusal::Memory => None,
            Refusal::NoShuttle => Some(7),
            Refusal::AtLastStop => Some(8),
            Refusal::LongHold => Some(9),
            Refusal::TooManyOpen => Some(10),
            Refusal::TooManyDrafts => Some(11),
            Refusal::ListFull { .. } => Some(12),
            Refusal::BudgetSpent { .. } => Some(13),
            Refusal::NotInHand => Some(14),
            Refusal::Overtaken => Some(15),
            Refusal::ShortBuffer => Some(16),
            Refusal::BadLine => Some(17),
        }
    }

    /// The values that the refusal gives, in the order in which they are printed.
    pub fn values(self) -> ArrayVec<usize, MOST_VALUES>
        ensures { result.items ≡ values_of (refusal self) }
    {
        match self {
            Refusal::Plan(fault) => fault.values(),
            Refusal::ListFull { taken } | Refusal::BudgetSpent { taken } => {
                let mut values = ArrayVec::new();
                values.push(taken as usize);
                values
            }
            Refusal::NoPlan
            | Refusal::HasPlan
            | Refusal::Memory
            | Refusal::NoShuttle
            | Refusal::AtLastStop
            | Refusal::LongHold
            | Refusal::TooManyOpen
            | Refusal::TooManyDrafts
            | Refusal::NotInHand
            | Refusal::Overtaken
            | Refusal::ShortBuffer
            | Refusal::BadLine => ArrayVec::new(),
        }
    }
}

#[cfg(test)]
mod tests;
