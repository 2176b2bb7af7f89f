// The sheet of arrivals: tick and shuttle of each, by tick, then by shuttle.
#![tactic(auto)]

ghost use Rattle.sheet.specs.Laws.{DigitsReadBack, NoZeroLeads, DuesOrder, ArrivalsTellNextStops, SheetsFit, SheetsAreAscii};

mod digits;
pub mod due;
pub mod sheet;

use crate::due::Due;
use heap::rows_stand;
use lines::decimals_stand;

/// The digits of a number read back, and no 0 leads.
pub fn digits_stand()
    ensures back { DigitsReadBack }
    ensures lead { NoZeroLeads }
{
    decimals_stand();
}

/// The order of arrivals is by tick, then by shuttle.
pub fn dues_stand()
    ensures order { DuesOrder ⟦<Due as Ord>⟧.cmp }
{}

/// A sheet has a line for just the shuttles that have a next stop, there is room for any, and its bytes are a text.
pub fn sheets_stand()
    ensures next { ArrivalsTellNextStops }
    ensures fit { SheetsFit }
    ensures ascii { SheetsAreAscii }
{
    rows_stand::<Due>();
}

#[cfg(test)]
mod tests;
