//! The laws of shuttle records, on the contract of a function that does nothing.
ghost use Rattle.std.specs.Prelude.{◌≡◌};
ghost use Rattle.floor.specs.declared.floor.calls.TheConstants.{LONGEST_HOLD};
ghost use Rattle.floor.specs.Laws.{FloorLaws};

use traffic::steps_stand;

/// Over ticks and holds shuttle records are as their scenes.
pub fn floors_stand()
    ensures { FloorLaws }
{
    steps_stand();
}

/// The limit of holds in numbers, in ticks.
pub fn limits_stand()
    ensures hold { LONGEST_HOLD ≡ 4095 }
{}
