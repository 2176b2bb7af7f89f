// The console's lines: reading a line as a command, and writing commands and replies.
#![tactic(auto)]

ghost use Rattle.std.specs.Prelude.{◌≡◌};
ghost use Rattle.lines.specs.declared.numbers.TheConstants.{MOST_DIGITS};
ghost use Rattle.lines.specs.Laws.{DecimalsWrite};

pub mod commands;
pub mod numbers;
pub mod replies;

/// What is printed of a number is read back as that number.
pub fn decimals_stand()
    ensures write { DecimalsWrite }
{}

/// The limit of a number's digits in numbers.
pub fn limits_stand()
    ensures digits { MOST_DIGITS ≡ 10 }
{}

#[cfg(test)]
mod tests;
