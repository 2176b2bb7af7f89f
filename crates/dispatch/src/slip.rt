// Slips: what a draft gives its caller, and what an adoption or a dismissal spends.
use std::marker::Model;

/// The numbers of a run and of one of its drafts. It is not `Drop`, and only this crate makes one
/// and
/// takes one apart: so a program that lets a slip fall, or that spends it twice, does not compile.
#[derive(Debug)]
pub struct Slip {
    pub(crate) run: u32,
    pub(crate) draft: u16,
}

impl Model for Slip {
    ghost use Rattle.dispatch.specs.Slips.{SlipNumbers};

    ghost Value = { SlipNumbers };

    ghost view = { λ s. record { run = s.run; draft = s.draft } };
}
