// A dispatcher: a run with its drafts.
ghost use Rattle.std.specs.Prelude.{◌≡◌, Some, None, IfOk, IsOk};
ghost use Rattle.std.specs.Option.{option_and_then, option_copied, option_map};
ghost use Rattle.std.specs.Result.{result_map_both};
ghost use Rattle.plans.specs.Opening.{RefusedByNumber};
ghost use Rattle.refusals.specs.Refusals.{refusal};
ghost use Rattle.dispatch.specs.declared.answers.Answer.TheVariants as answer;
ghost use Rattle.dispatch.specs.Agreement.{Does, Drafts, HandIsBest, OpensFresh, SearchSuffices, told, drafted_told};
ghost use Rattle.dispatch.specs.Dispatch.{overtaken, draft_on};
ghost use Rattle.dispatch.specs.Lists.{list_rules};
ghost use Rattle.dispatch.specs.Tally.{Hold, Tick, Adopt, Dismiss};

use crate::slip::Slip;
use costs::cost::Cost;
use lists::waiting::WaitingList;
use redraw::finder::{can_redraw, find_orders};
use redraw::redrawn::CompleteOrders;
use refusals::Refusal;
use run::run::Run;
use std::alloc::Global;
use std::marker::Model;

/// How many drafts a run gives.
pub const MOST_DRAFTS: u16 = 60_000;

/// The draft in hand: its number (1 to 60,000), its cost, its orders, and whether a hold or a tick
/// was
/// carried out since.
#[derive(Drop)]
pub struct HandDraft {
    pub number: u16,
    pub cost: u64,
    pub orders: CompleteOrders,
    pub overtaken: bool,
}

/// What a draft answers: its cost, the nodes taken, and its slip. Since it holds a slip, it has to
/// be
/// taken apart.
#[derive(Debug)]
pub struct Drafted {
    pub cost: u64,
    pub taken: u32,
    pub slip: Slip,
}

/// A run, the count of drafts that it gave, and the draft in hand. A clause sees nothing of it as
/// long
/// as the run has no plan.
#[derive(Drop)]
pub struct Dispatcher {
    run: Run,
    drafts: u16,
    hand: Option<HandDraft>,
}

impl Model for Dispatcher {
    ghost use Rattle.std.specs.Prelude.{Option};
    ghost use Rattle.dispatch.specs.Dispatch.{Dispatch};

    ghost Value = { Option Dispatch };

    ghost use Rattle.dispatch.specs.Views.{dispatch_in, HandIsLawful};

    ghost view = { dispatch_in };

    ghost invariant = { HandIsLawful };
}

// A draft in hand is overtaken.
fn overtake(hand: &mut Option<HandDraft>)
    ensures { hand.new ≡ option_map overtaken hand.old }
{
    if let Some(draft) = hand {
        draft.overtaken = true;
    }
}

// The draft in hand, if the two numbers of a slip are those of the run and of that draft.
fn draft_of<'a>(
    run: &Run,
    hand: &'a Option<HandDraft>,
    slip: Slip,
) -> Result<&'a HandDraft, Refusal>
    ensures { result_map_both (λ d. d.now) (λ why. why) result ≡ draft_on slip run.now hand.now }
{
    let Slip { run: number, draft } = slip;
    let of_run = run.number().ok_or(Refusal::NoPlan)? == number;
    hand.as_ref()
        .filter(|hand| of_run && hand.number == draft)
        .ok_or(Refusal::NotInHand)
}

impl Dispatcher {
    /// A dispatcher without a plan.
    pub fn new() -> Dispatcher
        ensures { result ≡ None }
    {
        Dispatcher {
            run: Run::new(),
            drafts: 0,
            hand: None,
        }
    }

    /// The run, to be asked.
    pub fn run(&self) -> &Run
        ensures { result.now ≡ option_map (λ d. d.state) self.now }
    {
        &self.run
    }

    /// How many drafts the run gave.
    pub fn drafts(&self) -> Option<u16>
        ensures { result ≡ option_map (λ d. d.drafts) self.now }
    {
        self.run.driven().map(|_| self.drafts)
    }

    /// The draft in hand.
    pub fn hand(&self) -> Option<&HandDraft>
        ensures { option_copied result ≡ option_and_then (λ d. d.hand) self.now }
    {
        self.hand.as_ref()
    }

    /// Gives the run its plan, from the bytes of a plan file, and the number that the caller chose.
    pub fn open(&mut self, alloc: Global, number: u32, bytes: &[u8]) -> Result<(), Refusal>
        ensures opened { OpensFresh result number bytes.now self.old self.new }
        ensures numbers { self.old ≡ None → RefusedByNumber refusal result bytes.now }
    {
        self.run.open(alloc, number, bytes)?;
        self.drafts = 0;
        Ok(())
    }

    /// Replaces the hold of a shuttle.
    pub fn hold(&mut self, shuttle: usize, ticks: u32) -> Result<(), Refusal>
        ensures { Does (Hold shuttle ticks) (told (λ _. answer.Held) result) self.old self.new }
    {
        self.run.hold(shuttle, ticks)?;
        overtake(&mut self.hand);
        Ok(())
    }

    /// One tick, at which the shuttles that a word names stand. Answers the word of those that
    /// moved.
    pub fn tick(&mut self, standing: u32) -> Result<u32, Refusal>
        ensures { Does (Tick standing) (told (λ w. answer.Moved w) result) self.old self.new }
    {
        let moved = self.run.tick(standing)?;
        overtake(&mut self.hand);
        Ok(moved)
    }

    /// Searches for the lawful passing orders that cost least. They are the draft in hand from then
    /// on.
    pub fn draft<C: Cost, L: WaitingList>(
        &mut self,
        cost: &C,
        list: &mut L,
        budget: u32,
    ) -> Result<Drafted, Refusal>
        ensures drafts { Drafts (list_rules L.nodes L.moves L.capacity)
            (C.start cost.now) (C.next cost.now) budget (told drafted_told result)
            list.old list.new self.old self.new }
        ensures best { IfOk result (λ drafted.
            HandIsBest (C.start cost.now) (C.next cost.now) drafted.cost self.new) }

        // Of n open meetings at most 2 ^ n nodes wait, in a list that puts only first n + 1; and
        // less than twice 2 ^ n are taken.
        ensures finds { SearchSuffices (list_rules L.nodes L.moves L.capacity) budget
            list.old self.old → IsOk result }
        ensures size { L.capacity list.new ≡ L.capacity list.old }
    {
        let driven = self.run.driven().ok_or(Refusal::NoPlan)?;
        if !can_redraw(driven) {
            return Err(Refusal::TooManyOpen);
        }
        if self.drafts >= MOST_DRAFTS {
            return Err(Refusal::TooManyDrafts);
        }
        let run = driven.number();
        let redrawn = find_orders(driven, cost, list, budget)?;
        let draft = self.drafts + 1;
        self.drafts = draft;
        self.hand = Some(HandDraft {
            number: draft,
            cost: redrawn.cost,
            orders: redrawn.orders,
            overtaken: false,
        });
        Ok(Drafted {
            cost: redrawn.cost,
            taken: redrawn.taken,
            slip: Slip { run, draft },
        })
    }

    /// Puts the draft of a slip in force, and answers its cost. The slip is spent, refused or not.
    pub fn adopt(&mut self, slip: Slip) -> Result<u64, Refusal>
        ensures { Does (Adopt slip.run slip.draft) (told (λ c. answer.Adopted c) result)
            self.old self.new }
    {
        let draft = draft_of(&self.run, &self.hand, slip)?;
        if draft.overtaken {
            return Err(Refusal::Overtaken);
        }
        let cost = draft.cost;
        self.run.put_in_force(draft.orders.as_slice()).unwrap();
        self.hand = None;
        Ok(cost)
    }

    /// Discards the draft of a slip, overtaken or not. The slip is spent, refused or not.
    pub fn dismiss(&mut self, slip: Slip) -> Result<(), Refusal>
        ensures { Does (Dismiss slip.run slip.draft) (told (λ _. answer.Dismissed) result)
            self.old self.new }
    {
        draft_of(&self.run, &self.hand, slip)?;
        self.hand = None;
        Ok(())
    }
}
