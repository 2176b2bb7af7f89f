// Whole lists of calls.
ghost use Rattle.std.specs.Prelude.{◌≡◌, ◌↔◌, IsTrue, Option, Result, slice_set, Some};
ghost use Rattle.dispatch.specs.declared.answers.Answer.{Answer};
ghost use Rattle.refusals.specs.declared.Refusal.{Refusal};
ghost use Rattle.dispatch.specs.Agreement.{Drafts};
ghost use Rattle.dispatch.specs.Carrying.{CarriesAll, MayCall};
ghost use Rattle.dispatch.specs.Dispatch.{Dispatch};
ghost use Rattle.dispatch.specs.Lists.{cost_rules, list_rules};
ghost use Rattle.dispatch.specs.Pockets.{IsEmptyAt, TakesSlip, with_slip};

use crate::answers::Answer;
use crate::dispatcher::{Dispatcher, Drafted};
use crate::laws::tallies_stand;
use crate::slip::Slip;
use costs::cost::Cost;
use lists::waiting::WaitingList;
use refusals::Refusal;
use std::mem;

/// A call in a list of calls. A slip is named by the pocket that it lies in; a draft that is
/// carried
/// out puts its slip into an empty pocket.
#[derive(Drop)]
pub enum Entry<C, L> {
    Hold {
        shuttle: usize,
        ticks: u32,
    },
    Tick {
        standing: u32,
    },
    Draft {
        cost: C,
        list: L,
        budget: u32,
        pocket: usize,
    },
    Adopt {
        pocket: usize,
    },
    Dismiss {
        pocket: usize,
    },
}

/// Whoever is shown the answer and the dispatcher after every call.
pub trait Watch {
    // Whether the first watcher is the second one after it was shown an answer and a dispatcher.
    ghost saw: { Self → Result Answer Refusal → Option Dispatch → Self → Type 0 };

    fn see(&mut self, dispatcher: &Dispatcher, answer: &Result<Answer, Refusal>)
        ensures { saw self.old answer.now dispatcher.now self.new };
}

// Whether a slip can be put into a pocket.
fn is_empty(pockets: &[Option<Slip>], pocket: usize) -> bool
    ensures { IsTrue result ↔ IsEmptyAt pockets.now pocket }
{
    pockets.get(pocket).is_some_and(|slip| slip.is_none())
}

// Takes the slip out of a pocket, if there is one.
fn take_slip(pockets: &mut [Option<Slip>], pocket: usize) -> Option<Slip>
    ensures { TakesSlip result pocket pockets.old pockets.new }
{
    if pocket >= pockets.len() {
        return None;
    }
    pockets[pocket].take()
}

// Puts a slip into an empty pocket.
fn put_slip(pockets: &mut [Option<Slip>], pocket: usize, slip: Slip)
    requires { IsEmptyAt pockets.old pocket }
    ensures { pockets.new ≡ slice_set pockets.old pocket (Some slip) }
{
    match mem::replace(&mut pockets[pocket], Some(slip)) {
        None => {}
        Some(Slip { run: _, draft: _ }) => unreachable!(),
    }
}

impl Dispatcher {
    // A draft whose slip goes into an empty pocket.
    fn draft_into<C: Cost, L: WaitingList>(
        &mut self,
        cost: &C,
        list: &mut L,
        budget: u32,
        pockets: &mut [Option<Slip>],
        pocket: usize,
    ) -> Result<Answer, Refusal>
        requires { IsEmptyAt pockets.old pocket }
        ensures drafts { Drafts (list_rules L.nodes L.moves L.capacity)
            (C.start cost.now) (C.next cost.now) budget result
            list.old list.new self.old self.new }
        ensures pockets { pockets.new ≡ with_slip result pocket pockets.old }
        ensures size { L.capacity list.new ≡ L.capacity list.old }
    {
        let Drafted { cost, taken, slip } = self.draft(cost, list, budget)?;
        let (run, draft) = (slip.run, slip.draft);
        put_slip(pockets, pocket, slip);
        Ok(Answer::Drafted {
            cost,
            taken,
            run,
            draft,
        })
    }

    // The call of an entry; none if it has no usable pocket.
    fn call<C: Cost, L: WaitingList>(
        &mut self,
        entry: &mut Entry<C, L>,
        pockets: &mut [Option<Slip>],
    ) -> Option<Result<Answer, Refusal>>
        ensures { MayCall (cost_rules C.start C.next) (list_rules L.nodes L.moves L.capacity)
            entry.old pockets.old self.old result entry.new pockets.new self.new }
    {
        Some(match entry {
            Entry::Hold { shuttle, ticks } => self.hold(*shuttle, *ticks).map(|()| Answer::Held),
            Entry::Tick { standing } => self.tick(*standing).map(Answer::Moved),
            Entry::Draft {
                cost,
                list,
                budget,
                pocket,
            } => {
                if !is_empty(pockets, *pocket) {
                    return None;
                }
                self.draft_into(cost, list, *budget, pockets, *pocket)
            }
            Entry::Adopt { pocket } => {
                let slip = take_slip(pockets, *pocket)?;
                self.adopt(slip).map(Answer::Adopted)
            }
            Entry::Dismiss { pocket } => {
                let slip = take_slip(pockets, *pocket)?;
                self.dismiss(slip).map(|()| Answer::Dismissed)
            }
        })
    }

    /// Carries out a whole list of calls, one after another, and shows the watcher the answer and
    /// the
    /// dispatcher after each. The waiting lists are handed back in the entries.
    pub fn carry_all<C: Cost, L: WaitingList, W: Watch>(
        &mut self,
        entries: &mut [Entry<C, L>],
        pockets: &mut [Option<Slip>],
        watch: &mut W,
    )
        ensures { CarriesAll (cost_rules C.start C.next) (list_rules L.nodes L.moves L.capacity) W.saw
            entries.old pockets.old watch.old self.old
            entries.new pockets.new watch.new self.new }
    {
        tallies_stand();
        for entry in entries.iter_mut() {
            if let Some(answer) = self.call(entry, pockets) {
                watch.see(self, &answer);
            }
        }
    }
}
