// A run as a problem of the search.
ghost use Rattle.std.specs.Prelude.{◌≡◌};
ghost use Rattle.run.specs.Sound.{RunsSoundly};
ghost use Rattle.search.specs.Questions.{IsSearchable, searchable_prop};
ghost use Rattle.redraw.specs.Nodes.{question as question_of};
ghost use Rattle.redraw.specs.Orders.{KeepsClosed, keeps_closed_prop};

use crate::laws::redraws_stand;
use crate::opens::OpenMeetings;
use arrayvec::ArrayVec;
use costs::cost::{Cost, total};
use floor::timetable::Timetable;
use meetings::meet::{First, MOST_MEETINGS};
use run::laws::runs_stand;
use search::finding::Finding;
use search::problem::Problem;

// The open meetings of a run, with a cost. The orders of the last node and the timetable are kept,
// so that a node neither allocates nor copies.
#[derive(Drop)]
pub(crate) struct Redraw<'a, C: Cost> {
    opens: &'a OpenMeetings<'a>,
    cost: &'a C,
    orders: ArrayVec<Option<First>, MOST_MEETINGS>,
    timetable: Timetable,
    start: u64,
    ghost closed: { KeepsClosed opens.now.driven.now orders.items } by { keeps_closed_prop
        opens.now.driven.now orders.items },
    ghost started: { start
        ≡ (question_of (C.start cost.now) (C.next cost.now) opens.now.driven.now).start },
    ghost searchable: { IsSearchable (question_of (C.start cost.now) (C.next cost.now)
        opens.now.driven.now) } by { searchable_prop (question_of
            (C.start cost.now) (C.next cost.now) opens.now.driven.now) },
}

impl<'a, C: Cost> Redraw<'a, C> {
    pub(crate) fn new(opens: &'a OpenMeetings<'a>, cost: &'a C) -> Redraw<'a, C>
        requires { RunsSoundly opens.now.driven.now }
        ensures { question_of (C.start result.cost.now) (C.next result.cost.now)
            result.opens.now.driven.now
            ≡ question_of (C.start cost.now) (C.next cost.now) opens.now.driven.now }
    {
        redraws_stand();
        let mut timetable = Timetable::new();
        opens.driven.expected(&mut timetable);
        let start = total(cost, timetable.arrivals());
        Redraw {
            opens,
            cost,
            orders: opens.in_force(),
            timetable,
            start,
        }
    }
}

impl<C: Cost> Problem for Redraw<'_, C> {
    ghost question = { λ redraw. question_of (C.start redraw.cost.now) (C.next redraw.cost.now)
        redraw.opens.now.driven.now };

    fn start(&self) -> u64 {
        self.start
    }

    fn evaluate(&mut self, decided: u64, turned: u64) -> Finding {
        runs_stand();
        self.opens
            .decide(decided, turned, self.orders.as_mut_slice());
        let ticks = self
            .opens
            .driven
            .entry_ticks(self.orders.as_slice(), &mut self.timetable);
        if ticks.is_err() {
            return Finding::Ring;
        }
        let cost = total(self.cost, self.timetable.arrivals());
        match self.opens.lowest(decided, &self.timetable) {
            None => Finding::Done { cost },
            Some(next) => Finding::Branch { cost, next },
        }
    }

    ghost searchable = { λ redraw. redraw.searchable };
}
