// A floor under orders: what its stops wait for, and which shuttles move at a tick.
ghost use Rattle.std.specs.Prelude.{◌≡◌, ◌<◌, length, IfSome};
ghost use Rattle.std.specs.Option.{option_to_list};
ghost use Rattle.meetings.specs.Laws.{StopOf};
ghost use Rattle.traffic.specs.Scene.{done, every, moves};
ghost use Rattle.floor.specs.Positions.{moved_at};
ghost use Rattle.floor.specs.Touches.{touched};
ghost use Rattle.floor.specs.Under.{orders_under, paths_under, scene_under};
ghost use Rattle.floor.specs.Words.{bit};

use crate::floor::Floor;
use crate::index::Touch;
use crate::next::next_stop;
use crate::passing::PassingOrders;
use crate::table::names;
use meetings::stays::At;

// A floor, and orders for its meetings.
#[derive(Clone, Copy)]
pub(crate) struct Scene<'a> {
    pub(crate) floor: &'a Floor,
    pub(crate) orders: PassingOrders<'a>,
}

// That a shuttle, a stop or a meeting is the floor's is required where it is asked for: a type that holds the scene beside the number would say no more, and each caller would make one.
impl Scene<'_> {
    // What a stop waits for at a touch, if it waits there.
    pub(crate) fn awaited(&self, touch: Touch) -> Option<At>
        ensures stop { option_to_list result ≡ touched (orders_under self.now) touch }
        ensures shuttle { IfSome result (λ other. other.shuttle ≡ touch.shuttle) }
    {
        let waits = self.orders.get(usize::from(touch.meeting)) == Some(touch.first);
        waits.then_some(At {
            shuttle: usize::from(touch.shuttle),
            stop: usize::from(touch.stop),
        })
    }

    // Whether a stop waits for nothing at a touch, or for a stop that has been entered.
    fn is_met(&self, touch: Touch) -> bool
        requires { touch.shuttle < length (paths_under self.now) }
        ensures { result ≡ every (done (scene_under self.now)) (touched (orders_under self.now) touch) }
    {
        self.awaited(touch)
            .is_none_or(|other| self.floor.has_entered(other))
    }

    // Whether every stop that a stop waits for has been entered.
    fn is_clear(&self, at: At) -> bool
        requires { StopOf (paths_under self.now) at }
        ensures { result ≡ every (done (scene_under self.now)) ((scene_under self.now).waits at) }
    {
        self.floor
            .path(at.shuttle)
            .at(at.stop)
            .iter()
            .all(|touch| self.is_met(*touch))
    }

    // Whether a shuttle moves, by the word that names those that stand.
    fn moves(&self, standing: u32, shuttle: usize) -> bool
        requires { shuttle < length (paths_under self.now) }
        ensures { result ≡ moves (scene_under self.now) (bit standing) shuttle }
    {
        let one = self.floor.state(shuttle);
        if names(standing, shuttle) || one.hold > 0 {
            return false;
        }
        let entered = At {
            shuttle,
            stop: one.stop,
        };
        // Taken apart by a `match`: its arms are the two cases of the rule.
        match next_stop(entered, self.floor.stop_count(shuttle)) {
            None => false,
            Some(at) => self.is_clear(at),
        }
    }

    // The word that names the shuttles that move.
    pub(crate) fn moved_word(&self, standing: u32) -> u32
        ensures { result ≡ moved_at (orders_under self.now) standing self.now.floor.now }
    {
        (0..self.floor.count())
            .filter(|shuttle| self.moves(standing, *shuttle))
            .fold(0, |word, shuttle| word | 1 << shuttle)
    }
}
