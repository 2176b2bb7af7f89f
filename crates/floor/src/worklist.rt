// Entry ticks, worked out by those shuttles that can go on.
ghost use Rattle.std.specs.Prelude.{◌≡◌, ℕ, ◌<◌, ◌≤◌, if◌then◌else◌, length, MatchResult, OnErr, OnOk, Some, None, nat_le};
ghost use Rattle.files.specs.Rules.{path_at};
ghost use Rattle.meetings.specs.Laws.{StopOf};
ghost use Rattle.traffic.specs.Scene.{Numbers};
ghost use Rattle.traffic.specs.Sweep.{Timed};
ghost use Rattle.floor.specs.Indexes.{IsPathOf};
ghost use Rattle.floor.specs.Positions.{IsSound, meetings_in};
ghost use Rattle.floor.specs.Times.{tick_in};
ghost use Rattle.floor.specs.Under.{paths_under, scene_under, shuttles_under};
ghost use Rattle.floor.specs.Worklists.{Cared, ComesAfter, Going, Held, Looked, LookedFor, Shaped, Stands, Tells, entry_of, known_in, progress_of, rows_of, with_note, with_tick, work};

use crate::floor::Floor;
use crate::index::PathTouches;
use crate::next::next_stop;
use crate::scene::Scene;
use crate::table::Shuttle;
use files::plan::{MOST_SHUTTLES, MOST_STOPS};
use meetings::stays::At;
use traffic::sweeps_stand;

/// There are no entry ticks: the orders close a ring.
#[derive(Clone, Copy, PartialEq, Eq, Debug)]
pub struct Ring;

// What is kept for a stop: its entry tick, once that is known, and until then the shuttles that wait for it, a bit for each. A cause of the tick has its place here.
#[derive(Clone, Copy)]
struct Entry {
    tick: u32,
    waiting: u32,
}

// How far a shuttle has come: the last stop that has its entry tick; of the next, how many touches have been looked at, and the latest tick that it comes after.
#[derive(Clone, Copy)]
struct Progress {
    stop: usize,
    seen: usize,
    latest: u32,
}

// Where a shuttle is stopped: by a stop that has no entry tick yet, at a touch that is not to be passed.
#[derive(Clone, Copy)]
struct Block {
    awaited: At,
    seen: usize,
    latest: u32,
}

/// The entry ticks of a floor's stops under orders, as far as they are known, and the shuttles that may go on.
// Arrays with room for any plan, since entry ticks allocate no memory. Nothing is asked of what they hold before.
#[derive(Drop)]
pub(crate) struct Worklist {
    entries: [[Entry; MOST_STOPS]; MOST_SHUTTLES],
    progress: [Progress; MOST_SHUTTLES],
    ready: u32,
}

impl Worklist {
    pub(crate) fn new() -> Worklist
        ensures { Shaped result }
    {
        let entry = Entry {
            tick: 0,
            waiting: 0,
        };
        let progress = Progress {
            stop: 0,
            seen: 0,
            latest: 0,
        };
        Worklist {
            entries: [[entry; MOST_STOPS]; MOST_SHUTTLES],
            progress: [progress; MOST_SHUTTLES],
            ready: 0,
        }
    }

    /// The entry tick that is kept for a stop; 0 where there is no room for it.
    pub(crate) fn tick(&self, at: At) -> u32
        requires { Shaped self.now }
        ensures { result ≡ tick_in (rows_of self.now) at }
    {
        if at.shuttle < MOST_SHUTTLES && at.stop < MOST_STOPS {
            self.entries[at.shuttle][at.stop].tick
        } else {
            0
        }
    }

    /// The entry tick of a stop, if it is known.
    pub(crate) fn known_tick(&self, at: At) -> Option<u32>
        requires shaped { Shaped self.now }
        requires shuttle { at.shuttle < MOST_SHUTTLES }
        requires short { (progress_of self.now at.shuttle).stop < MOST_STOPS }
        ensures { result ≡ (if nat_le at.stop (progress_of self.now at.shuttle).stop then Some (entry_of self.now at).tick else None) }
    {
        if at.stop <= self.progress[at.shuttle].stop {
            Some(self.entries[at.shuttle][at.stop].tick)
        } else {
            None
        }
    }

    // Puts a shuttle where it stands: its entered stops have the entry tick 0, and it has looked at nothing.
    fn stand(&mut self, shuttle: usize, one: Shuttle)
        requires shaped { Shaped self.old }
        requires shuttle { shuttle < MOST_SHUTTLES }
        requires stop { one.stop < MOST_STOPS }
        ensures { Stands shuttle one self.old self.new }
    {
        for stop in 0..one.stop + 1 {
            self.entries[shuttle][stop].tick = 0;
        }
        self.progress[shuttle] = Progress {
            stop: one.stop,
            seen: 0,
            latest: u32::from(one.hold),
        };
    }

    // Only the entered stops have entry ticks, and every shuttle may go on.
    fn begin(&mut self, scene: &Scene<'_>)
        requires { Shaped self.old }
        ensures going { Going scene.now self.new }
        ensures cared { (s : ℕ) → s < shuttles_under scene.now → Cared scene.now self.new s }
    {
        sweeps_stand();
        for shuttle in 0..scene.floor.count() {
            self.stand(shuttle, scene.floor.state(shuttle));
        }
        self.ready = scene.floor.everyone();
    }

    // The latest tick that a stop comes after, where some of its touches have been looked at; or where it has to wait.
    fn look(
        &self,
        scene: &Scene<'_>,
        path: PathTouches<'_>,
        at: At,
        from: usize,
        tick: u32,
    ) -> Result<u32, Block>
        requires sound { IsSound scene.now.floor.now }
        requires going { Going scene.now self.now }
        requires stop { StopOf (paths_under scene.now) at }
        requires path { IsPathOf (meetings_in scene.now.floor.now) at.shuttle (length (path_at (paths_under scene.now) at.shuttle)) path }
        requires looked { Looked scene.now self.now at from tick }
        ensures { MatchResult result (ComesAfter scene.now self.now at) (λ b. Held scene.now self.now at b.awaited × Looked scene.now self.now at b.seen b.latest) }
    {
        let touches = path.at(at.stop);
        let mut latest = tick;
        for seen in from..touches.len() {
            if let Some(awaited) = scene.awaited(touches[seen]) {
                let Some(tick) = self.known_tick(awaited) else {
                    return Err(Block {
                        awaited,
                        seen,
                        latest,
                    });
                };
                latest = latest.max(tick);
            }
        }
        Ok(latest)
    }

    // Gives a stop its entry tick; the shuttles that wait for it may go on.
    fn enter(&mut self, at: At, tick: u32)
        requires shaped { Shaped self.old }
        requires shuttle { at.shuttle < MOST_SHUTTLES }
        requires stop { at.stop < MOST_STOPS }
        ensures { self.new ≡ with_tick self.old at tick }
    {
        let entry = &mut self.entries[at.shuttle][at.stop];
        entry.tick = tick;
        if entry.waiting != 0 {
            self.ready |= entry.waiting;
            entry.waiting = 0;
        }
        self.progress[at.shuttle].stop = at.stop;
    }

    // Notes a shuttle at the stop that it waits for.
    fn note(&mut self, shuttle: usize, block: Block)
        requires shaped { Shaped self.old }
        requires shuttle { shuttle < MOST_SHUTTLES }
        requires awaited { block.awaited.shuttle < MOST_SHUTTLES }
        ensures { self.new ≡ with_note self.old shuttle block }
    {
        let progress = &mut self.progress[shuttle];
        progress.seen = block.seen;
        progress.latest = block.latest;
        let awaited = block.awaited;
        // A stop past the last has no room for a note, and never an entry tick.
        if awaited.stop < MOST_STOPS {
            self.entries[awaited.shuttle][awaited.stop].waiting |= 1 << shuttle;
        }
    }

    // A shuttle goes from stop to next stop, until it is home or has to wait for a stop that has no entry tick.
    fn run_ahead(&mut self, scene: &Scene<'_>, shuttle: usize)
        requires going { Going scene.now self.old }
        requires looked { known_in scene.now self.old shuttle ≤ (scene_under scene.now).last shuttle → LookedFor scene.now self.old shuttle }
        requires others { (s : ℕ) → s < shuttles_under scene.now → (s ≡ shuttle → ⊥) → Cared scene.now self.old s }
        ensures going { Going scene.now self.new }
        ensures cared { (s : ℕ) → s < shuttles_under scene.now → Cared scene.now self.new s }
        ensures less { work scene.now self.new ≤ work scene.now self.old }
    {
        sweeps_stand();
        // A note may be left from another plan.
        if shuttle >= scene.floor.count() {
            return;
        }
        let path = scene.floor.path(shuttle);
        let stops = path.stops();
        let Progress {
            stop,
            mut seen,
            mut latest,
        } = self.progress[shuttle];
        let mut entered = At { shuttle, stop };
        while let Some(at) = next_stop(entered, stops) {
            match self.look(scene, path, at, seen, latest) {
                Ok(all) => {
                    latest = all + 1;
                    self.enter(at, latest);
                    seen = 0;
                    entered = at;
                }
                Err(block) => {
                    self.note(shuttle, block);
                    return;
                }
            }
        }
    }

    /// Works out entry ticks until no shuttle may go on.
    pub(crate) fn run(&mut self, scene: &Scene<'_>)
        requires { Shaped self.old }
        ensures going { Going scene.now self.new }
        ensures cared { (s : ℕ) → s < shuttles_under scene.now → Cared scene.now self.new s }
        ensures none { self.new.ready ≡ 0 }
    {
        self.begin(scene);
        while self.ready != 0 {
            let shuttle = self.ready.trailing_zeros() as usize;
            self.ready ^= 1 << shuttle;
            self.run_ahead(scene, shuttle);
        }
    }

    // Takes all notes away, so that they cost no later turns.
    fn forget(&mut self, floor: &Floor)
        requires { Shaped self.old }
        ensures { Shaped self.new }
    {
        for shuttle in 0..floor.count() {
            for stop in 0..floor.stop_count(shuttle) {
                self.entries[shuttle][stop].waiting = 0;
            }
        }
    }

    /// The entry tick of each shuttle's last stop, where no shuttle may go on.
    pub(crate) fn arrive(
        &mut self,
        scene: &Scene<'_>,
        arrivals: &mut [u32; MOST_SHUTTLES],
    ) -> Result<(), Ring>
        requires going { Going scene.now self.old }
        requires cared { (s : ℕ) → s < shuttles_under scene.now → Cared scene.now self.old s }
        requires none { self.old.ready ≡ 0 }
        ensures shaped { Shaped self.new }
        ensures room { length arrivals.new ≡ MOST_SHUTTLES }
        ensures ticks { OnOk result (Tells scene.now self.new arrivals.new) }
        ensures ring { OnErr result ((e : Numbers) → Timed (scene_under scene.now) e → ⊥) }
    {
        sweeps_stand();
        for shuttle in 0..scene.floor.count() {
            let stop = scene.floor.stop_count(shuttle) - 1;
            let Some(arrival) = self.known_tick(At { shuttle, stop }) else {
                self.forget(scene.floor);
                return Err(Ring);
            };
            arrivals[shuttle] = arrival;
        }
        Ok(())
    }
}
