// Document 01, 'Stuck': who is blocked, who sits where, who impedes whom, and whether every member has reached an event.
ghost use Rattle.std.specs.Prelude.{◌≡◌};
ghost use Rattle.hall.specs.Parts.{BlockedSet, SeatsOf, RowsBy};
ghost use Rattle.hall.specs.Waiting.{reached_of};

use crate::table::Table;
use seating::seats::{Seats, seats_of};
use seating::waiting::{blocked_of, edges_of};
use states::state::Event;
use states::waiting::{column, impedes};

impl Table {
    // Whether nobody impedes an event.
    pub fn reached(self, event: Event) -> bool
        ensures { result ≡ reached_of self event }
    {
        let place = column(event);
        for k in 0..32 {
            let i = k * 16 + place;
            if impedes(self.members[i], self.phases[i], event) {
                return false;
            }
        }
        true
    }

    // The blocked tasks. An array is handed on by a local: passed straight from its field it is not covered.
    #[tactic(auto, using(crate::proofs::Looking::blocked_set))]
    pub fn blocked(self) -> u32
        ensures { BlockedSet self result }
    {
        let tasks = self.tasks;
        blocked_of(tasks)
    }

    // Who of some tasks is a member of each phaser, and who awaits an event of it.
    pub fn seats(self, all: u32) -> Seats
        ensures all { result.all ≡ all }
        ensures seated { SeatsOf self result }
    {
        let tasks = self.tasks;
        let members = self.members;
        seats_of(tasks, members, all)
    }

    // For each of those seated, who of them impedes its event.
    pub fn edges(self, seats: Seats) -> [u32; 32]
        ensures { RowsBy self seats result }
    {
        let tasks = self.tasks;
        let phases = self.phases;
        edges_of(tasks, phases, seats)
    }
}
