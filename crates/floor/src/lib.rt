// The floor of a plan: where its shuttles are, what they may do at a tick, and when they enter their stops.
#![tactic(auto)]

pub mod floor;
mod index;
pub mod laws;
pub mod next;
pub mod passing;
mod scene;
pub mod table;
pub mod timetable;
mod worklist;
