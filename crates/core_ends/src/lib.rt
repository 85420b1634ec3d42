//! Why every run ends. There is no code: each law is the contract of a function that does nothing.
//!
//! `somebody_moves`: some node that is not over has an event that changes the world. `turns_leave_less`, `steps_leave_less`: each event
//! leaves less to be done. `little_is_left`, `turns_are_enough`: so the turns that a run may make are enough.
//!
//! A run (`run_engine`) uses them.
#![tactic(auto)]

mod laws;

pub use laws::{
    little_is_left, none_is_left, somebody_moves, steps_leave_less, steps_take_one,
    turns_are_enough, turns_leave_less,
};
