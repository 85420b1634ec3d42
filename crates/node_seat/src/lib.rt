//! Seats for node threads: a world that one seat at a time has in hand, over the words of an `atomic_table`, for any schedule of threads.
//!
//! A `YardOf` is a world with its seats, a `SeatOf` the seat of one node, and `Acts` a world whose nodes make events. `Parked` is the
//! world between two events, with the first fault as its stop mark.
//!
//! ```text
//! let (yard, seats) = open_yard(alloc, world)?;
//! let closed = close_yard(rt, yard);
//! ```
//!
//! Each event that a seat makes is exactly the step of its node (`act`: `moved`), and after a fault the world is as before. The world
//! that `close_yard` gives is one that was kept since the yard was opened (`IsKeptBy`). If there is no memory the world comes back.
//! That a seat ever gets its turn, and in which order seats do, no clause says.
//!
//! `live_run` gives each thread a seat.
#![tactic(auto)]

mod acts;
mod closing;
mod opening;
mod parked;
mod perch;
mod seat;
mod turns;
mod views;
mod worlds;

pub use acts::Acts;
pub use closing::close_yard;
pub use core_death::seat_event;
pub use opening::{YardRefusedOf, open_yard};
pub use parked::Parked;
pub use perch::{Fresh, OwnPerch, YardOf};
pub use seat::SeatOf;
pub use turns::{OwnSeat, TableOf, Turns};
pub use views::{PlainWorld, SeatView, Start};
pub use worlds::{ClosedYard, NodeSeat, Seats, Yard, YardRefused};
