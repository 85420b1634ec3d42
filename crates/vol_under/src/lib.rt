//! Laws of the drive while commands are under way: what its blocks spell, and what each event leaves of that. There is no code:
//! each law is the contract of a function that does nothing.
//!
//! `IsUnder` says that the committed blocks spell the catalogue of the history, and that the drive is these blocks with the
//! writes done of each node's plan laid over them. `laws`: `write_keeps`, `answer_keeps`, `look_keeps` and `death_keeps` say that an
//! event keeps this. `drive_spells` and `world_stops` say at which stage each command is if all nodes stop at any moment; they ask that
//! what each node knows of the catalogue stays true. `steps_lawful`: a plan is lawful if its writes go, one after the other, from
//! stage to stage.
//!
//! `space_laws`: what a node's bitmap writes, looks and lowered locks by the rules for space leave, also in the middle of its plan.
//! `bits_keep_with_plan`: a bitmap write between the free things and the node's stock leaves the catalogue. `look_keeps_with_plan`:
//! what is looked at under a lock is a committed block. `forget_keeps` and `lower_keeps`: a node may forget blocks, and lower V and X,
//! if its plan does not need them.
//!
//! The law of a command (`op_law`), the writes of plans (`op_steps`) and the core use them.
#![tactic(auto)]

pub mod laws;
pub mod space_laws;
