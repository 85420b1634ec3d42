//! Laws of the plain volume: refusals, free clusters and mending. Each is the contract of a function that does nothing, proved of
//! the definitions of `plain_rules` alone.
//!
//! `refusals_change_nothing`: a refused command leaves the catalogue as it was. `free_clusters_fit`: if no more clusters are
//! taken than there are, this stays so along every history. `mending_clears`: after mending nothing is open, leaked or marked,
//! and each usage is what the owner's files cost. `mending_is_idempotent`: a second mending does nothing, under the two
//! conditions that it names.
//!
//! The laws of opens, of mending and of cached blocks use them (`plain_histories`, `plain_mends`, `core_state`).
#![tactic(auto)]

mod clearing;
mod fitting;
mod refusing;

pub use clearing::{mending_clears, mending_is_idempotent};
pub use fitting::free_clusters_fit;
pub use refusing::refusals_change_nothing;
