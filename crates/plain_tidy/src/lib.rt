//! Laws of tidy catalogues, proved of the definitions of the plain volume alone. Each is the contract of a function that does nothing.
//!
//! An accepted volume contains a tidy catalogue (`done_is_tidy`, with what `vol_mends` says of accepted volumes). It stays tidy after each
//! answer, death and mending (`tidy_stays`), and what a mending makes of it is known without looking for lost files
//! (`tidy_is_mended`). So the judge of reports has no mending to work out (`log_check`).
#![tactic(auto)]

mod tidying;

pub use tidying::{done_is_tidy, tidy_is_mended, tidy_stays};
