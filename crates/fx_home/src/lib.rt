//! The home block and the storage control block of a Files-11 ODS-2 volume.
//!
//! A `Home` has the cluster factor, the number of files and the label; a `Scb` has the cluster factor and the size of the volume.
//! `HomeFault` and `ScbFault` are what can be wrong, in the order in which it is tested.
//!
//! ```text
//! let b = home_block(&home);
//! assert_eq!(rt; read_home(&b), Ok(home));
//! ```
//!
//! `read_home` and `read_scb` give exactly what the block says, or its first fault. `home_block` and `scb_block` write exactly
//! the bytes of the format, and these read back. `slot_lbn` is the place of a file's header. No call takes memory.
//!
//! `vol_parts` and `vol_init` use it.
#![tactic(auto)]

mod home;
mod scb;

pub use home::{Home, HomeFault, home_block, read_home, slot_lbn};
pub use scb::{Scb, ScbFault, read_scb, scb_block};
