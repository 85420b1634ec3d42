//! A node's stock: free clusters and file numbers that it has taken out of the bitmaps and not given to a file.
//!
//! `Extents` is the stock, `Taken` what it gives for a file. The lowest of each go out first.
//!
//! ```text
//! let taken = stock.take(alloc, 3, true)?;  // three clusters and a file number, or none if it holds too few
//! ```
//!
//! `take` and `lowest` give exactly the lowest, and none if and only if the stock holds too few; after none or want of memory the
//! stock is as before. `put_clusters`, `put_number` and `put_all` take no memory: room was made before. After a put the stock
//! holds exactly what it held and what was put in (`laws::puts_are_exact`).
//!
//! `core_space` and the core use it.
#![tactic(auto)]

mod extents;
pub mod laws;
mod rising;
mod taken;

pub use extents::Extents;
pub use plain_cat::{Clusters, NoMemory, NumberList};
pub use taken::{Taken, Taken2};
