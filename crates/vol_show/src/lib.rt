//! The files of a volume as they are shown: by name, with their bytes, from damaged volumes too. Nothing is written.
//!
//! `shown` gives the catalogue that is shown of a volume: its own, or, if a fatal finding holds, the one that a repair mends
//! (`Shows`), or the first finding beyond repair. `held` gives the bytes of a file of it, from the blocks as they are.
//! `list` gives its listing: each entry with its full specification, files without a name, and the sums. `read_spec` reads how a
//! file is specified, `target` tells which file that is. `front` gives the records of its bytes as lines, the good ones in front
//! of a bad one too.
//!
//! ```text
//! match shown(alloc, blocks)? {
//!     Ok(cat) => held(alloc, blocks, &cat, fid)?,
//!     Err(found) => ..,  // beyond repair
//! }
//! ```
#![tactic(auto)]

mod finding;
mod fronts;
mod holding;
mod lines;
mod parts;
mod showing;
mod spec;
mod specifying;
mod sums;

pub use finding::target;
pub use fronts::{RawText, front, good_lines_come_out};
pub use holding::held;
pub use showing::shown;
pub use spec::{Dir, Named, Spec, SpecFault, Target};
pub use specifying::read_spec;
pub use sums::list;
pub use vol_parts::Finding;
