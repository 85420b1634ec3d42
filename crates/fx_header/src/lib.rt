//! File headers of Files-11 ODS-2 and their retrieval pointers, read and written exactly.
//!
//! A header slot is a `Slot`: free, with the last sequence number, or used, with the fields `Hdr`. A `Run` is a row of blocks. A
//! `HeaderFault` is what can be wrong with a header.
//!
//! ```text
//! let mut b = new_header(&fields, b"A.TXT;1", (4, 4));
//! if set_runs(&mut b, &[Run { lbn: 50, count: 2 }]) { .. }
//! ```
//!
//! `read_header` gives exactly what the slot says, or the first of seven faults. Each setter changes its field and the checksum
//! alone (`written`), and a sound header then reads as before with that field changed (`reads`). `set_runs` answers false if and
//! only if the pointers do not fit, and then changes nothing; otherwise the runs read back, adjacent ones merged. No call takes
//! memory.
//!
//! A file may have up to 16 headers, each of which names the next one. The reader takes each of them by itself: it follows no
//! link, and does not compare the blocks of the file, which the first header says, with the runs. `set_map`, `set_blocks`,
//! `set_link` and `set_owner` write the runs of one header, the blocks of the file, the next header and the owner, each alone; the
//! other fields and tests stay (`fields`, `tests`).
//!
//! `vol_parts`, the writes of commands (`op_steps`, `op_create`) and mending use it.
#![tactic(auto)]

mod flags;
mod map;
mod pointers;
mod read;
mod run;
mod slot;
mod write;

pub use base_words::Block;
pub use map::{set_map, set_runs};
pub use pointers::{RunIter, runs};
pub use read::read_header;
pub use run::Run;
pub use slot::{Hdr, HeaderFault, Slot};
pub use write::{
    clear_contig, free_slot, new_header, set_blocks, set_end, set_link, set_mark, set_marked,
    set_owner,
};
