//! The streams of files, and variable-length records in them, as Record Management Services (RMS) has them in sequential files
//! of Files-11: a stream of bytes that is a list of records, each a count of two bytes, the lowest first, so many bytes of data,
//! and one byte of padding where the count is odd. A count is 0 to 32,767.
//!
//! [`stream`] gives the bytes of a file of a volume up to its end. [`records`] reads a stream: it gives a [`Rec`] for each record,
//! which says where its data stand, or the first fault. [`push_records`] writes their text. [`Lines8`] is a list of lines of
//! bytes, none longer than a count can tell, and [`spell`] gives the stream of a list. [`store`] writes it into a file in which
//! nothing was written so far.
//!
//! ```text
//! let Some(bytes) = stream(alloc, blocks, n, seq)? else { .. };  // no such file
//! let places = records(alloc, bytes.as_slice())?;                // one for each record
//! push_records(alloc, &mut text, bytes.as_slice(), places.as_slice())?;
//!
//! let lines = Lines8::of_text(alloc, text)?;
//! let len = store(alloc, &mut mirror, n, seq, &lines)?;          // or why not
//! ```
//!
//! A stream is exactly what header and blocks of the file say, and the catalogue of the volume shows the same
//! (`streams_are_shown`). What is spelt reads back: the records of a list's stream are its lines (`read_back`). A stream reads as
//! lines exactly where it is their records (`reading_is_exact`): the padding is written as zero, and not looked at when read. A
//! stream has a fault exactly where what stands before it is records, and the fault says what is wrong at its byte
//! (`faults_are_first`). A text whose lines all end is printed as it was (`texts_print_back`).
//!
//! `store` leaves an accepted volume, wherever it is stopped: one write decides, the last, that of the file's header. The catalogue
//! is the old one before it, and with it the file has the stream. This rests on a law: where the data of one file change alone, a
//! volume is accepted still (`data_is_accepted`). It makes the first so many of one list of writes (`writes_at`), and no others.
//!
//! The top call `vmsclus` prints the records of a file with it, and stores a text in one (`clus_top`).
#![tactic(auto)]

mod files;
mod laws;
mod lines;
mod placing;
mod reading;
mod spelling;
mod storing;
mod texts;
mod types;

pub use files::{stream, stream_of};
pub use laws::{
    data_is_accepted, faults_are_first, read_back, reading_is_exact, streams_are_shown,
    texts_print_back,
};
pub use lines::Lines8;
pub use reading::records;
pub use spelling::spell;
pub use storing::store;
pub use texts::push_records;
pub use types::{LineFault, NoMemory, Rec, RecFault, StoreFault};

/// The largest count of a record, in bytes.
const LARGEST: usize = 32_767;
