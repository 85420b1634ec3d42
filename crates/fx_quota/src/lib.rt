//! The quota file of a Files-11 ODS-2 volume: 16 rows in a block, each with the usage and the quota of one owner.
//!
//! A `Row` has the owner, and the usage, quota and overdraft in blocks. A row that is not active reads as none.
//!
//! ```text
//! set_row(&mut b, 1, &row_of_owner);
//! assert_eq!(rt; row(&b, 1), Some(row_of_owner));
//! ```
//!
//! `set_row` and `clear_row` change one row, and each other row reads as before (`rows`). Exactly which bytes change is said too
//! (`block`): other flags and reserved bytes stay. No call takes memory.
//!
//! `vol_parts`, the writes of commands (`op_steps`) and mending use it.
#![tactic(auto)]

ghost use Rattle.std.specs.Prelude.{◌≡◌, ◌<◌, Some, None};
ghost use Rattle.fx_quota.specs.Rows.{row_at, row_put, row_cleared, IsRowPut};

mod types;

use base_words::{Block, long_at, put_long};
pub use types::Row;

/// The bytes of a row: its fields, of 4 bytes each, and 12 reserved ones.
const ROW_BYTES: usize = 32;

// Where the fields of a row begin, in bytes. The flags are its first field.

/// The owner's user identification code.
const UIC: usize = 4;
/// How many blocks the owner uses.
const USAGE: usize = 8;
/// The permanent quota.
const PERMQUOTA: usize = 12;
/// The overdraft.
const OVERDRAFT: usize = 16;

/// The flag of an active row.
const ACTIVE: u32 = 1;

/// Row `i` of a block, 0 to 15, or none where it is not active.
#[tactic(auto, unfolding(crate::specs::Rows::row_at))]
pub fn row(b: &Block, i: u32) -> Option<Row>
    requires { i < 16 }
    ensures { result ≡ row_at b.now i }
{
    let start = ROW_BYTES * i as usize;
    if long_at(b, start) & ACTIVE == 0 {
        return None;
    }
    Some(Row {
        uic: long_at(b, start + UIC),
        usage: long_at(b, start + USAGE),
        quota: long_at(b, start + PERMQUOTA),
        over: long_at(b, start + OVERDRAFT),
    })
}

/// Writes row `i`, 0 to 15, and makes it active. The other flags, the reserved bytes and all other rows stay.
#[tactic(auto, unfolding(crate::specs::Rows::row_put))]
pub fn set_row(b: &mut Block, i: u32, r: &Row)
    requires { i < 16 }
    ensures block { b.new ≡ row_put b.old i r.now }
    ensures rows { IsRowPut b.old b.new i (Some r.now) }
{
    let start = ROW_BYTES * i as usize;
    let flags = long_at(b, start);
    put_long(b, start, flags | ACTIVE);
    put_long(b, start + UIC, r.uic);
    put_long(b, start + USAGE, r.usage);
    put_long(b, start + PERMQUOTA, r.quota);
    put_long(b, start + OVERDRAFT, r.over);
}

/// Makes row `i`, 0 to 15, not active. Everything else stays, also what the row says.
#[tactic(auto, unfolding(crate::specs::Rows::row_cleared))]
pub fn clear_row(b: &mut Block, i: u32)
    requires { i < 16 }
    ensures block { b.new ≡ row_cleared b.old i }
    ensures rows { IsRowPut b.old b.new i None }
{
    let start = ROW_BYTES * i as usize;
    let flags = long_at(b, start);
    put_long(b, start, flags & !ACTIVE);
}
