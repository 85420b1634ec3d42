//! The mark and the end of a file, and its header once a virtual block is written.

ghost use Rattle.std.specs.Prelude.{◌≡◌, ◌<◌, ◌+◌, ◌^◌};
ghost use Rattle.plain_rules.specs.Changes.{is_past_mark};
ghost use Rattle.op_law.specs.Channels.{written_header};
ghost use Rattle.op_steps.specs.Seeing.{file_seen};

use base_words::Block;
use fx_header::{set_end, set_mark};
use op_steps::FileSeen;
use vol_parts::Geometry;

/// Whether a virtual block lies at or above the mark.
pub(crate) fn is_past_mark(g: &Geometry, f: &FileSeen<'_>, vbn: u32) -> bool
    ensures { result ≡ is_past_mark (file_seen g.now f.now).file vbn }
{
    f.fields.mark != 0 && f.fields.mark <= vbn
}

/// The header of the file whose mark and end come behind a virtual block that is written at or past them.
#[tactic(auto, unfolding(op_law::specs::Channels::written_header))]
pub(crate) fn written_header(g: &Geometry, f: &FileSeen<'_>, vbn: u32) -> Block
    requires { vbn + 1 < 2 ^ 32 }
    ensures { result ≡ written_header (file_seen g.now f.now) vbn }
{
    let mut block = *f.head;
    if is_past_mark(g, f, vbn) {
        set_mark(&mut block, vbn + 1);
    } else {
        set_mark(&mut block, f.fields.mark);
    }
    if f.fields.end <= vbn {
        set_end(&mut block, vbn + 1, 0);
    } else {
        set_end(&mut block, f.fields.end, f.fields.byte);
    }
    block
}
