//! A file in use as a command has seen it: its number and its headers.

ghost use Rattle.std.specs.Prelude.{◌≡◌, option_map, Some, IfSome};
ghost use Rattle.vol_parts.specs.declared.geometry.Geometry.{Geometry as Volume};
ghost use Rattle.vol_spell.specs.Reading.{fields_told};
ghost use Rattle.op_law.specs.Refusing.{seen_file, used_in};
ghost use Rattle.op_law.specs.Readable.{AreInside};
ghost use Rattle.op_steps.specs.Seeing.{file_seen, IsReadableAs};

use base_words::Block;
use fx_header::{Hdr, Slot, read_header};
use plain_cat::Fid;

/// A file in use of which headers were seen. It may be marked for delete.
#[derive(Clone, Copy)]
pub struct FileSeen<'a> {
    pub num: u32,

    /// The block of its first header.
    pub head: &'a Block,

    /// Its other headers that were seen, in order, each with its place.
    pub rest: &'a [(u32, Block)],

    /// The fields that the first header tells.
    pub fields: Hdr,
}

/// The first header of the file in use in a slot, by its block, or none where the slot has none.
pub fn fields_told(b: &Block) -> Option<Hdr>
    ensures { result ≡ fields_told b.now }
{
    match read_header(b) {
        Ok(Slot::Used(h)) => if h.seg == 0 { Some(h) } else { None },
        Ok(Slot::Free(_)) => None,
        Err(_) => None,
    }
}

// The same of the file in use of this sequence.
fn used_in(b: &Block, seq: u16) -> Option<Hdr>
    ensures header { result ≡ used_in seq b.now }
    ensures told { IfSome result (λ h. fields_told b.now ≡ Some h) }
{
    let h = fields_told(b)?;
    if h.seq == seq { Some(h) } else { None }
}

/// The file in use under an identifier, by the block of its number's header, or none where the slot has another sequence or is free.
pub fn file_used<'a>(fid: Fid, head: &'a Block) -> Option<FileSeen<'a>>
    requires inside { AreInside head.now }
    ensures file { (g : Volume) → option_map (file_seen g) result ≡ option_map (seen_file g fid.num head.now) (used_in fid.seq head.now) }
    ensures readable { IfSome result (IsReadableAs fid.num head.now) }
{
    match used_in(head, fid.seq) {
        Some(fields) => Some(FileSeen {
            num: fid.num,
            head,
            rest: &[],
            fields,
        }),
        None => None,
    }
}
