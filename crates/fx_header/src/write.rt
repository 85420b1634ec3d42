//! Headers, written: new ones and free slots, and single fields of one that is there.

ghost use Rattle.std.specs.Prelude.{◌≡◌, ◌+◌, ◌-◌, ◌≤◌, ◌<◌, ◌^◌, drop, length, true, IsTrue};
ghost use Rattle.base_words.specs.Fields.{put_field};
ghost use Rattle.base_words.specs.Tables.{laid};
ghost use Rattle.fx_header.specs.declared.slot.Hdr.{Hdr};
ghost use Rattle.fx_header.specs.declared.slot.Slot.TheVariants.{Free, Used};
ghost use Rattle.fx_header.specs.Headers.{filled, high_first_rows, id_rows, area_rows, size_rows, owner_rows, with_name, flags_of, header_bytes, freed, marked, scattered, with_mark, with_owner, with_end, with_blocks, with_link, has_offsets, map_area, fields_of, header_read, KeepsTests, LeavesRuns, IsMade, EndsWithin, ReadsBack};

use crate::flags::FileFlags;
use crate::slot::Hdr;
use base_words::{Block, long_at, put_bytes, put_long, put_word, set_sum, zeros};
use bitflags::Flags;

/// Writes one byte, and changes no other.
pub(crate) fn put_byte(b: &mut Block, o: usize, n: u8)
    requires { o < 512 }
    ensures { b.new ≡ put_field b.old o 1 n }
{
    put_bytes(b, o, &[n]);
}

/// Writes a number of four bytes, its high word first.
pub(crate) fn put_high_first(b: &mut Block, o: usize, n: u32)
    requires { o + 4 ≤ 512 }
    ensures { b.new ≡ laid (high_first_rows o n) b.old }
{
    put_word(b, o, (n >> 16) as u16);
    put_word(b, o + 2, (n & 0xffff) as u16);
}

/// Writes a file identifier: the number and the sequence number, on volume 0.
fn put_id(b: &mut Block, o: usize, num: u32, seq: u16)
    requires room { o + 6 ≤ 512 }
    requires number { num < 2 ^ 24 }
    ensures { b.new ≡ laid (id_rows o num seq) b.old }
{
    put_word(b, o, (num & 0xffff) as u16);
    put_word(b, o + 2, seq);
    put_byte(b, o + 4, 0);
    put_byte(b, o + 5, (num >> 16) as u8);
}

/// Writes the number and the sequence number of the header's own slot (FID), and those of the next header of the file (EXT_FID).
fn put_ids(b: &mut Block, h: &Hdr)
    requires number { h.now.num < 2 ^ 24 }
    requires next { h.now.ext < 2 ^ 24 }
    ensures written { b.new ≡ laid (id_rows 14 h.now.ext h.now.ext_seq) (laid (id_rows 8 h.now.num h.now.seq) b.old) }
    ensures seq { h.now.seq < 2 ^ 16 }
    ensures ext_seq { h.now.ext_seq < 2 ^ 16 }
{
    put_id(b, 8, h.num, h.seq);
    put_id(b, 14, h.ext, h.ext_seq);
}

/// The file characteristics of a header.
fn flags_of(h: &Hdr) -> FileFlags
    ensures { result.0 ≡ flags_of h.now }
{
    let mut flags = FileFlags(0);
    flags.set(FileFlags::DIRECTORY, h.dir);
    flags.set(FileFlags::MARKDEL, h.marked);
    flags
}

/// Fills an area with the front of a text, and with spaces behind it.
fn fill(area: &mut [u8], text: &[u8])
    ensures { area.new ≡ filled (length area.old) text.now }
{
    let n = text.len().min(area.len());
    area[..n].copy_from_slice(&text[..n]);
    area[n..].fill(b' ');
}

/// What stands behind the first n characters of a text.
fn behind(text: &[u8], n: usize) -> &[u8]
    ensures { result.now ≡ drop n text.now }
{
    &text[text.len().min(n)..]
}

/// Writes the characters of a file's name into the ident area.
fn put_name(b: &mut Block, text: &[u8])
    ensures { b.new ≡ with_name b.old text.now }
{
    let mut front = [0; 20];
    fill(&mut front, text);
    put_bytes(b, 80, &front);
    let mut back = [0; 66];
    fill(&mut back, behind(text, 20));
    put_bytes(b, 134, &back);
}

/// Writes where the areas of a header begin, which header of its file it is, and the structure level.
#[tactic(auto, unfolding(crate::specs::Headers::area_rows))]
fn put_areas(b: &mut Block, seg: u16)
    ensures { b.new ≡ laid (area_rows seg) b.old }
{
    put_byte(b, 0, 40);
    put_byte(b, 1, 100);
    put_byte(b, 2, 255);
    put_byte(b, 3, 255);
    put_word(b, 4, seg);
    put_byte(b, 6, 1);
    put_byte(b, 7, 2);
}

/// Writes the blocks of a file and its end.
#[tactic(auto, unfolding(crate::specs::Headers::size_rows))]
fn put_size(b: &mut Block, blocks: u32, end: u32, byte: u16)
    ensures { b.new ≡ laid (size_rows blocks end byte) b.old }
{
    put_high_first(b, 24, blocks);
    put_high_first(b, 28, end);
    put_word(b, 32, byte);
}

/// Writes the characteristics of a file, its owner, its directory and its mark.
#[tactic(auto, unfolding(crate::specs::Headers::owner_rows))]
fn put_owner(b: &mut Block, flags: FileFlags, owner: u32, parent: (u32, u16), mark: u32)
    requires { parent.0 < 2 ^ 24 }
    ensures { b.new ≡ laid (owner_rows flags.0 owner parent mark) b.old }
{
    put_long(b, 52, flags.bits());
    put_long(b, 60, owner);
    put_id(b, 66, parent.0, parent.1);
    put_long(b, 76, mark);
}

/// A free slot with the sequence number of its number's last use: the next use has one more.
#[tactic(auto, unfolding(crate::specs::Headers::freed))]
pub fn free_slot(seq: u16) -> Block
    ensures written { result ≡ freed seq }
    ensures reads { header_read result ≡ Ok (Free seq) }
{
    let mut b = zeros();
    put_word(&mut b, 10, seq);
    set_sum(&mut b);
    b
}

/// A new header of a file, whose number is 1 to 16,777,215. The text is the file's name as `NAME.TYP;1`, of which the ident
/// area holds 86 characters, and `parent` is the number and the sequence number of its directory. Of the headers of the file
/// it is number `seg`, and `ext` names the next one. An extension header, whose `seg` is above 0, has an empty text and the
/// parent 0, 0. The map area has 155 words and is empty: `set_runs` writes the runs of a file's only header, with its blocks,
/// and `set_map` those of any other header.
#[tactic(auto, unfolding(crate::specs::Headers::header_bytes))]
pub fn new_header(h: &Hdr, text: &[u8], parent: (u32, u16)) -> Block
    requires number { (1 ≤ h.now.num) × (h.now.num < 2 ^ 24) }
    requires parent { parent.0 < 2 ^ 24 }
    requires blocks { h.now.blocks ≤ 65536 }
    requires mark { h.now.mark ≤ h.now.blocks + 1 }
    requires end { h.now.end ≤ h.now.blocks + 1 }
    requires byte { h.now.byte ≤ 511 }
    requires seg { h.now.seg ≤ 15 }
    requires ext { h.now.ext ≤ 16777215 }
    ensures written { result ≡ header_bytes h.now text.now parent }
    ensures offsets { IsTrue (has_offsets result) }
    ensures area { map_area result ≡ 155 }
    ensures fields { fields_of result ≡ h.now }
    ensures made { IsMade result }
    ensures reads { ReadsBack result h.now }
{
    let mut b = zeros();
    put_areas(&mut b, h.seg);
    put_ids(&mut b, h);
    put_size(&mut b, h.blocks, h.end, h.byte);
    put_owner(&mut b, flags_of(h), h.owner, parent, h.mark);
    put_name(&mut b, text);
    set_sum(&mut b);
    b
}

/// Marks the file for delete.
#[tactic(auto, unfolding(crate::specs::Headers::marked))]
pub fn set_marked(b: &mut Block)
    ensures written { b.new ≡ marked b.old }
    ensures reads { (h : Hdr) → header_read b.old ≡ Ok (Used h)
        → header_read b.new ≡ Ok (Used (record h { marked = true })) }
{
    let mut flags = FileFlags(long_at(b, 52));
    flags.insert(FileFlags::MARKDEL);
    put_long(b, 52, flags.bits());
    set_sum(b);
}

/// Takes back the promise that the file is contiguous, as whoever extends it has to.
#[tactic(auto, unfolding(crate::specs::Headers::scattered))]
pub fn clear_contig(b: &mut Block)
    ensures written { b.new ≡ scattered b.old }
    ensures reads { (h : Hdr) → header_read b.old ≡ Ok (Used h) → header_read b.new ≡ Ok (Used h) }
{
    let mut flags = FileFlags(long_at(b, 52));
    flags.remove(FileFlags::CONTIG);
    put_long(b, 52, flags.bits());
    set_sum(b);
}

/// Writes the mark: the virtual block from which on blocks count as not written, or 0 for none.
#[tactic(auto, unfolding(crate::specs::Headers::with_mark))]
pub fn set_mark(b: &mut Block, mark: u32)
    ensures written { b.new ≡ with_mark b.old mark }
    ensures reads { (h : Hdr) → header_read b.old ≡ Ok (Used h) → mark ≤ h.blocks + 1
        → header_read b.new ≡ Ok (Used (record h { mark = mark })) }
{
    put_long(b, 76, mark);
    set_sum(b);
}

/// Writes the end of file: the virtual block that it lies in, and the first free byte there.
#[tactic(auto, unfolding(crate::specs::Headers::with_end))]
pub fn set_end(b: &mut Block, end: u32, byte: u16)
    ensures written { b.new ≡ with_end b.old end byte }
    ensures reads { (h : Hdr) → header_read b.old ≡ Ok (Used h) → end ≤ h.blocks + 1 → byte ≤ 511
        → header_read b.new ≡ Ok (Used (record h { end = end; byte = byte })) }
{
    put_high_first(b, 28, end);
    put_word(b, 32, byte);
    set_sum(b);
}

/// Writes the blocks of the file (HIBLK) alone: the runs stay as they are. A first header is sound afterwards if its end and
/// its mark lie within, any other in any case.
#[tactic(auto, unfolding(crate::specs::Headers::with_blocks))]
pub fn set_blocks(b: &mut Block, blocks: u32)
    ensures written { b.new ≡ with_blocks b.old blocks }
    ensures fields { fields_of b.new ≡ record (fields_of b.old) { blocks = blocks } }
    ensures runs { LeavesRuns b.old b.new }
    ensures tests { KeepsTests b.old b.new }
    ensures reads { (h : Hdr) → header_read b.old ≡ Ok (Used h) → EndsWithin (record h { blocks = blocks })
        → header_read b.new ≡ Ok (Used (record h { blocks = blocks })) }
{
    put_high_first(b, 24, blocks);
    set_sum(b);
}

/// Writes the owner's UIC (FILEOWNER), the group times 65,536 plus the member. Whichever of the file's headers it is, it reads
/// as before with that owner.
#[tactic(auto, unfolding(crate::specs::Headers::with_owner))]
pub fn set_owner(b: &mut Block, uic: u32)
    ensures written { b.new ≡ with_owner b.old uic }
    ensures fields { fields_of b.new ≡ record (fields_of b.old) { owner = uic } }
    ensures runs { LeavesRuns b.old b.new }
    ensures tests { KeepsTests b.old b.new }
    ensures reads { (h : Hdr) → header_read b.old ≡ Ok (Used h) → header_read b.new ≡ Ok (Used (record h { owner = uic })) }
{
    put_long(b, 60, uic);
    set_sum(b);
}

/// Writes the number and the sequence number of the file's next header (EXT_FID), 0 and 0 for none.
#[tactic(auto, unfolding(crate::specs::Headers::with_link))]
pub fn set_link(b: &mut Block, num: u32, seq: u16)
    requires number { num ≤ 16777215 }
    ensures written { b.new ≡ with_link b.old num seq }
    ensures fields { fields_of b.new ≡ record (fields_of b.old) { ext = num; ext_seq = seq } }
    ensures runs { LeavesRuns b.old b.new }
    ensures tests { KeepsTests b.old b.new }
    ensures reads { (h : Hdr) → header_read b.old ≡ Ok (Used h)
        → header_read b.new ≡ Ok (Used (record h { ext = num; ext_seq = seq })) }
{
    put_id(b, 14, num, seq);
    set_sum(b);
}
