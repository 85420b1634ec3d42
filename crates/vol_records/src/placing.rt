//! What is written to store bytes in a file.
ghost use Rattle.std.specs.Prelude.{◌≡◌, ◌≤◌, ◌*◌, length, take, drop};
ghost use Rattle.fx_home.specs.Homes.{IsWithinLimits};
ghost use Rattle.vol_parts.specs.Volumes.{volume};
ghost use Rattle.vol_records.specs.Storing.{used_file, store_refusal, filled, blocks_for, stored_header};

use crate::types::StoreFault;
use base_words::{Block, put_bytes, zeros};
use fx_header::{Hdr, set_end, set_mark};
use fx_home::Home;
use vol_parts::fields;

// The fields of the file in use under a number and a sequence.
#[tactic(auto, unfolding(crate::specs::Storing::used_file))]
fn used_file(home: &Home, blocks: &[Block], n: u32, seq: u16) -> Option<Hdr>
    requires { IsWithinLimits home.now }
    ensures value { result ≡ used_file (volume home.now blocks.now) n seq }
{
    if n == 0 || n > home.files {
        return None;
    }
    let f = fields(home, blocks, n)?;
    if f.seq == seq { Some(f) } else { None }
}

// Why so many bytes are not stored in a file.
#[tactic(auto, unfolding(crate::specs::Storing::store_refusal))]
pub(crate) fn refusal(
    home: &Home,
    blocks: &[Block],
    n: u32,
    seq: u16,
    len: usize,
) -> Option<StoreFault>
    requires { IsWithinLimits home.now }
    ensures { result ≡ store_refusal (volume home.now blocks.now) n seq len }
{
    let Some(f) = used_file(home, blocks, n, seq) else {
        return Some(StoreFault::NoSuchFile);
    };
    if n <= 11 || f.dir {
        return Some(StoreFault::NoPriv);
    }
    if f.mark != 1 {
        return Some(StoreFault::NotEmpty);
    }
    if 512 * (f.blocks as usize) < len {
        return Some(StoreFault::NoRoom);
    }
    None
}

// How many blocks so many bytes take.
pub(crate) fn blocks_for(len: usize) -> usize
    requires { len ≤ 512 * 65536 }
    ensures { result ≡ blocks_for len }
{
    (len + 511) / 512
}

// The block of the bytes from 512 * i on, with zeros behind the last.
pub(crate) fn chunk(bytes: &[u8], i: usize) -> Block
    requires { 512 * i ≤ length bytes.now }
    ensures { result ≡ filled (take 512 (drop (512 * i) bytes.now)) }
{
    let rest = &bytes[512 * i..];
    let part = &rest[..rest.len().min(512)];
    let mut b = zeros();
    put_bytes(&mut b, 0, part);
    b
}

// The header of a file in which so many bytes are stored.
pub(crate) fn stored_header(head: &Block, len: usize) -> Block
    requires { len ≤ 512 * 65536 }
    ensures { result ≡ stored_header head.now len }
{
    let mut b = *head;
    set_mark(&mut b, blocks_for(len) as u32 + 1);
    set_end(&mut b, (len / 512) as u32 + 1, (len % 512) as u16);
    b
}
