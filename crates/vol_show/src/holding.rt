//! The bytes of a file.

ghost use Rattle.std.specs.Prelude.{◌≡◌, IfOk, length, option_map};
ghost use Rattle.plain_rules.specs.Lookups.{in_use};
ghost use Rattle.vol_faults.specs.Conditions.{IsSize};
ghost use Rattle.vol_show.specs.Showing.{Shows, is_plain, held};

use base_words::Block;
use fx_home::read_home;
use plain_cat::{Cat, Fid, NoMemory};
use plain_rules::in_use;
use std::alloc::Global;
use vol_records::stream_of;

// Whether an identifier is that of a file in use that is no directory.
fn is_plain(cat: &Cat, fid: Fid) -> bool
    ensures { result ≡ is_plain (in_use cat.now fid) }
{
    match in_use(cat, fid) {
        Some(file) => !file.dir,
        None => false,
    }
}

/// The bytes of the file under an identifier, up to its end, where blocks from its mark on show zeros. `None` comes where the catalogue
/// has no such file, or it is a directory. `cat` is the catalogue that [`shown`](crate::shown) gives of these blocks, of which there are
/// 64 to 65,536. An error says that memory ran out.
pub fn held(
    alloc: Global,
    blocks: &[Block],
    cat: &Cat,
    fid: Fid,
) -> Result<Option<Vec<u8>>, NoMemory>
    requires size { IsSize (length blocks.now) }
    requires shown { Shows blocks.now cat.now }
    ensures { IfOk result (λ s. option_map (λ v. v.items) s ≡ held blocks.now cat.now fid) }
{
    if !is_plain(cat, fid) {
        return Ok(None);
    }
    match read_home(&blocks[1]) {
        Ok(home) => stream_of(alloc, &home, blocks, fid.num, fid.seq),
        Err(_) => Ok(None),
    }
}
