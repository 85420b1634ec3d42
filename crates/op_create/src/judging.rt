//! What a directory whose blocks were seen refuses: a file, or a directory, that is to be entered there.

ghost use Rattle.std.specs.Prelude.{◌≡◌};
ghost use Rattle.op_law.specs.Rows.{entries_seen};
ghost use Rattle.op_law.specs.Behind.{blocks_alone};
ghost use Rattle.op_law.specs.Readable.{IsRead};
ghost use Rattle.plain_rules.specs.Answers.{first_refusal};
ghost use Rattle.op_law.specs.Entering.{create_refusals, mkdir_refusals};

use base_words::Block;
use op_law::HEADER_MOST;
use op_steps::{has_name, highest_seen, is_full, is_taken, new_version};
use plain_cat::{Name, Refusal};
use vol_parts::Geometry;

/// Why a file of so many clusters is not entered under this name and version, if it is not. It takes no memory.
pub(crate) fn create_refusal(
    g: &Geometry,
    seen: &[(u32, Block)],
    name: &Name,
    ver: u16,
    clusters: u32,
) -> Option<Refusal>
    requires { IsRead seen.now }
    ensures { result ≡ first_refusal (create_refusals g.now (entries_seen (blocks_alone seen.now)) name.now ver clusters) }
{
    if ver == 0 && 32767 <= highest_seen(seen, name) {
        return Some(Refusal::BadVersion);
    }
    let ver = new_version(seen, name, ver);
    if is_taken(seen, name, ver) {
        return Some(Refusal::DupFile);
    }
    if HEADER_MOST < clusters {
        return Some(Refusal::FileLimit);
    }
    if is_full(g, seen, name, ver) {
        return Some(Refusal::DirFull);
    }
    None
}

/// Why a directory is not entered under this name, if it is not. It takes no memory.
pub(crate) fn mkdir_refusal(g: &Geometry, seen: &[(u32, Block)], name: &Name) -> Option<Refusal>
    requires { IsRead seen.now }
    ensures { result ≡ first_refusal (mkdir_refusals g.now (entries_seen (blocks_alone seen.now)) name.now) }
{
    if has_name(seen, name) {
        return Some(Refusal::DupFile);
    }
    if is_full(g, seen, name, 1) {
        return Some(Refusal::DirFull);
    }
    None
}
