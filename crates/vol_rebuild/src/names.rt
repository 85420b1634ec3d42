//! The entry of a lost file.

ghost use Rattle.std.specs.Prelude.{◌≡◌, ◌≤◌, ◌<◌, IfOk};
ghost use Rattle.plain_rules.specs.Lookups.{versions, highest};
ghost use Rattle.plain_rules.specs.Mending.{lost_name, lost_entry};
ghost use Rattle.vol_spell.specs.Entries.{raw_entry};

use fx_dir::{RawEnt, RawName};
use plain_cat::{DirEnt, NoMemory};
use plain_rules::{highest, lost_name};
use std::alloc::Global;

// The entry of a lost file among these of [SYSLOST], with one more than the highest version of its name there, which is below
// 32,767.
pub(crate) fn lost_entry(
    alloc: Global,
    entries: &[DirEnt],
    n: u32,
    seq: u16,
) -> Result<RawEnt, NoMemory>
    requires { highest (versions (lost_name n) entries.now) < 32767 }
    ensures { IfOk result (λ e. e ≡ raw_entry (lost_entry entries.now n seq)) }
{
    let name = lost_name(alloc, n)?;
    let ver = highest(entries, &name) + 1;
    Ok(RawEnt {
        name: RawName::new(name.items()),
        ver,
        num: n,
        seq,
        limit: 32767,
        flags: 0,
    })
}
