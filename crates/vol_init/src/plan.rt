//! What a volume is made of, with all that needs memory.
ghost use Rattle.std.specs.Prelude.{◌≡◌, ◌≤◌, ◌-◌, length, IfOk};
ghost use Rattle.vol_init.specs.Layouts.{IsLayout, reserved_clusters, total};
ghost use Rattle.vol_init.specs.Refusals.{full_label};
ghost use Rattle.vol_init.specs.Plans.{IsPlan, IsOf};

use crate::Layout;
use crate::naming::{directory_blocks, main_blocks};
use base_words::Block;
use fx_dir::NoMemory;
use fx_home::Home;
use std::alloc::Global;

/// What a volume is made of.
#[derive(Drop)]
pub(crate) struct Plan {
    /// The cluster factor, the file numbers and the blocks.
    pub(crate) layout: Layout,
    /// What the home block says.
    pub(crate) home: Home,
    /// The blocks of the master file directory.
    pub(crate) main: Vec<Block>,
    /// The blocks of [SYSLOST].
    pub(crate) lost: Vec<Block>,
}

/// The label, filled with spaces.
fn full_label(label: &[u8]) -> [u8; 12]
    requires { length label.now ≤ 12 }
    ensures { result ≡ full_label label.now }
{
    let mut full = [b' '; 12];
    full[..label.len()].copy_from_slice(label);
    full
}

impl Plan {
    /// The plan of a volume.
    pub(crate) fn new(alloc: Global, layout: Layout, label: &[u8]) -> Result<Plan, NoMemory>
        requires layout { IsLayout layout }
        requires room { reserved_clusters layout ≤ total layout }
        requires label { length label.now ≤ 12 }
        ensures sound { IfOk result IsPlan }
        ensures of { IfOk result (IsOf layout label.now) }
    {
        let main = main_blocks(alloc, layout.cluster)?;
        let none = Vec::new(alloc);
        let lost = directory_blocks(alloc, none.as_slice(), layout.cluster)?;
        let home = Home {
            cluster: layout.cluster as u16,
            files: layout.files,
            label: full_label(label),
        };
        Ok(Plan {
            layout,
            home,
            main,
            lost,
        })
    }
}
