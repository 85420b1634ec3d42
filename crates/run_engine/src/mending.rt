//! The drive of a run that has ended is mended.

ghost use Rattle.std.specs.Prelude.{◌≡◌, ◌≤◌, Some, length, map};
ghost use Rattle.base_words.specs.Faults.{Rose};
ghost use Rattle.base_words.specs.Fields.{AreWholeBlocks};
ghost use Rattle.plain_cat.specs.declared.cat.Cat.{Cat};
ghost use Rattle.plain_rules.specs.Lookups.{free_clusters};
ghost use Rattle.vol_parts.specs.Findings.{Weak, CatOf};
ghost use Rattle.vol_faults.specs.Conditions.{IsSize};
ghost use Rattle.core_state.specs.Worlds.{shown};
ghost use Rattle.blk_drive.specs.Telling.{IsTold};
ghost use Rattle.core_state.specs.Ends.{AllOver};
ghost use Rattle.run_engine.specs.Ended.{HasEnded};
ghost use Rattle.run_engine.specs.Mendings.{StillMends, IsMendEnd, IsMendImage};

use crate::free::free_bits;
use blk_drive::{ImageDev, Mirror};
use core_state::World;
use op_law::Operation;
use plain_cat::{Entry, History};
use std::alloc::Global;
use vol_faults::geometry;
use vol_parts::blocks_are_whole;
use vol_rebuild::{RebuildFault, rebuild};

/// The end of a run whose drive was to be mended.
#[derive(Drop)]
pub struct MendEnd<I: ImageDev> {
    /// The history of the run, with the mending as its last entry where there is no fault.
    pub history: History,

    /// The drive.
    pub mirror: Mirror<I>,

    /// Why the drive is not mended.
    pub fault: Option<RebuildFault>,
}

/// Mends the drive of a world once every node is over, as `vol_rebuild::rebuild` does, and adds this to the history. The place for that
/// entry is taken before the first write.
///
/// `NotMendable` comes with the finding that `[SYSLOST]` lacks room for a lost file, and nothing is written then: a drive that a run
/// leaves has no other fatal finding. `ImageFault` comes where a write of the image failed, and `NoMemory` where memory ran out. After
/// either the drive and the image mend to the same as before. After each fault the history is that of the run.
pub fn mend<I: ImageDev, O: Operation>(alloc: Global, w: World<I, O>) -> MendEnd<I>
    requires { AllOver w.world }
    ensures end { (c : Cat) → HasEnded w.world c → IsMendEnd w.world c (map shown result.history.items) result.mirror.blocks result.fault }
    ensures still { (c : Cat) → HasEnded w.world c → StillMends c w.world.blocks result.mirror.blocks }
    ensures later { I.faults w.image ≤ I.faults result.mirror.image }
    ensures cause { result.fault ≡ Some RebuildFault.ImageFault → Rose (I.faults w.image) (I.faults result.mirror.image) }
    ensures image { IsTold (I.told w.image) w.world.blocks → (c : Cat) → HasEnded w.world c
        → IsMendImage c w.world.blocks (I.told w.image) (I.told result.mirror.image) result.mirror.blocks result.fault }
{
    w.keeps_the_rules();
    let (mut history, mut mirror) = w.into_parts();
    let Ok(()) = history.make_room(1) else {
        return MendEnd {
            history,
            mirror,
            fault: Some(RebuildFault::NoMemory),
        };
    };
    match rebuild(alloc, &mut mirror) {
        Ok(done) => {
            history.append(Entry::Mended(done));
            MendEnd {
                history,
                mirror,
                fault: None,
            }
        }
        Err(fault) => MendEnd {
            history,
            mirror,
            fault: Some(fault),
        },
    }
}

// A drive has as many blocks as a volume may have, and they are whole.
fn drive_is_whole<I: ImageDev>(m: &Mirror<I>)
    ensures size { IsSize (length m.now.blocks) }
    ensures whole { AreWholeBlocks m.now.blocks }
{
    let _size = m.size();
    blocks_are_whole(m.all());
}

/// How many clusters are free on a drive with no fatal finding: those of the catalogue that it tells. They are counted by their bits.
pub fn free_on_drive<I: ImageDev>(m: &Mirror<I>) -> u32
    requires { Weak m.now.blocks }
    ensures { (c : Cat) → CatOf m.now.blocks c → result ≡ free_clusters c }
{
    drive_is_whole(m);
    free_bits(&geometry(m.all()), m.all())
}
