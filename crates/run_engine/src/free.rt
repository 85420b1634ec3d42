//! How many clusters are free at the end of a run.

ghost use Rattle.std.specs.Prelude.{◌≡◌, ◌+◌, ◌/◌, ◌<◌, ℕ, length};
ghost use Rattle.plain_cat.specs.declared.cat.Cat.{Cat};
ghost use Rattle.plain_rules.specs.Lookups.{free_clusters};
ghost use Rattle.vol_parts.specs.Parts.{IsGeometry};
ghost use Rattle.vol_spell.specs.Reading.{total_of, cluster_bit};
ghost use Rattle.core_state.specs.Ends.{AllOver};
ghost use Rattle.run_engine.specs.Ended.{free_bits, HasEnded};

use base_words::Block;
use blk_drive::ImageDev;
use core_state::World;
use fx_bitmap::bit;
use op_law::Operation;
use vol_parts::Geometry;

// Whether the storage bitmap calls a cluster free.
fn is_free(g: &Geometry, blocks: &[Block], q: u32) -> bool
    requires { g.now.bitmap_lbn + 1 + q / 4096 < length blocks.now }
    ensures { result ≡ cluster_bit g.now blocks.now q }
{
    let lbn = g.bitmap_lbn as usize + 1 + (q / 4096) as usize;
    bit(&blocks[lbn], q % 4096)
}

/// How many clusters the storage bitmap calls free.
pub(crate) fn free_bits(g: &Geometry, blocks: &[Block]) -> u32
    requires geometry { IsGeometry g.now }
    requires there { (q : ℕ) → q < total_of g.now → g.now.bitmap_lbn + 1 + q / 4096 < length blocks.now }
    ensures { result ≡ free_bits g.now blocks.now }
{
    let mut free = 0;
    for q in 0..g.blocks / g.cluster {
        if is_free(g, blocks, q) {
            free += 1;
        }
    }
    free
}

/// How many clusters are free once every node is over: those of the catalogue to which the history has led, which the drive spells
/// then. They are counted by their bits.
pub fn free_at_end<I: ImageDev, O: Operation>(w: &World<I, O>) -> u32
    requires { AllOver w.now.world }
    ensures { (c : Cat) × HasEnded w.now.world c × (result ≡ free_clusters c) }
{
    w.keeps_the_rules();
    free_bits(&w.core.geometry, w.core.mirror.all())
}
