//! How many blocks the nodes have read, and how many they found in their caches.

ghost use Rattle.std.specs.Prelude.{◌≡◌};
ghost use Rattle.run_engine.specs.Summaries.{all_reads, all_hits};

use crate::rotation::nodes_of;
use blk_drive::ImageDev;
use core_state::World;
use op_law::Operation;

/// How many blocks the nodes have read from the drive since mounting, all together.
pub fn all_reads<I: ImageDev, O: Operation>(w: &World<I, O>) -> u128
    ensures { result ≡ all_reads w.now.world }
{
    let last = nodes_of(w);
    let mut sum = 0u128;
    for node in 0..last {
        sum += u128::from(w.reads(node + 1));
    }
    sum
}

/// How many blocks the nodes have found in their caches since mounting, all together.
pub fn all_hits<I: ImageDev, O: Operation>(w: &World<I, O>) -> u128
    ensures { result ≡ all_hits w.now.world }
{
    let last = nodes_of(w);
    let mut sum = 0u128;
    for node in 0..last {
        sum += u128::from(w.hits(node + 1));
    }
    sum
}
