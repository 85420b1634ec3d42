//! How many clusters there are.

ghost use Rattle.std.specs.Prelude.{◌≡◌, ◌*◌, ◌≤◌, length};
ghost use Rattle.fx_home.specs.Homes.{IsWithinLimits};
ghost use Rattle.vol_parts.specs.Volumes.{volume, factor, total};

use base_words::Block;
use fx_home::Home;

/// The whole clusters of a volume.
pub(crate) fn total(home: &Home, blocks: &[Block]) -> usize
    requires { IsWithinLimits home.now }
    ensures { result ≡ total (volume home.now blocks.now) }
{
    blocks.len() / usize::from(home.cluster)
}

/// The blocks of the whole clusters.
pub(crate) fn whole(home: &Home, blocks: &[Block]) -> usize
    requires { IsWithinLimits home.now }
    ensures value { let v = volume home.now blocks.now in result ≡ factor v * total v }
    ensures inside { result ≤ length blocks.now }
{
    usize::from(home.cluster) * total(home, blocks)
}
