//! The next header of a file.

ghost use Rattle.std.specs.Prelude.{◌≡◌};
ghost use Rattle.fx_home.specs.Homes.{IsWithinLimits};
ghost use Rattle.vol_parts.specs.Volumes.{volume, headers_of};
ghost use Rattle.vol_parts.specs.Chains.{follows, next_header};

use crate::heads::used_slot;
use base_words::Block;
use fx_header::Hdr;
use fx_home::Home;

/// The most headers that a file has.
pub const MOST_HEADERS: u32 = 16;

// Whether a header is the next one of a file behind another one.
#[tactic(auto, unfolding(crate::specs::Chains::follows))]
fn follows(f: &Hdr, next: &Hdr) -> bool
    ensures { result ≡ follows f.now next.now }
{
    next.num == f.ext && next.seq == f.ext_seq && u32::from(next.seg) == u32::from(f.seg) + 1
}

/// The next header of a file behind this one.
#[tactic(auto, unfolding(crate::specs::Chains::next_header))]
pub fn next_header(home: &Home, blocks: &[Block], f: &Hdr) -> Option<Hdr>
    requires limits { IsWithinLimits home.now }
    ensures { result ≡ next_header (headers_of (volume home.now blocks.now)) f.now }
{
    if f.ext < 1 || home.files < f.ext {
        return None;
    }
    let next = used_slot(home, blocks, f.ext)?;
    if follows(f, &next) { Some(next) } else { None }
}
