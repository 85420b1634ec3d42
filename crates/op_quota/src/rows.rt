//! The rows that are not active.

ghost use Rattle.std.specs.Prelude.{◌≡◌, ◌≤◌, ◌<◌, ◌*◌, is_none, length, IfSome};
ghost use Rattle.op_law.specs.Quotas.{row_place};
ghost use Rattle.vol_spell.specs.Rows.{row_seen};
ghost use Rattle.op_law.specs.Behind.{blocks_alone};

use base_words::Block;
use fx_quota::row;

// Whether row j, which counts from 0 through all of these blocks, is not active.
fn is_free(quota: &[(u32, Block)], j: u32) -> bool
    requires { j < 16 * length quota.now }
    ensures { result ≡ is_none (row_seen (blocks_alone quota.now) j) }
{
    row(&quota[(j / 16) as usize].1, j % 16).is_none()
}

/// The place of the first row that is not active, which counts from 0 through at most 16 quota blocks, or none where each is.
#[tactic(auto, unfolding(op_law::specs::Quotas::row_place))]
pub(crate) fn free_row(quota: &[(u32, Block)]) -> Option<u32>
    requires { length quota.now ≤ 16 }
    ensures place { result ≡ row_place (λ r. is_none r) (blocks_alone quota.now) }
    ensures within { IfSome result (λ j. j < 16 * length quota.now) }
{
    let count = 16 * quota.len() as u32;
    for j in 0..count {
        if is_free(quota, j) {
            return Some(j);
        }
    }
    None
}
