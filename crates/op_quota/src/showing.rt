//! What a QUOTASHOW needs next.

ghost use Rattle.std.specs.Prelude.{◌≡◌, IfOk};
ghost use Rattle.vol_parts.specs.Parts.{IsGeometry};
ghost use Rattle.op_law.specs.Events.{next_of};
ghost use Rattle.op_law.specs.Quotas.{quota_show_events};

use op_law::{Listed, Need, NoMemory, Seen, answered, refused};
use op_steps::{quota_seen, rows_seen};
use plain_cat::{Mode, Refusal, Reply, Uic};
use plain_rules::row_of;
use std::alloc::Global;

/// What a QUOTASHOW needs next. An error says that memory ran out.
#[tactic(auto, unfolding(op_law::specs::Quotas::quota_show_events))]
pub(crate) fn quota_show_next(alloc: Global, owner: Uic, seen: &Seen) -> Result<Need, NoMemory>
    requires { IsGeometry seen.now.geometry }
    ensures { IfOk result (λ n. n ≡ next_of (quota_show_events seen.now.geometry owner) seen.now) }
{
    match quota_seen(&seen.geometry, Mode::PR, seen.all()) {
        Listed::Next(need) => Ok(need),
        Listed::All(quota, _) => {
            let rows = rows_seen(alloc, quota)?;
            Ok(match row_of(rows.items(), owner) {
                Some(r) => answered(
                    alloc,
                    Reply::Usage {
                        usage: r.usage,
                        quota: r.quota,
                        over: r.over,
                    },
                ),
                None => refused(alloc, Refusal::NoQuota),
            })
        }
    }
}
