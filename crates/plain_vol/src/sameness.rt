//! Whether two replies are equal.

ghost use Rattle.std.specs.Prelude.{◌≡◌, ◌↔◌, IsTrue};

use plain_cat::{DirEnt, Reply};

fn is_same_entry(a: &DirEnt, b: &DirEnt) -> bool
    ensures { IsTrue result ↔ (a.now ≡ b.now) }
{
    a.name.is_same(&b.name) && a.ver == b.ver && a.fid.num == b.fid.num && a.fid.seq == b.fid.seq
}

fn are_same_entries(a: &[DirEnt], b: &[DirEnt]) -> bool
    ensures { IsTrue result ↔ (a.now ≡ b.now) }
{
    match a {
        [] => b.is_empty(),
        [x, xs @ ..] => match b {
            [] => false,
            [y, ys @ ..] => is_same_entry(x, y) && are_same_entries(xs, ys),
        },
    }
}

// Whether two replies are equal in each part.
pub(crate) fn is_same_reply(a: &Reply, b: &Reply) -> bool
    ensures { IsTrue result ↔ (a.now ≡ b.now) }
{
    match (a, b) {
        (
            Reply::Found { fid, name, ver },
            Reply::Found {
                fid: f,
                name: n,
                ver: v,
            },
        ) => { fid.num == f.num && fid.seq == f.seq && name.is_same(n) && ver == v }
        (Reply::Listed(entries), Reply::Listed(others)) => are_same_entries(
            entries.items(),
            others.items(),
        ),
        (
            Reply::Facts {
                dir,
                owner,
                blocks,
                mark,
                end,
                byte,
            },
            Reply::Facts {
                dir: d,
                owner: o,
                blocks: k,
                mark: m,
                end: e,
                byte: y,
            },
        ) => dir == d && owner.0 == o.0 && blocks == k && mark == m && end == e && byte == y,
        (Reply::Size(blocks), Reply::Size(others)) => blocks == others,
        (Reply::Deleted, Reply::Deleted) => true,
        (Reply::Marked, Reply::Marked) => true,
        (Reply::EntryRemoved, Reply::EntryRemoved) => true,
        (Reply::Renamed { name, ver }, Reply::Renamed { name: n, ver: v }) => name.is_same(n)
            && ver == v,
        (Reply::Opened, Reply::Opened) => true,
        (Reply::Closed { gone }, Reply::Closed { gone: g }) => gone == g,
        (Reply::Bytes(bytes), Reply::Bytes(others)) => bytes.block() == others.block(),
        (Reply::Written, Reply::Written) => true,
        (Reply::QuotaKept, Reply::QuotaKept) => true,
        (
            Reply::Usage { usage, quota, over },
            Reply::Usage {
                usage: u,
                quota: q,
                over: o,
            },
        ) => { usage == u && quota == q && over == o }
        (Reply::Refused(refusal), Reply::Refused(other)) => refusal == other,
        _ => false,
    }
}
