//! The file that an entry names, told by what was seen behind the directory. What comes behind the directory's blocks comes by the
//! entry, so it tells the number and the header of the file, and the entries need not be read again.

ghost use Rattle.std.specs.Prelude.{◌≡◌, ◌≤◌, ℕ, Option, option_map};
ghost use Rattle.lock_db.specs.declared.name.LockName.TheVariants.{S};
ghost use Rattle.plain_cat.specs.declared.entries.DirEnt.{DirEnt};
ghost use Rattle.vol_parts.specs.Parts.{IsGeometry};
ghost use Rattle.vol_parts.specs.declared.geometry.Geometry.{Geometry as Volume};
ghost use Rattle.op_law.specs.declared.need.Plan.{Plan};
ghost use Rattle.op_law.specs.Events.{Events, Look, Space};
ghost use Rattle.op_law.specs.Refusing.{SeenFile, if_entry};
ghost use Rattle.op_law.specs.Removing.{delete_in};
ghost use Rattle.op_law.specs.Behind.{FollowsBy};
ghost use Rattle.op_law.specs.Readable.{HeadIsInside};
ghost use Rattle.op_steps.specs.Names.{dir_seen};
ghost use Rattle.op_delete.specs.Naming.{if_used, file_locked, LockIsOf, IsLone, IsFirstFile, IsPassed, IsTold, TellsFile};
ghost use Rattle.op_delete.specs.Seeing.{HeadIsFollowed};

use lock_db::LockName;
use op_law::{Need, Rest, header_lbn};
use op_steps::{DirSeen, FileSeen, fields_told};
use plain_cat::Mode;
use vol_parts::Geometry;

/// The file that an entry names, by what was seen behind the directory.
#[derive(Drop)]
pub(crate) enum Told<'a> {
    /// The file, which is in use, and what was seen behind its header.
    File(FileSeen<'a>, Rest<'a>),

    /// Its lock alone was seen: what the command needs next.
    Next(Need),

    /// Nothing was seen behind its header, or not even that: the entries decide.
    Nothing,
}

// The number of the first lock, where it is a file's, and the locks behind it.
fn file_locked(locks: &[(LockName, Mode)]) -> Option<(u32, &[(LockName, Mode)])>
    ensures { option_map (λ p. (p.0, p.1.now)) result ≡ file_locked locks.now }
{
    match locks {
        [(LockName::S(n), _), behind @ ..] => Some((*n, behind)),
        _ => None,
    }
}

// The file of a number, by its header, where more was seen behind that: so it is in use.
fn header_passed<'a>(volume: &Geometry, n: u32, rest: Rest<'a>) -> Told<'a>
    requires number { n ≤ volume.now.files }
    requires inside { HeadIsInside rest.blocks.now }
    requires followed { HeadIsFollowed volume.now rest.blocks.now }
    ensures file { IsFirstFile volume.now n rest.entry result }
    ensures passed { (g : Volume) (seq : ℕ) (lbn : ℕ) (plan : Plan) (next : SeenFile → Events) (space : Space)
        → FollowsBy (Look (S n) lbn (if_used g n seq plan next)) rest.entry space → IsPassed g (Look (S n) lbn (if_used g n seq plan next)) rest.entry next space result }
{
    let [(_, head), blocks @ ..] = rest.blocks else {
        return Told::Nothing;
    };
    if rest.locks.is_empty() && blocks.is_empty() {
        return Told::Nothing;
    }
    let Some(fields) = fields_told(head) else {
        return Told::Nothing;
    };
    let file = FileSeen {
        num: n,
        head,
        rest: &[],
        fields,
    };
    Told::File(
        file,
        Rest {
            locks: rest.locks,
            blocks,
        },
    )
}

/// The file that an entry of this directory names, as far as what was seen behind the directory tells it. It takes no memory.
pub(crate) fn file_told<'a>(g: &Geometry, d: &DirSeen<'_>, rest: Rest<'a>) -> Told<'a>
    requires geometry { IsGeometry g.now }
    requires number { d.now.fid.num ≤ g.now.files }
    requires locked { LockIsOf g.now rest.locks.now }
    requires inside { HeadIsInside rest.blocks.now }
    requires followed { HeadIsFollowed g.now rest.blocks.now }
    requires lone { IsLone g.now d.now.fid.num rest.blocks.now }
    ensures file { TellsFile g.now result }
    ensures told { (o : Option DirEnt) (space : Space) → FollowsBy (if_entry o (delete_in g.now (dir_seen d.now))) rest.entry space → IsTold g.now (dir_seen d.now) o rest.entry space result }
{
    match file_locked(rest.locks) {
        None => header_passed(g, d.fid.num, rest),
        Some((n, _)) if rest.blocks.is_empty() => {
            Told::Next(Need::Block(LockName::S(n), header_lbn(g, n)))
        }
        Some((n, locks)) => header_passed(
            g,
            n,
            Rest {
                locks,
                blocks: rest.blocks,
            },
        ),
    }
}
