//! The names that the headers of the system files have.

ghost use Rattle.std.specs.Prelude.{◌≡◌, ◌≤◌};
ghost use Rattle.vol_init.specs.Layouts.{text_of};

/// The text that the header of the system file of a number, 1 to 11, has for its name: `NAME.TYP` and version 1.
#[tactic(auto, unfolding(crate::specs::Layouts::text_of, plain_rules::specs::Mending::system_names))]
pub fn text_of<'a>(n: u32) -> &'a [u8]
    requires from { 1 ≤ n }
    requires to { n ≤ 11 }
    ensures { result.now ≡ text_of n }
{
    match n {
        1 => b"INDEXF.SYS;1",
        2 => b"BITMAP.SYS;1",
        3 => b"BADBLK.SYS;1",
        4 => b"000000.DIR;1",
        5 => b"CORIMG.SYS;1",
        6 => b"VOLSET.SYS;1",
        7 => b"CONTIN.SYS;1",
        8 => b"BACKUP.SYS;1",
        9 => b"BADLOG.SYS;1",
        10 => b"QUOTA.SYS;1",
        _ => b"SYSLOST.DIR;1",
    }
}
