//! The registers of a node, which hold identifiers that answers told.

ghost use Rattle.std.specs.Prelude.{◌≡◌};
ghost use Rattle.plain_rules.specs.Own.{register_of, found_fid, registers_after, resolved};

use plain_cat::{Cmd, Fid, FileRef, Reply};

// The register that a command sets, as a number from 1.
pub(crate) fn register_of(cmd: &Cmd) -> Option<u8>
    ensures { result ≡ register_of cmd.now }
{
    match cmd {
        Cmd::Lookup { reg, .. } | Cmd::Create { reg, .. } | Cmd::MkDir { reg, .. } => Some(*reg),
        _ => None,
    }
}

// The identifier that a reply tells of.
pub(crate) fn found_fid(reply: &Reply) -> Option<Fid>
    ensures { result ≡ found_fid reply.now }
{
    match reply {
        Reply::Found { fid, .. } => Some(*fid),
        _ => None,
    }
}

// Sets a register, where there is one to set and an identifier to keep.
pub(crate) fn keep(registers: &mut [Fid; 8], reg: Option<u8>, fid: Option<Fid>)
    ensures { registers.new ≡ registers_after registers.old reg fid }
{
    if let (Some(reg), Some(fid)) = (reg, fid) {
        let at = reg.saturating_sub(1) as usize;
        if at < 8 {
            registers[at] = fid;
        }
    }
}

// The identifier that a reference means.
pub(crate) fn resolved(registers: &[Fid; 8], file: FileRef) -> Fid
    ensures { result ≡ resolved registers.now file }
{
    match file {
        FileRef::Fixed(fid) => fid,
        FileRef::Reg(reg) => match registers.get(reg.saturating_sub(1) as usize) {
            Some(fid) => *fid,
            None => Fid { num: 0, seq: 0 },
        },
    }
}
