//! Identifiers, owners, names and modes as they are printed.

ghost use Rattle.std.specs.Prelude.{◌≡◌, ◌≤◌, ◌<◌, ◌+◌, ◌/◌, ◌%◌, ◌++◌, OnOk, OnErr, codes, decimal, length};
ghost use Rattle.plain_texts.specs.Names.{fid_text, uic_text, mode_text};
ghost use Rattle.plain_cat.specs.Names.{text_of as entry_text};

use crate::pieces::{NoMemory, push_bytes, push_octal};
use crate::tail::Tail;
use plain_cat::{Fid, Mode, Name, Uic};
use std::alloc::Global;

// Puts a file identifier in front of a text.
pub(crate) fn fid_before(tail: &mut Tail, fid: Fid)
    requires { length tail.old ≤ 10 }
    ensures text { tail.new ≡ fid_text fid ++ tail.old }
    ensures short { length tail.new ≤ length tail.old + 25 }
{
    tail.byte(b')');
    tail.byte(b'0');
    tail.byte(b',');
    tail.number(u32::from(fid.seq));
    tail.byte(b',');
    tail.number(fid.num);
    tail.byte(b'(');
}

/// Appends a file identifier, as `(4,4,0)`.
pub fn push_fid(_alloc: Global, out: &mut Vec<u8>, fid: Fid) -> Result<(), NoMemory>
    ensures ok { OnOk result (out.new.items ≡ out.old.items ++ fid_text fid) }
    ensures err { OnErr result (out.new.items ≡ out.old.items) }
{
    let mut tail = Tail::new();
    fid_before(&mut tail, fid);
    push_bytes(out, tail.text())
}

// Appends an owner whose group and member have one digit each.
fn push_short_uic(out: &mut Vec<u8>, owner: Uic) -> Result<(), NoMemory>
    requires group { owner.0 / 65536 < 8 }
    requires member { owner.0 % 65536 < 8 }
    ensures { OnOk result (out.new.items ≡ out.old.items ++ uic_text owner) }
{
    let [group, member] = [owner.0 / 65536, owner.0 % 65536];
    push_bytes(
        out,
        &[b'[', b'0' + group as u8, b',', b'0' + member as u8, b']'],
    )
}

// Appends an owner, as `[1,4]`: group and member in octal.
pub(crate) fn add_uic(alloc: Global, out: &mut Vec<u8>, owner: Uic) -> Result<(), NoMemory>
    ensures { OnOk result (out.new.items ≡ out.old.items ++ uic_text owner) }
{
    if owner.0 / 65536 < 8 && owner.0 % 65536 < 8 {
        return push_short_uic(out, owner);
    }
    push_bytes(out, b"[")?;
    push_octal(alloc, out, owner.0 / 65536)?;
    push_bytes(out, b",")?;
    push_octal(alloc, out, owner.0 % 65536)?;
    push_bytes(out, b"]")
}

// Puts the version of an entry in front of a text.
pub(crate) fn version_before(tail: &mut Tail, ver: u16)
    requires { length tail.old ≤ 29 }
    ensures { tail.new ≡ codes ";" ++ (decimal ver ++ tail.old) }
{
    tail.number(u32::from(ver));
    tail.byte(b';');
}

// Appends a name with its version, as `INDEXF.SYS;1`.
pub(crate) fn add_entry(
    _alloc: Global,
    out: &mut Vec<u8>,
    name: &Name,
    ver: u16,
) -> Result<(), NoMemory>
    ensures { OnOk result (out.new.items ≡ out.old.items ++ entry_text name.now ver) }
{
    let mut tail = Tail::new();
    version_before(&mut tail, ver);
    push_bytes(out, name.items())?;
    push_bytes(out, tail.text())
}

/// Appends a lock mode by its two letters.
pub fn push_mode(out: &mut Vec<u8>, mode: Mode) -> Result<(), NoMemory>
    ensures ok { OnOk result (out.new.items ≡ out.old.items ++ mode_text mode) }
    ensures err { OnErr result (out.new.items ≡ out.old.items) }
{
    match mode {
        Mode::NL => push_bytes(out, b"NL"),
        Mode::CR => push_bytes(out, b"CR"),
        Mode::CW => push_bytes(out, b"CW"),
        Mode::PR => push_bytes(out, b"PR"),
        Mode::PW => push_bytes(out, b"PW"),
        Mode::EX => push_bytes(out, b"EX"),
    }
}
