//! The lines that are printed.

ghost use Rattle.std.specs.Prelude.{◌≡◌, ◌++◌, OnOk};
ghost use Rattle.dlm_run.specs.Printing.{name_text, mark_text, lock_text, granted_text, told_text, line_text};

use dlm_core::{LockName, Mode, Owner, Told};
use plain_cat::NoMemory;
use plain_texts::{push_bytes, push_count, push_mode, push_number};
use std::alloc::Global;

fn push_name(alloc: Global, out: &mut Vec<u8>, name: LockName) -> Result<(), NoMemory>
    ensures { OnOk result (out.new.items ≡ out.old.items ++ name_text name) }
{
    match name {
        LockName::S(n) => {
            push_bytes(out, b"S")?;
            push_number(alloc, out, n)
        }
        LockName::A(n) => {
            push_bytes(out, b"A")?;
            push_number(alloc, out, n)
        }
        LockName::Q => push_bytes(out, b"Q"),
        LockName::X => push_bytes(out, b"X"),
        LockName::V => push_bytes(out, b"V"),
    }
}

fn push_mark(out: &mut Vec<u8>, valid: bool) -> Result<(), NoMemory>
    ensures { OnOk result (out.new.items ≡ out.old.items ++ mark_text valid) }
{
    if valid {
        push_bytes(out, b" valid")
    } else {
        push_bytes(out, b" invalid")
    }
}

// An owner and a name.
fn push_lock(alloc: Global, out: &mut Vec<u8>, owner: Owner, name: LockName) -> Result<(), NoMemory>
    ensures { OnOk result (out.new.items ≡ out.old.items ++ lock_text owner name) }
{
    push_number(alloc, out, u32::from(owner.node))?;
    push_bytes(out, b" ")?;
    push_number(alloc, out, u32::from(owner.part))?;
    push_bytes(out, b" ")?;
    push_name(alloc, out, name)
}

fn push_granted(
    alloc: Global,
    out: &mut Vec<u8>,
    owner: Owner,
    name: LockName,
    mode: Mode,
    fill: u8,
    valid: bool,
) -> Result<(), NoMemory>
    ensures { OnOk result (out.new.items ≡ out.old.items ++ granted_text owner name mode fill valid) }
{
    push_bytes(out, b"granted ")?;
    push_lock(alloc, out, owner, name)?;
    push_bytes(out, b" ")?;
    push_mode(out, mode)?;
    push_bytes(out, b" ")?;
    push_number(alloc, out, u32::from(fill))?;
    push_mark(out, valid)
}

#[tactic(auto, unfolding(crate::specs::Printing::told_text))]
fn push_told(alloc: Global, out: &mut Vec<u8>, told: &Told) -> Result<(), NoMemory>
    ensures { OnOk result (out.new.items ≡ out.old.items ++ told_text told.now) }
{
    match told {
        Told::Dead => push_bytes(out, b"dead"),
        Told::Busy => push_bytes(out, b"busy"),
        Told::NotHeld => push_bytes(out, b"not held"),
        Told::BadConvert => push_bytes(out, b"bad convert"),
        Told::Nothing => push_bytes(out, b"nothing"),
        Told::Done => push_bytes(out, b"done"),
        Told::Granted {
            owner,
            name,
            mode,
            value,
            valid,
        } => push_granted(alloc, out, *owner, *name, *mode, value[0], *valid),
    }
}

/// Appends the line of the event with this number.
pub(crate) fn push_line(
    alloc: Global,
    out: &mut Vec<u8>,
    k: usize,
    told: &Told,
) -> Result<(), NoMemory>
    ensures { OnOk result (out.new.items ≡ out.old.items ++ line_text k told.now) }
{
    push_count(alloc, out, k)?;
    push_bytes(out, b" ")?;
    push_told(alloc, out, told)?;
    push_bytes(out, b"\n")
}
