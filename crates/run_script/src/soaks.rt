//! Soaks: scripts that are drawn from a number.

ghost use Rattle.std.specs.Prelude.{◌≡◌, ◌/◌, ◌≤◌, IfOk};
ghost use Rattle.plain_cat.specs.InForm.{InForm};
ghost use Rattle.run_script.specs.Soaks.{next_state, file_name, soak_command, soak_script};

use plain_cat::{Fid, FileRef, Kills, Line, LineCmd, Lines, Name, NoMemory, Plays, Script, Uic};
use plain_texts::{push_bytes, push_number};
use std::alloc::Global;

// The main directory.
const MFD: FileRef = FileRef::Fixed(Fid { num: 4, seq: 4 });

// [1,4], to whom every file of a soak belongs.
const USER: Uic = Uic(65_540);

// The linear congruential sequence that a soak is drawn from, by its last state.
#[derive(Clone, Copy)]
struct Draws {
    state: u32,
}

impl Draws {
    // The next number, below 32,768.
    #[tactic(auto, unfolding(crate::specs::Soaks::next_state))]
    fn next(&mut self) -> u32
        ensures state { self.new.state ≡ next_state self.old.state }
        ensures value { result ≡ self.new.state / 65536 }
    {
        let state = (u64::from(self.state) * 1_103_515_245 + 12_345) % 2_147_483_648;
        self.state = state as u32;
        self.state / 65_536
    }
}

// These bytes as a name.
fn name_of(alloc: Global, text: &[u8]) -> Result<Name, NoMemory>
    ensures { IfOk result (λ n. n ≡ text.now) }
{
    let mut name = Name::new(alloc);
    for byte in text {
        name.push(*byte)?;
    }
    Ok(name)
}

// The name of the file of this number, as `F1.DAT`.
fn name_of_file(alloc: Global, file: u32) -> Result<Name, NoMemory>
    ensures { IfOk result (λ n. n ≡ file_name file) }
{
    let mut text = Vec::new(alloc);
    push_bytes(&mut text, b"F")?;
    push_number(alloc, &mut text, file)?;
    push_bytes(&mut text, b".DAT")?;
    name_of(alloc, text.as_slice())
}

// The command of this kind, with this register, file number and size.
fn command(alloc: Global, kind: u32, reg: u8, file: u32, size: u32) -> Result<LineCmd, NoMemory>
    ensures { IfOk result (λ c. c ≡ soak_command kind reg file size) }
{
    Ok(match kind {
        0..=2 => LineCmd::Create {
            reg,
            dir: MFD,
            name: name_of_file(alloc, file)?,
            ver: 0,
            blocks: size,
            owner: USER,
        },
        3 => LineCmd::Lookup {
            reg,
            dir: MFD,
            name: name_of_file(alloc, file)?,
            ver: 0,
        },
        4 => LineCmd::Extend {
            file: FileRef::Reg(reg),
            blocks: 1 + size % 16,
        },
        5 => LineCmd::Trunc {
            file: FileRef::Reg(reg),
            blocks: size % 32,
        },
        6 => LineCmd::Delete {
            dir: MFD,
            name: name_of_file(alloc, file)?,
            ver: 0,
        },
        _ => LineCmd::List { dir: MFD },
    })
}

/// The soak `n`: a script of 4 nodes with 16 `n` commands among 16 file names, drawn from `n` alone, with no plays and
/// no kills. It fails only where memory ran out. For `n` up to 256 it is within a script's limits.
pub fn soak(alloc: Global, n: u32) -> Result<Script, NoMemory>
    ensures script { IfOk result (λ s. s ≡ soak_script n) }
    ensures form { n ≤ 256 → IfOk result InForm }
{
    let mut draws = Draws { state: n };
    let mut lines = Lines::new(alloc);
    for i in 0..16 * u64::from(n) {
        let kind = draws.next() % 8;
        let reg = 1 + (draws.next() % 8) as u8;
        let file = draws.next() % 16;
        let size = draws.next() % 64;
        let cmd = command(alloc, kind, reg, file, size)?;
        let node = 1 + (i % 4) as u8;
        lines.push(Line { node, cmd })?;
    }
    Ok(Script {
        nodes: 4,
        lines,
        plays: Plays::new(alloc),
        kills: Kills::new(alloc),
    })
}
