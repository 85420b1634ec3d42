//! The first commands of a soak.

use plain_cat::{Cmd, FileRef, LineCmd, NoMemory};
use plain_texts::push_command;
use run_script::soak;
use std::alloc::Global;
use std::test::Fail;

// A command as a script has it, where its directory is an identifier: nothing of the other commands.
fn text_of(alloc: Global, cmd: &LineCmd) -> Result<Vec<u8>, NoMemory> {
    let cmd = match cmd {
        LineCmd::Delete {
            dir: FileRef::Fixed(dir),
            name,
            ver,
        } => Cmd::Delete {
            dir: *dir,
            name: name.copy(alloc)?,
            ver: *ver,
        },
        LineCmd::Lookup {
            reg,
            dir: FileRef::Fixed(dir),
            name,
            ver,
        } => Cmd::Lookup {
            reg: *reg,
            dir: *dir,
            name: name.copy(alloc)?,
            ver: *ver,
        },
        LineCmd::Create {
            reg,
            dir: FileRef::Fixed(dir),
            name,
            ver,
            blocks,
            owner,
        } => Cmd::Create {
            reg: *reg,
            dir: *dir,
            name: name.copy(alloc)?,
            ver: *ver,
            blocks: *blocks,
            owner: *owner,
        },
        _ => return Ok(Vec::new(alloc)),
    };
    let mut out = Vec::new(alloc);
    push_command(alloc, &mut out, &cmd)?;
    Ok(out)
}

/// Commands of soak 1, each with its place. Four draws make a command: its kind, register, file and size. The draws are those of the
/// example of `rand` in the C standard, and from 1 on they begin with 16838, 5758, 10113, 17515, 31051, 5627, 23010 and 7419; those
/// of the fifth command are 25089, 21183, 25137 and 25566.
const KNOWN: [(usize, &str); 3] = [
    (0, "DELETE (4,4,0) F1.DAT;0"),
    (1, "LOOKUP R4 (4,4,0) F2.DAT;0"),
    (4, "CREATE R8 (4,4,0) F1.DAT;0 30 [1,4]"),
];

#[test]
fn the_first_commands_of_soak_one(rt: HostRuntime) -> Result<(), Fail> {
    let script = soak(rt.alloc(), 1)?;
    assert_eq!(rt;
        (
            script.nodes,
            script.plays.items().len(),
            script.kills.items().len()
        ),
        (4, 0, 0)
    );
    let lines = script.lines.items();
    assert_eq!(rt; lines.len(), 16);
    for (place, text) in &KNOWN {
        let line = lines.get(*place).ok_or("no line")?;
        let found = text_of(rt.alloc(), &line.cmd)?;
        assert_eq!(rt; found.as_slice(), text.as_bytes(), "{text}");
    }
    for (line, node) in lines.iter().zip([1, 2, 3, 4].iter().cycle()) {
        assert_eq!(rt; line.node, *node);
    }
    Ok(())
}
