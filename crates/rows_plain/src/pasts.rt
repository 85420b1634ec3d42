//! Registers and channels of a node along its answers.

use plain_cat::{
    Cmd, Fid, FileRef, Kills, Line, LineCmd, Lines, Mode, Name, NoMemory, Plays, Refusal, Reply,
    Script,
};
use plain_past::Past;
use std::alloc::Global;
use std::test::Fail;

const MFD: Fid = Fid { num: 4, seq: 4 };

const MADE: Fid = Fid { num: 12, seq: 1 };

const UNSET: Fid = Fid { num: 0, seq: 0 };

fn name_of(alloc: Global, text: &str) -> Result<Name, NoMemory> {
    let mut name = Name::new(alloc);
    for byte in text.as_bytes() {
        name.push(*byte)?;
    }
    Ok(name)
}

fn look_up(alloc: Global, reg: u8, dir: FileRef, text: &str) -> Result<LineCmd, NoMemory> {
    Ok(LineCmd::Lookup {
        reg,
        dir,
        name: name_of(alloc, text)?,
        ver: 0,
    })
}

fn open(chan: u8) -> LineCmd {
    LineCmd::OpenFile {
        chan,
        file: FileRef::Fixed(MADE),
        mode: Mode::CR,
    }
}

fn script_of(alloc: Global, lines: Lines) -> Script {
    Script {
        nodes: 2,
        lines,
        plays: Plays::new(alloc),
        kills: Kills::new(alloc),
    }
}

fn found(alloc: Global) -> Result<Reply, NoMemory> {
    Ok(Reply::Found {
        fid: MADE,
        name: name_of(alloc, "A.DIR")?,
        ver: 1,
    })
}

// Answers the next command of a node.
fn answer(
    alloc: Global,
    past: &mut Past,
    script: &Script,
    node: u8,
    reply: &Reply,
) -> Result<(), Fail> {
    let Some(cmd) = past.next(alloc, script, node)? else {
        return Err(Fail::new("no command is left"));
    };
    if past.answered() == 4_294_967_295 {
        return Err(Fail::new("too many answers"));
    }
    past.answer(&cmd, reply);
    Ok(())
}

// The file or directory that the next command of a node is for.
fn next_file(
    alloc: Global,
    past: &Past,
    script: &Script,
    node: u8,
) -> Result<Option<Fid>, NoMemory> {
    Ok(match past.next(alloc, script, node)? {
        Some(Cmd::Lookup { dir, .. }) => Some(dir),
        Some(Cmd::Stat { file }) => Some(file),
        _ => None,
    })
}

// The channel that the next command of a node closes.
fn next_close(
    alloc: Global,
    past: &Past,
    script: &Script,
    node: u8,
) -> Result<Option<u8>, NoMemory> {
    Ok(match past.next(alloc, script, node)? {
        Some(Cmd::CloseFile { chan }) => Some(chan),
        _ => None,
    })
}

// Node 1 looks a directory up and something in it; between its lines node 2 asks for what its own register 2 holds.
fn two_nodes(alloc: Global) -> Result<Script, NoMemory> {
    let mut lines = Lines::new(alloc);
    lines.push(Line {
        node: 1,
        cmd: look_up(alloc, 2, FileRef::Fixed(MFD), "A.DIR")?,
    })?;
    lines.push(Line {
        node: 2,
        cmd: LineCmd::Stat {
            file: FileRef::Reg(2),
        },
    })?;
    lines.push(Line {
        node: 1,
        cmd: look_up(alloc, 3, FileRef::Reg(2), "B.DAT")?,
    })?;
    Ok(script_of(alloc, lines))
}

#[test]
fn a_register_holds_what_an_answer_found(rt: HostRuntime) -> Result<(), Fail> {
    let alloc = rt.alloc();
    let script = two_nodes(alloc)?;
    let mut past = Past::new();
    assert_eq!(rt; next_file(alloc, &past, &script, 1)?, Some(MFD));
    answer(alloc, &mut past, &script, 1, &found(alloc)?)?;
    assert_eq!(rt; past.answered(), 1);
    assert_eq!(rt; next_file(alloc, &past, &script, 1)?, Some(MADE));
    assert_eq!(rt; next_file(alloc, &Past::new(), &script, 2)?, Some(UNSET));
    Ok(())
}

#[test]
fn a_refusal_sets_no_register(rt: HostRuntime) -> Result<(), Fail> {
    let alloc = rt.alloc();
    let script = two_nodes(alloc)?;
    let mut past = Past::new();
    let refused = Reply::Refused(Refusal::NoSuchFile);
    answer(alloc, &mut past, &script, 1, &refused)?;
    assert_eq!(rt; next_file(alloc, &past, &script, 1)?, Some(UNSET));
    answer(alloc, &mut past, &script, 1, &refused)?;
    assert!(rt;
        !past.has_next(&script, 1),
        "node 1 has no command after its two lines"
    );
    past.die();
    assert!(rt; past.is_dead(), "node 1 is dead");
    Ok(())
}

#[test]
fn channels_are_closed_in_rising_order(rt: HostRuntime) -> Result<(), Fail> {
    let alloc = rt.alloc();
    let mut lines = Lines::new(alloc);
    for chan in [5, 2, 8] {
        lines.push(Line {
            node: 1,
            cmd: open(chan),
        })?;
    }
    let script = script_of(alloc, lines);
    let mut past = Past::new();
    for _ in 0..3u8 {
        assert_eq!(rt; next_close(alloc, &past, &script, 1)?, None);
        answer(alloc, &mut past, &script, 1, &Reply::Opened)?;
    }
    for chan in [2, 5, 8] {
        assert_eq!(rt; next_close(alloc, &past, &script, 1)?, Some(chan));
        answer(alloc, &mut past, &script, 1, &Reply::Closed { gone: false })?;
    }
    assert!(rt;
        past.next(alloc, &script, 1)?.is_none(),
        "no command is left once each channel is closed"
    );
    Ok(())
}

#[test]
fn a_node_without_lines_has_no_command(rt: HostRuntime) -> Result<(), Fail> {
    let alloc = rt.alloc();
    let script = two_nodes(alloc)?;
    let past = Past::new();
    assert!(rt; past.has_next(&script, 1), "node 1 has a next command");
    assert!(rt; past.has_next(&script, 2), "node 2 has a next command");
    assert!(rt;
        !past.has_next(&script, 3),
        "node 3, which has no lines, has no next command"
    );
    assert!(rt;
        past.next(alloc, &script, 3)?.is_none(),
        "node 3, which has no lines, gives no command"
    );
    Ok(())
}
