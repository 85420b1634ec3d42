//! Commands, replies and histories as they are printed.

use plain_cat::{
    ByteBlock, Cmd, DirEnt, DirEnts, Entry, Fid, Mended, Name, NumberList, Refusal, Reply, Stage,
    Uic,
};
use plain_past::Past;
use plain_texts::{NoMemory, push_command, push_lines, push_reply};
use run_script::read_script;
use std::alloc::Global;
use std::test::Fail;

fn name_of(alloc: Global, text: &str) -> Result<Name, NoMemory> {
    let mut name = Name::new(alloc);
    for byte in text.as_bytes() {
        name.push(*byte)?;
    }
    Ok(name)
}

const FILE: Fid = Fid { num: 12, seq: 1 };

const USER: Uic = Uic(65540);

/// Lines of a node, and their commands as they are printed.
const COMMANDS: [(&str, &str); 15] = [
    ("LOOKUP R1 MFD A.TXT;0", "LOOKUP R1 (4,4,0) A.TXT;0"),
    ("LIST MFD", "LIST (4,4,0)"),
    ("STAT (12,1,0)", "STAT (12,1,0)"),
    (
        "CREATE R1 MFD A.TXT;0 10 [1,4]",
        "CREATE R1 (4,4,0) A.TXT;0 10 [1,4]",
    ),
    (
        "MKDIR R8 LOST D [37777,177777]",
        "MKDIR R8 (11,1,0) D [37777,177777]",
    ),
    ("EXTEND (12,1,0) 1", "EXTEND (12,1,0) 1"),
    ("TRUNC (12,1,0) 304", "TRUNC (12,1,0) 304"),
    ("DELETE MFD A.TXT;32767", "DELETE (4,4,0) A.TXT;32767"),
    (
        "RENAME MFD A.TXT;1 B.TXT;0",
        "RENAME (4,4,0) A.TXT;1 B.TXT;0",
    ),
    ("OPEN 1 (12,1,0) CW", "OPEN 1 (12,1,0) CW"),
    ("CLOSE 1", "CLOSE 1"),
    ("READ 1 1", "READ 1 1"),
    ("WRITE 1 1 HELLO", "WRITE 1 1 HELLO"),
    ("QUOTASET [1,4] 13 4", "QUOTASET [1,4] 13 4"),
    ("QUOTASHOW [1,4]", "QUOTASHOW [1,4]"),
];

/// The command of a line, as it is printed.
fn printed(alloc: Global, line: &str) -> Result<Vec<u8>, Fail> {
    let text = format!(in alloc; "NODES 1\n1 {line}\n")?;
    let Ok(script) = read_script(alloc, text.as_bytes()) else {
        return Err(Fail::new("a bad line"));
    };
    let Some(cmd) = Past::new().next(alloc, &script, 1)? else {
        return Err(Fail::new("no command"));
    };
    let mut out = Vec::new(alloc);
    push_command(alloc, &mut out, &cmd)?;
    Ok(out)
}

#[test]
fn writes_each_command(rt: HostRuntime) -> Result<(), Fail> {
    for (line, text) in COMMANDS {
        let found = printed(rt.alloc(), line)?;
        assert_eq!(rt; found.as_slice(), text.as_bytes(), "{text}");
    }
    Ok(())
}

fn hello() -> [u8; 512] {
    let mut block = [0u8; 512];
    block[0] = b'H';
    block[1] = b'E';
    block[2] = b'L';
    block[3] = b'L';
    block[4] = b'O';
    block
}

fn replies(alloc: Global) -> Result<Vec<(Reply, &'static str)>, NoMemory> {
    let mut all = Vec::new(alloc);
    let name = name_of(alloc, "A.TXT")?;
    all.push((
        Reply::Found {
            fid: FILE,
            name,
            ver: 1,
        },
        "(12,1,0) A.TXT;1",
    ))?;
    let mut two = DirEnts::new(alloc);
    for (ver, num) in [(2u16, 14u32), (1, 13)] {
        let name = name_of(alloc, "LOGIN.COM")?;
        two.push(DirEnt {
            name,
            ver,
            fid: Fid { num, seq: 1 },
        })?;
    }
    all.push((
        Reply::Listed(two),
        "2 entries LOGIN.COM;2 (14,1,0) LOGIN.COM;1 (13,1,0)",
    ))?;
    all.push((
        Reply::Facts {
            dir: false,
            owner: USER,
            blocks: 12,
            mark: 1,
            end: 1,
            byte: 0,
        },
        "file [1,4] 12 blocks mark 1 end 1,0",
    ))?;
    all.push((
        Reply::Facts {
            dir: true,
            owner: USER,
            blocks: 4,
            mark: 0,
            end: 5,
            byte: 0,
        },
        "directory [1,4] 4 blocks mark 0 end 5,0",
    ))?;
    all.push((Reply::Size(304), "304 blocks"))?;
    all.push((Reply::Deleted, "deleted"))?;
    all.push((Reply::Marked, "marked"))?;
    all.push((Reply::EntryRemoved, "entry removed"))?;
    all.push((
        Reply::Renamed {
            name: name_of(alloc, "B.TXT")?,
            ver: 1,
        },
        "B.TXT;1",
    ))?;
    all.push((Reply::Opened, "open"))?;
    all.push((Reply::Closed { gone: false }, "closed"))?;
    all.push((Reply::Closed { gone: true }, "closed and deleted"))?;
    all.push((
        Reply::Bytes(ByteBlock::new(alloc, &hello())?),
        "48454c4c4f0000000000000000000000 sum 372",
    ))?;
    all.push((Reply::Written, "written"))?;
    all.push((Reply::QuotaKept, "set"))?;
    all.push((
        Reply::Usage {
            usage: 13,
            quota: 1088,
            over: 0,
        },
        "usage 13 quota 1088 overdraft 0",
    ))?;
    all.push((Reply::Refused(Refusal::AccConflict), "refused AccConflict"))?;
    Ok(all)
}

#[test]
fn writes_each_reply(rt: HostRuntime) -> Result<(), Fail> {
    let all = replies(rt.alloc())?;
    assert_eq!(rt; all.len(), 17);
    for (reply, text) in &all {
        let mut out = Vec::new(rt.alloc());
        push_reply(rt.alloc(), &mut out, reply)?;
        assert_eq!(rt; out.as_slice(), text.as_bytes(), "{text}");
    }
    Ok(())
}

#[test]
fn writes_the_lines_of_a_history(rt: HostRuntime) -> Result<(), Fail> {
    let alloc = rt.alloc();
    let mut entries = Vec::new(alloc);
    let mut numbers = NumberList::new(alloc);
    numbers.push(13)?;
    numbers.push(14)?;
    entries.push(Entry::Died {
        node: 1,
        stage: Stage::DataOnly,
        clusters: 16,
        numbers,
    })?;
    let cmd = Cmd::QuotaShow { owner: USER };
    let reply = Reply::Usage {
        usage: 13,
        quota: 1088,
        over: 0,
    };
    entries.push(Entry::Done {
        node: 2,
        cmd,
        reply,
    })?;
    let mended = Mended {
        entered: 1,
        removed: 0,
        gone: 0,
        clusters: 16,
        numbers: 8,
    };
    entries.push(Entry::Mended(mended))?;
    let mut out = Vec::new(alloc);
    push_lines(alloc, &mut out, entries.as_slice())?;
    let lines =
        "1 N1 died at data only, leaked 16 clusters, 2 numbers\n2 N2 QUOTASHOW [1,4] = usage 13 quota 1088 overdraft 0\n3 rebuilt: 1 entered, 0 entries removed, 0 files gone, 16 clusters, 8 numbers\n";
    assert_eq!(rt; out.as_slice(), lines.as_bytes());
    Ok(())
}
