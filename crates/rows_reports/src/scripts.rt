//! Scripts: the first bad line, each limit, and what lines say.

use plain_cat::{Fid, FileRef, Kill, KillAt, LineCmd, Mode, NoMemory, Uic};
use run_script::{ScriptFault, read_script};
use std::alloc::Global;
use std::test::Fail;

// The fault of a script.
fn fault(alloc: Global, text: &[u8]) -> Option<ScriptFault> {
    match read_script(alloc, text) {
        Ok(_) => None,
        Err(fault) => Some(fault),
    }
}

#[test]
fn names_the_first_bad_line(rt: HostRuntime) -> Result<(), Fail> {
    let rows = [
        ("", 1),
        ("\n# only comments\n", 3),
        ("# no nodes\n1 LIST MFD\nNODES 1", 2),
        ("NODES 0", 1),
        ("NODES 9", 1),
        ("NODES 01", 1),
        ("NODES 1 ", 1),
        ("NODES 1\r\n", 1),
        (" NODES 1", 1),
        ("NODES 1\nNODES 1", 2),
        ("NODES 1\n1 CREATE R1 MFD\n1 NOTHING\n", 2),
        ("NODES 1\n\n# a comment\n1 LIST  MFD\n1 LIST", 4),
        ("NODES 1\n1 LIST MFD # not a comment", 2),
        ("NODES 1\n1 list MFD", 2),
        ("NODES 2\n3 LIST MFD\n", 2),
        ("NODES 2\n0 LIST MFD\n", 2),
        (
            "NODES 2\nKILL 1 TURN 5\nKILL 2 WRITE 3\nKILL 1 WRITE 1\n",
            4,
        ),
        ("NODES 2\nKILL 3 TURN 5\n", 2),
        ("NODES 2\nSCHED\n", 2),
        ("NODES 2\nSCHED 1 3\n", 2),
    ];
    for (text, line) in rows {
        let found = fault(rt.alloc(), text.as_bytes());
        assert_eq!(rt; found, Some(ScriptFault::BadLine(line)), "{text}");
    }
    assert_eq!(rt;
        fault(rt.alloc(), b"NODES 1\n1 LIST \xff\n"),
        Some(ScriptFault::BadLine(2))
    );
    Ok(())
}

// Whether a line is good behind `NODES 2`.
fn is_good(alloc: Global, line: &str) -> Result<bool, NoMemory> {
    let mut text = Vec::from_slice(alloc, b"NODES 2\n")?;
    text.extend_from_slice(line.as_bytes())?;
    Ok(fault(alloc, text.as_slice()) != Some(ScriptFault::BadLine(2)))
}

#[test]
fn keeps_each_limit(rt: HostRuntime) -> Result<(), Fail> {
    let rows = [
        ("1 LOOKUP R8 LOST A.B;32767", "1 LOOKUP R8 LOST A.B;32768"),
        ("2 LOOKUP R1 R8 A.B;0", "2 LOOKUP R1 R9 A.B;0"),
        ("1 LOOKUP R1 (4,4,0) .;1", "1 LOOKUP R1 (4,4,0) A;1"),
        ("1 LOOKUP R1 MFD A$_-9.B;1", "1 LOOKUP R1 MFD A.B.C;1"),
        ("1 LIST (16777215,65535,0)", "1 LIST (16777216,65535,0)"),
        ("1 STAT (0,0,0)", "1 STAT (0,65536,0)"),
        ("1 STAT (1,1,0)", "1 STAT (1,1,1)"),
        (
            "1 CREATE R1 MFD A.B;1 65536 [37777,177777]",
            "1 CREATE R1 MFD A.B;1 65537 [1,4]",
        ),
        (
            "1 CREATE R1 MFD A.B;1 0 [0,0]",
            "1 CREATE R1 MFD A.B;1 0 [40000,0]",
        ),
        (
            "1 CREATE R1 MFD A.B;1 0 [7,7]",
            "1 CREATE R1 MFD A.B;1 0 [1,200000]",
        ),
        ("1 QUOTASHOW [10,10]", "1 QUOTASHOW [10,8]"),
        ("1 QUOTASHOW [1,4]", "1 QUOTASHOW [01,4]"),
        (
            "1 MKDIR R1 MFD A123456789B123456789C123456789D12345678 [1,4]",
            "1 MKDIR R1 MFD A123456789B123456789C123456789D123456789 [1,4]",
        ),
        ("1 MKDIR R1 MFD A [1,4]", "1 MKDIR R1 MFD A.DIR [1,4]"),
        ("1 EXTEND R1 1", "1 EXTEND R1 0"),
        ("1 TRUNC R1 0", "1 TRUNC R1 00"),
        ("1 DELETE MFD A.B;0", "1 DELETE MFD A.B;"),
        ("1 RENAME MFD A.B;1 C.D;2", "1 RENAME MFD A.B;1 C.D"),
        ("1 OPEN 8 MFD EX", "1 OPEN 8 MFD NL"),
        ("1 CLOSE 1", "1 CLOSE 9"),
        ("1 READ 1 0", "1 READ 1 65537"),
        (
            "1 WRITE 1 1 ABCDEFGHIJ123456",
            "1 WRITE 1 1 ABCDEFGHIJ1234567",
        ),
        ("1 WRITE 1 1 0", "1 WRITE 1 1 a"),
        (
            "1 QUOTASET [1,4] 4294967295 0",
            "1 QUOTASET [1,4] 4294967296 0",
        ),
        (
            "1 QUOTASET [1,4] 0 4294967295",
            "1 QUOTASET [1,4] 0 99999999999999999999",
        ),
        ("KILL 1 TURN 1000000", "KILL 1 TURN 1000001"),
        ("KILL 2 WRITE 1", "KILL 2 WRITE 0"),
        ("SCHED 1*1 2*65536", "SCHED 1*0"),
        ("SCHED 1 2", "SCHED 1*65537"),
    ];
    for (good, bad) in rows {
        assert!(rt; is_good(rt.alloc(), good)?, "{good}");
        assert!(rt; !is_good(rt.alloc(), bad)?, "{bad}");
    }
    Ok(())
}

#[test]
fn reads_what_lines_say(rt: HostRuntime) -> Result<(), Fail> {
    let text =
        b"# two nodes\n\nNODES 2\n1 CREATE R3 LOST A.DAT;7 12 [1,10]\nKILL 2 TURN 9\nSCHED 1*3 2\n2 OPEN 4 (13,2,0) PW\nSCHED 1";
    let script = read_script(rt.alloc(), text)?;
    assert_eq!(rt; script.nodes, 2);
    assert_eq!(rt; script.plays.items(), [1, 1, 1, 2, 1].as_slice());
    let kill = Kill {
        node: 2,
        at: KillAt::Turn(9),
    };
    assert_eq!(rt; script.kills.items(), [kill].as_slice());
    let [first, second] = script.lines.items() else {
        assert!(rt; false, "two commands");
        return Ok(());
    };
    assert_eq!(rt; (first.node, second.node), (1, 2));
    let lost = FileRef::Fixed(Fid { num: 11, seq: 1 });
    assert!(rt;
        matches!(&first.cmd, LineCmd::Create { reg: 3, dir, name, ver: 7, blocks: 12, owner: Uic(65_544) }
        if *dir == lost && name.items() == b"A.DAT".as_slice()),
        "the first command creates A.DAT;7 in LOST"
    );
    let file = FileRef::Fixed(Fid { num: 13, seq: 2 });
    assert!(rt;
        matches!(&second.cmd, LineCmd::OpenFile { chan: 4, file: named, mode: Mode::PW } if *named == file),
        "the second command opens file 13 on channel 4 in PW"
    );
    Ok(())
}

// A script of so many look-ups, and a line behind them.
fn long_script(alloc: Global, count: usize, last: &[u8]) -> Result<Vec<u8>, NoMemory> {
    let mut text = Vec::from_slice(alloc, b"NODES 1\n")?;
    for _ in 0..count {
        text.extend_from_slice(b"1 LOOKUP R1 MFD A.B;1\n")?;
    }
    text.extend_from_slice(last)?;
    Ok(text)
}

#[test]
fn stops_where_there_is_no_room(rt: HostRuntime) -> Result<(), Fail> {
    let alloc = rt.alloc();
    let most = long_script(alloc, 4096, b"")?;
    assert!(rt;
        fault(alloc, most.as_slice()).is_none(),
        "4096 commands have room"
    );
    let more = long_script(alloc, 4097, b"bad")?;
    assert_eq!(rt; fault(alloc, more.as_slice()), Some(ScriptFault::TooMany));
    let bad = long_script(alloc, 4096, b"bad\n1 LIST MFD")?;
    assert_eq!(rt;
        fault(alloc, bad.as_slice()),
        Some(ScriptFault::BadLine(4098))
    );
    assert!(rt;
        fault(alloc, b"NODES 1\nSCHED 1*65536").is_none(),
        "65536 plays have room"
    );
    assert!(rt;
        fault(alloc, b"NODES 1\nSCHED 1*65536\nSCHED 1\nbad") == Some(ScriptFault::TooMany),
        "one play more has no room, and is told before a bad line behind it"
    );
    assert_eq!(rt;
        fault(alloc, b"NODES 1\nSCHED 1*65536 1 bad"),
        Some(ScriptFault::BadLine(2))
    );
    Ok(())
}
