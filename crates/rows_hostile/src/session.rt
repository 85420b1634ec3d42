//! The session that `./demo` shows: a node dies at a write, `analyze` finds what it left, and `rebuild` mends it. The texts are those of
//! docs/DEMO.md.

use crate::edge_calls::{call, check, path_of};
use edge_files::Access;
use std::fs;
use std::test::Fail;

const DEATH: &str = "NODES 2\n\
    KILL 2 WRITE 5\n\
    1 MKDIR R1 MFD NOTES [1,4]\n\
    2 CREATE R2 MFD TASK.TXT;0 10 [1,4]\n\
    1 LOOKUP R3 MFD TASK.TXT;0\n";

const LOST: &str = "NODES 1\n\
    1 LIST LOST\n\
    1 LOOKUP R1 LOST F00021.LST;0\n\
    1 STAT R1\n\
    1 RENAME LOST F00021.LST;1 TASK.TXT;1\n";

// The words, the script, the number, and the text of each call.
const CALLS: [(&str, &str, u8, &str); 7] = [
    (
        "init 4 64 KVOL",
        "",
        0,
        "volume KVOL: 1024 blocks, 231 free clusters, 53 free numbers\n",
    ),
    (
        "run",
        DEATH,
        0,
        "1 N1 MKDIR R1 (4,4,0) NOTES [1,4] = (12,1,0) NOTES.DIR;1\n\
        2 N2 died at lost, leaked 16 clusters, 8 numbers\n\
        3 N1 LOOKUP R3 (4,4,0) TASK.TXT;0 = refused NoSuchFile\n\
        end: 2 answered, 1 died, 211 free\n",
    ),
    (
        "analyze",
        "",
        5,
        "lost 21\n\
        leaked clusters 16\n\
        leaked numbers 8\n",
    ),
    ("run", LOST, 5, "not accepted: lost 21\n"),
    (
        "rebuild",
        "",
        0,
        "rebuilt: 1 entered, 0 entries removed, 0 files gone, 16 clusters, 8 numbers\n",
    ),
    ("analyze", "", 0, "accepted\n"),
    (
        "run",
        LOST,
        0,
        "1 N1 LIST (11,1,0) = 1 entries F00021.LST;1 (21,1,0)\n\
        2 N1 LOOKUP R1 (11,1,0) F00021.LST;0 = (21,1,0) F00021.LST;1\n\
        3 N1 STAT (21,1,0) = file [1,4] 12 blocks mark 1 end 1,0\n\
        4 N1 RENAME (11,1,0) F00021.LST;1 TASK.TXT;1 = TASK.TXT;1\n\
        end: 4 answered, 0 died, 227 free\n",
    ),
];

#[test]
fn a_death_is_found_and_mended(rt: HostRuntime) -> Result<(), Fail> {
    let path = path_of(&rt, "session")?;
    let path = path.as_str();
    let zeros: Vec<u8> = vec![in rt.alloc(); 0; 524_288]?;
    fs::write(&rt, path, zeros.as_slice())?;
    for (words, script, number, text) in CALLS {
        let access = if words == "analyze" {
            Access::Look
        } else {
            Access::Change
        };
        let called = call(&rt, path, access, words, script)?;
        check(&rt, &called, number, text, words);
    }
    fs::remove_file(&rt, path)?;
    Ok(())
}
