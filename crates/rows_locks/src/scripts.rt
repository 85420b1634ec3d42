//! Lists of events and what they answer, as the program reads and prints them.

use dlm_run::{DlmStatus, dlm_run};
use fx_text::{MemIn, MemOut};
use std::alloc::{AllocError, Global};
use std::process::Abort;
use std::test::Fail;

/// Events on so many nodes, and what each of them answers.
#[derive(Clone, Copy)]
struct Row {
    name: &'static str,
    nodes: u8,
    events: &'static [(&'static str, &'static str)],
}

const ROWS: [Row; 11] = [
    Row {
        name: "a lock goes from a node to another",
        nodes: 2,
        events: &[
            ("ASK 1 0 S5 PW 0", "done"),
            ("PASS 1 2", "done"),
            ("PASS 2 1", "granted 1 0 S5 PW 0 valid"),
            ("ASK 2 0 S5 PR 0", "done"),
            ("PASS 2 2", "done"),
            ("DROP 1 0 S5 7", "done"),
            ("PASS 1 2", "done"),
            ("PASS 2 2", "granted 2 0 S5 PR 7 valid"),
        ],
    },
    Row {
        name: "what may not be asked is refused",
        nodes: 1,
        events: &[
            ("DROP 1 0 S5 0", "not held"),
            ("ASK 1 0 S5 CW 0", "done"),
            ("ASK 1 0 S5 CW 0", "busy"),
            ("PASS 1 1", "done"),
            ("PASS 1 1", "granted 1 0 S5 CW 0 valid"),
            ("ASK 1 0 S5 PR 0", "bad convert"),
            ("PASS 1 1", "nothing"),
            ("KILL 1", "done"),
            ("ASK 1 0 S5 CW 0", "dead"),
            ("PASS 1 1", "dead"),
        ],
    },
    Row {
        name: "a lock outlives its master",
        nodes: 3,
        events: &[
            ("ASK 1 0 S5 PW 0", "done"),
            ("PASS 1 3", "done"),
            ("PASS 3 1", "granted 1 0 S5 PW 0 valid"),
            ("KILL 3", "done"),
            ("PASS 1 1", "done"),
            ("PASS 2 1", "done"),
            ("ASK 2 0 S5 CR 0", "done"),
            ("PASS 2 1", "done"),
            ("PASS 1 2", "granted 2 0 S5 CR 0 invalid"),
            ("PASS 1 2", "nothing"),
            ("PASS 3 1", "dead"),
        ],
    },
    // Node 1 believes CR and asks for CR again, and node 2 believes CR and waits for EX. The recovery grants the level
    // conversion at once.
    Row {
        name: "a level conversion is granted at once at a recovery",
        nodes: 3,
        events: &[
            ("ASK 1 0 S5 CR 0", "done"),
            ("ASK 2 0 S5 CR 0", "done"),
            ("PASS 1 3", "done"),
            ("PASS 2 3", "done"),
            ("PASS 3 1", "granted 1 0 S5 CR 0 valid"),
            ("PASS 3 2", "granted 2 0 S5 CR 0 valid"),
            ("ASK 1 0 S5 EX 0", "done"),
            ("ASK 2 0 S5 CR 0", "done"),
            ("KILL 3", "done"),
            ("PASS 1 1", "done"),
            ("PASS 2 1", "done"),
            ("PASS 1 1", "nothing"),
            ("PASS 1 2", "granted 2 0 S5 CR 0 invalid"),
            ("DROP 2 0 S5 0", "done"),
            ("PASS 2 1", "done"),
            ("PASS 1 1", "granted 1 0 S5 EX 0 invalid"),
        ],
    },
    // Node 1, which recovers the name of node 3, dies before the last claim has come.
    Row {
        name: "a master dies while it recovers",
        nodes: 3,
        events: &[
            ("ASK 2 0 S5 PW 0", "done"),
            ("PASS 2 3", "done"),
            ("PASS 3 2", "granted 2 0 S5 PW 0 valid"),
            ("KILL 3", "done"),
            ("PASS 1 1", "done"),
            ("KILL 1", "done"),
            ("PASS 2 2", "done"),
            ("ASK 2 0 S5 EX 0", "done"),
            ("PASS 2 2", "done"),
            ("PASS 2 2", "granted 2 0 S5 EX 0 invalid"),
        ],
    },
    // Node 2 is the last one awaited by two recoveries, and its death ends both.
    Row {
        name: "one death ends two recoveries",
        nodes: 4,
        events: &[
            ("ASK 1 0 S5 PR 0", "done"),
            ("PASS 1 2", "done"),
            ("KILL 4", "done"),
            ("KILL 3", "done"),
            ("PASS 1 1", "done"),
            ("PASS 1 1", "done"),
            ("PASS 1 1", "nothing"),
            ("KILL 2", "done"),
            ("PASS 1 1", "done"),
            ("PASS 1 1", "granted 1 0 S5 PR 0 invalid"),
            ("PASS 1 1", "nothing"),
        ],
    },
    // The drop of node 1 arrives while the name is being recovered, and is taken behind the claims.
    Row {
        name: "a drop is kept back",
        nodes: 3,
        events: &[
            ("ASK 1 0 S5 PW 0", "done"),
            ("PASS 1 3", "done"),
            ("PASS 3 1", "granted 1 0 S5 PW 0 valid"),
            ("ASK 2 0 S5 PR 0", "done"),
            ("KILL 3", "done"),
            ("DROP 1 0 S5 9", "done"),
            ("PASS 1 1", "done"),
            ("PASS 1 1", "done"),
            ("PASS 1 2", "nothing"),
            ("PASS 2 1", "done"),
            ("PASS 1 2", "granted 2 0 S5 PR 9 valid"),
        ],
    },
    // The grant of node 3 is lost with it, and the claim asks again.
    Row {
        name: "a grant on its way is asked for again",
        nodes: 3,
        events: &[
            ("ASK 1 0 S5 PR 0", "done"),
            ("PASS 1 3", "done"),
            ("KILL 3", "done"),
            ("PASS 2 1", "done"),
            ("PASS 1 1", "done"),
            ("PASS 1 1", "granted 1 0 S5 PR 0 invalid"),
        ],
    },
    // Node 1 writes the value block and lowers its lock, and the master dies before it hears of it.
    Row {
        name: "a block that was written is claimed",
        nodes: 3,
        events: &[
            ("ASK 1 0 S5 PW 0", "done"),
            ("PASS 1 3", "done"),
            ("PASS 3 1", "granted 1 0 S5 PW 0 valid"),
            ("ASK 1 0 S5 CR 8", "done"),
            ("KILL 3", "done"),
            ("PASS 2 1", "done"),
            ("PASS 1 1", "done"),
            ("ASK 2 0 S5 PR 0", "done"),
            ("PASS 2 1", "done"),
            ("PASS 1 2", "granted 2 0 S5 PR 8 invalid"),
        ],
    },
    Row {
        name: "a dead owner holds nothing up",
        nodes: 3,
        events: &[
            ("ASK 2 0 S5 EX 0", "done"),
            ("PASS 2 3", "done"),
            ("PASS 3 2", "granted 2 0 S5 EX 0 valid"),
            ("ASK 1 0 S5 PR 0", "done"),
            ("PASS 1 3", "done"),
            ("PASS 3 1", "nothing"),
            ("KILL 2", "done"),
            ("PASS 3 1", "granted 1 0 S5 PR 0 invalid"),
        ],
    },
    Row {
        name: "the other answers have texts",
        nodes: 1,
        events: &[
            ("DROP 1 0 V 0", "not held"),
            ("ASK 1 0 V PR 0", "done"),
            ("ASK 1 0 V EX 0", "busy"),
            ("PASS 1 1", "done"),
            ("PASS 1 1", "granted 1 0 V PR 0 valid"),
            ("ASK 1 0 V CW 0", "bad convert"),
            ("KILL 1", "done"),
            ("KILL 1", "dead"),
        ],
    },
];

// The script of these events.
fn script_of(alloc: Global, row: &Row) -> Result<String, AllocError> {
    let mut script = format!(in alloc; "NODES {}\n", row.nodes)?;
    for (event, _) in row.events {
        script.push_str(event)?;
        script.push_str("\n")?;
    }
    Ok(script)
}

// What is printed where each event has its answer.
fn lines_of(alloc: Global, row: &Row) -> Result<String, AllocError> {
    let mut lines = String::new(alloc);
    for (k, (_, answer)) in row.events.iter().enumerate() {
        let line = format!(in alloc; "{} {answer}\n", k.wrapping_add(1))?;
        lines.push_str(line.as_str())?;
    }
    Ok(lines)
}

// The script is played, ends with this status, and prints this.
fn gives(
    rt: &impl Abort,
    alloc: Global,
    name: &str,
    script: &str,
    status: DlmStatus,
    text: &str,
) -> Result<(), Fail> {
    let bytes = Vec::from_slice(alloc, script.as_bytes())?;
    let mut source = MemIn::new(bytes, Vec::new(alloc));
    let mut sink = MemOut::new(alloc, 4096, Vec::new(alloc))?;
    assert_eq!(rt; dlm_run(alloc, &mut source, &mut sink), status, "{name}");
    assert_eq!(rt; str::from_utf8(sink.bytes()).ok(), Some(text), "{name}");
    Ok(())
}

#[test]
fn events_have_their_answers(rt: HostRuntime) -> Result<(), Fail> {
    for row in &ROWS {
        let script = script_of(rt.alloc(), row)?;
        let text = lines_of(rt.alloc(), row)?;
        gives(
            &rt,
            rt.alloc(),
            row.name,
            script.as_str(),
            DlmStatus::Ok,
            text.as_str(),
        )?;
    }
    Ok(())
}

/// Scripts that are not played, and their first bad lines.
const BAD: [(&str, u32); 7] = [
    ("", 1),
    ("# none\n", 2),
    ("NODES 9\n", 1),
    ("NODES 2\n\nKILL 3\n", 3),
    ("NODES 2\nASK 1 0 S0 PW 0\n", 2),
    ("NODES 2\nASK 1 9 S1 PW 0\n", 2),
    ("NODES 2\nDROP 1 0 Q 256", 2),
];

#[test]
fn the_first_bad_line_is_told(rt: HostRuntime) -> Result<(), Fail> {
    for (script, n) in &BAD {
        let text = format!(in rt.alloc(); "bad line {n}\n")?;
        gives(
            &rt,
            rt.alloc(),
            script,
            script,
            DlmStatus::BadScript(*n),
            text.as_str(),
        )?;
    }
    Ok(())
}
