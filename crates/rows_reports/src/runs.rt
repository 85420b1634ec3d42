//! Reports of runs that are made here, between the fresh volume and an image.

use blk_drive::MemImage;
use fx_text::{MemIn, MemOut};
use log_check::check_log;
use plain_cat::NoMemory;
use rows_calls::{Exchange, Lines, Written, Wrong, answered, expect, volume};
use std::alloc::Global;
use std::test::Fail;

/// A script and the report of its run.
#[derive(Clone, Copy)]
struct Run {
    script: &'static str,
    report: &'static str,
}

// The image that a run leaves of the fresh volume. Its report has to be this one. With no run it is the fresh volume.
fn image_after(alloc: Global, run: Option<Run>) -> Result<MemImage, Wrong> {
    let image = volume(alloc)?;
    match run {
        Some(run) => answered(alloc, image, Exchange::run(run.script, 0, run.report)),
        None => Ok(image),
    }
}

// With which status and text the judge ends, of a report between the fresh volume and an image, as one text.
fn verdict(alloc: Global, after: MemImage, report: &str) -> Result<String, NoMemory> {
    let mut log = MemIn::new(Vec::from_slice(alloc, report.as_bytes())?, Vec::new(alloc));
    let mut out = MemOut::new(alloc, 1_000_000, Vec::new(alloc))?;
    let checking = check_log(alloc, &[], volume(alloc)?, after, &mut log, &mut out);
    let code = checking.status.code();
    let text = str::from_utf8(out.bytes()).unwrap_or("no text");
    format!(in alloc; "{code}: {text}")
}

const USE: Run = Run {
    script: "NODES 1\n\
        1 MKDIR R1 MFD USERS [1,4]\n\
        1 CREATE R2 R1 LOGIN.COM;0 3 [1,4]\n\
        1 CREATE R3 R1 LOGIN.COM;0 3 [1,4]\n\
        1 LIST R1\n\
        1 DELETE MFD USERS.DIR;1\n\
        1 DELETE R1 LOGIN.COM;1\n\
        1 LIST R1\n",
    report: "1 N1 MKDIR R1 (4,4,0) USERS [1,4] = (12,1,0) USERS.DIR;1\n\
        2 N1 CREATE R2 (12,1,0) LOGIN.COM;0 3 [1,4] = (13,1,0) LOGIN.COM;1\n\
        3 N1 CREATE R3 (12,1,0) LOGIN.COM;0 3 [1,4] = (14,1,0) LOGIN.COM;2\n\
        4 N1 LIST (12,1,0) = 2 entries LOGIN.COM;2 (14,1,0) LOGIN.COM;1 (13,1,0)\n\
        5 N1 DELETE (4,4,0) USERS.DIR;1 = refused DirNotEmpty\n\
        6 N1 DELETE (12,1,0) LOGIN.COM;1 = deleted\n\
        7 N1 LIST (12,1,0) = 1 entries LOGIN.COM;2 (14,1,0)\n\
        end: 7 answered, 0 died, 229 free\n",
};

/// The same with another version in the reply of line 3.
const USED_OTHERWISE: &str = "1 N1 MKDIR R1 (4,4,0) USERS [1,4] = (12,1,0) USERS.DIR;1\n\
    2 N1 CREATE R2 (12,1,0) LOGIN.COM;0 3 [1,4] = (13,1,0) LOGIN.COM;1\n\
    3 N1 CREATE R3 (12,1,0) LOGIN.COM;0 3 [1,4] = (14,1,0) LOGIN.COM;3\n\
    4 N1 LIST (12,1,0) = 2 entries LOGIN.COM;2 (14,1,0) LOGIN.COM;1 (13,1,0)\n\
    5 N1 DELETE (4,4,0) USERS.DIR;1 = refused DirNotEmpty\n\
    6 N1 DELETE (12,1,0) LOGIN.COM;1 = deleted\n\
    7 N1 LIST (12,1,0) = 1 entries LOGIN.COM;2 (14,1,0)\n\
    end: 7 answered, 0 died, 229 free\n";

const ONE: Run = Run {
    script: "NODES 1\n\
        1 CREATE R1 MFD C.DAT;0 12 [1,4]\n\
        1 OPEN 1 R1 PW\n\
        1 WRITE 1 5 ONE\n",
    report: "1 N1 CREATE R1 (4,4,0) C.DAT;0 12 [1,4] = (12,1,0) C.DAT;1\n\
        2 N1 OPEN 1 (12,1,0) PW = open\n\
        3 N1 WRITE 1 5 ONE = written\n\
        4 N1 CLOSE 1 = closed\n\
        end: 4 answered, 0 died, 228 free\n",
};

const TWO: Run = Run {
    script: "NODES 1\n\
        1 CREATE R1 MFD C.DAT;0 12 [1,4]\n\
        1 OPEN 1 R1 PW\n\
        1 WRITE 1 5 TWO\n",
    report: "1 N1 CREATE R1 (4,4,0) C.DAT;0 12 [1,4] = (12,1,0) C.DAT;1\n\
        2 N1 OPEN 1 (12,1,0) PW = open\n\
        3 N1 WRITE 1 5 TWO = written\n\
        4 N1 CLOSE 1 = closed\n\
        end: 4 answered, 0 died, 228 free\n",
};

/// Node 1 is dead before the directory write of its CREATE, and has sixteen clusters and eight numbers in its stock.
const DEATH: Run = Run {
    script: "NODES 2\n\
        KILL 1 WRITE 5\n\
        1 CREATE R1 MFD A.TXT;0 10 [1,4]\n\
        2 LOOKUP R1 MFD A.TXT;0\n\
        2 CREATE R1 MFD B.TXT;0 4 [1,4]\n",
    report: "1 N1 died at lost, leaked 16 clusters, 8 numbers\n\
        2 N2 LOOKUP R1 (4,4,0) A.TXT;0 = refused NoSuchFile\n\
        3 N2 CREATE R1 (4,4,0) B.TXT;0 4 [1,4] = (21,1,0) B.TXT;1\n\
        end: 2 answered, 1 died, 211 free\n",
};

/// Node 1 is dead before its second turn, while it makes a file, and leaves nothing.
const EARLY_DEATH: Run = Run {
    script: "NODES 2\n\
        KILL 1 TURN 2\n\
        1 CREATE R1 MFD A.TXT;0 10 [1,4]\n\
        2 CREATE R1 MFD B.TXT;0 4 [1,4]\n",
    report: "1 N1 died at nothing, leaked 0 clusters, 0 numbers\n\
        2 N2 CREATE R1 (4,4,0) B.TXT;0 4 [1,4] = (12,1,0) B.TXT;1\n\
        end: 1 answered, 1 died, 230 free\n",
};

/// The lines of as many look-ups as a script may have.
const LONGEST: Lines<'static> = Lines {
    from: 1,
    to: 4096,
    more: 0,
    script: "",
    report: "%k N1 LOOKUP R1 (4,4,0) A.B;0 = refused NoSuchFile\n",
};

// A report has to have this verdict.
fn check_verdict(alloc: Global, run: Option<Run>, report: &str, wanted: &str) -> Result<(), Wrong> {
    let found = verdict(alloc, image_after(alloc, run)?, report)?;
    let what = format!(in alloc; "{found}, wanted {wanted}, of {report}")?;
    expect(alloc, found.as_str() == wanted, what.as_str())
}

// The report of the look-ups is legal.
fn check_longest(alloc: Global) -> Result<(), Wrong> {
    let lines = Written::new(alloc, "", &[LONGEST])?;
    let mut report = String::from_str(alloc, lines.report())?;
    report.push_str("end: 4096 answered, 0 died, 231 free\n")?;
    check_verdict(alloc, None, report.as_str(), "0: legal, 4096 entries\n")
}

// A run, a report that is judged against the image that the run leaves, and the verdict.
#[test]
fn reports_are_judged(rt: HostRuntime) -> Result<(), Fail> {
    let cases = [
        (Some(USE), USE.report, "0: legal, 7 entries\n"),
        (Some(USE), USED_OTHERWISE, "5: illegal at line 3\n"),
        (None, USE.report, "5: end differs\n"),
        (Some(ONE), ONE.report, "0: legal, 4 entries\n"),
        (Some(TWO), ONE.report, "5: end differs\n"),
        (Some(DEATH), DEATH.report, "5: unchecked at line 1\n"),
        (
            Some(EARLY_DEATH),
            EARLY_DEATH.report,
            "0: legal, 2 entries\n",
        ),
    ];
    for (run, report, wanted) in cases {
        check_verdict(rt.alloc(), run, report, wanted)?;
    }
    check_longest(rt.alloc())?;
    Ok(())
}
