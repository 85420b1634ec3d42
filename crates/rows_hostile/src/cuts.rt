//! Each write of a run fails, landing or not. What is left is mended, also by a mending of which each write fails and that is made again.

use blk_drive::MemImage;
use rows_calls::{
    Stop, Wrong, after, call, each_stops, expect, failing, image_of, is_cut, lines_with, mended,
    text_of, volume,
};
use std::alloc::Global;
use std::test::Fail;

// The mended volume behind a job that was cut short, in which nothing is left to mend; it is so wherever the mending is stopped, if it is.
fn mends(alloc: Global, image: &MemImage, stops: bool) -> Result<MemImage, Wrong> {
    if stops {
        let (end, _) = each_stops(alloc, image)?;
        return Ok(end);
    }
    mended(alloc, image_of(alloc, image.all(), None)?, "rebuilt: ")
}

/// How the line of an answer ends, and a script that looks for what was answered, with the front of its report.
#[derive(Clone, Copy)]
struct Answer {
    end: &'static str,
    look: &'static str,
    seen: &'static str,
}

const FIRST: Answer = Answer {
    end: " = (12,1,0) A.TXT;1",
    look: "NODES 1\n1 LOOKUP R1 MFD A.TXT;1\n",
    seen: "1 N1 LOOKUP R1 (4,4,0) A.TXT;1 = (12,1,0) A.TXT;1\n",
};

const SECOND: Answer = Answer {
    end: " = (21,1,0) B.TXT;1",
    look: "NODES 1\n1 LOOKUP R1 MFD B.TXT;1\n",
    seen: "1 N1 LOOKUP R1 (4,4,0) B.TXT;1 = (21,1,0) B.TXT;1\n",
};

// What was answered is there.
fn has_answers(
    alloc: Global,
    image: &MemImage,
    text: &str,
    answers: &[Answer],
) -> Result<(), Wrong> {
    for answer in answers {
        if lines_with(text, answer.end) > 0 {
            let copy = image_of(alloc, image.all(), None)?;
            after(alloc, copy, &["run"], answer.look, 0, (answer.seen, "\n"))?;
        }
    }
    Ok(())
}

/// The words and the script of a job, what its answers leave, and whether a mending of what it leaves is stopped at each write; the words
/// and the script of the run that has its report; and how many writes it has.
#[derive(Clone, Copy)]
struct Job {
    words: &'static [&'static str],
    script: &'static str,
    answers: &'static [Answer],
    stops: bool,
    whole: (&'static [&'static str], &'static str),
    writes: u64,
}

// Whether a job comes to the write that fails. It is told then, behind lines of the report, and what is left is mended.
fn is_cut_at(
    alloc: Global,
    image: &MemImage,
    job: Job,
    report: &[u8],
    stop: Stop,
) -> Result<bool, Wrong> {
    let cut = call(alloc, job.words, failing(alloc, image, stop)?, job.script)?;
    if cut.code == 0 {
        return Ok(false);
    }
    let is_told = cut.code == 4 && is_cut(cut.out.bytes(), report);
    expect(alloc, is_told, text_of(&cut))?;
    let mended = mends(alloc, &cut.image, job.stops)?;
    has_answers(alloc, &mended, text_of(&cut), job.answers)?;
    Ok(true)
}

// Each write of a job on the fresh volume fails, landing or not: how many there are. The report is that of the whole run.
fn each_cuts(alloc: Global, image: &MemImage, job: Job, report: &[u8]) -> Result<u64, Wrong> {
    for write in 1..200u64 {
        let stop = Stop {
            write,
            lands: false,
        };
        let lost = is_cut_at(alloc, image, job, report, stop)?;
        let landed = is_cut_at(
            alloc,
            image,
            job,
            report,
            Stop {
                lands: true,
                ..stop
            },
        )?;
        expect(alloc, lost == landed, "a write that fails, landing or not")?;
        if !lost {
            return Ok(write.saturating_sub(1));
        }
    }
    Ok(200)
}

// The same, of the report of the whole run.
fn all_cut(alloc: Global, job: Job) -> Result<(), Wrong> {
    let image = volume(alloc)?;
    let (words, script) = job.whole;
    let whole = call(alloc, words, image_of(alloc, image.all(), None)?, script)?;
    expect(alloc, whole.code == 0, script)?;
    let count = each_cuts(alloc, &image, job, whole.out.bytes())?;
    let what = format!(in alloc; "{count} writes of {script}")?;
    expect(alloc, count == job.writes, what.as_str())
}

/// Two nodes make files, and the second one looks for the first one's.
const MAKING: &str = "NODES 2\n\
    1 CREATE R1 MFD A.TXT;0 10 [1,4]\n\
    2 LOOKUP R1 MFD A.TXT;0\n\
    2 CREATE R1 MFD B.TXT;0 4 [1,4]\n";

/// The same, and the first node dies before the write of its entry.
const DYING: &str = "NODES 2\n\
    KILL 1 WRITE 5\n\
    1 CREATE R1 MFD A.TXT;0 10 [1,4]\n\
    2 LOOKUP R1 MFD A.TXT;0\n\
    2 CREATE R1 MFD B.TXT;0 4 [1,4]\n";

/// The script of soak 1.
const SOAK: &str = "NODES 4\n\
    1 DELETE MFD F1.DAT;0\n\
    2 LOOKUP R4 MFD F2.DAT;0\n\
    3 EXTEND R7 16\n\
    4 EXTEND R5 8\n\
    1 CREATE R8 MFD F1.DAT;0 30 [1,4]\n\
    2 DELETE MFD F15.DAT;0\n\
    3 LIST MFD\n\
    4 CREATE R1 MFD F12.DAT;0 25 [1,4]\n\
    1 CREATE R7 MFD F3.DAT;0 59 [1,4]\n\
    2 CREATE R6 MFD F1.DAT;0 24 [1,4]\n\
    3 EXTEND R5 16\n\
    4 LIST MFD\n\
    1 CREATE R3 MFD F9.DAT;0 24 [1,4]\n\
    2 EXTEND R4 7\n\
    3 DELETE MFD F9.DAT;0\n\
    4 LIST MFD\n";

/// A file gets a second and a third header, loses the third, and goes.
const HEADERS: &str = "NODES 1\n\
    1 CREATE R1 MFD A.TXT;0 308 [1,4]\n\
    1 EXTEND R1 308\n\
    1 EXTEND R1 4\n\
    1 TRUNC R1 312\n\
    1 DELETE MFD A.TXT;0\n";

const RUN: &[&str] = &["run"];

const MENDING: &[&str] = &["run", "--rebuild"];

const ANSWERS: &[Answer] = &[FIRST, SECOND];

const RUNS: &[Job] = &[
    Job {
        words: RUN,
        script: MAKING,
        answers: ANSWERS,
        stops: true,
        whole: (RUN, MAKING),
        writes: 14,
    },
    Job {
        words: &["soak", "1"],
        script: "",
        answers: &[],
        stops: false,
        whole: (RUN, SOAK),
        writes: 28,
    },
    Job {
        words: RUN,
        script: HEADERS,
        answers: &[],
        stops: false,
        whole: (RUN, HEADERS),
        writes: 28,
    },
];

#[test]
fn each_write_of_a_run(rt: HostRuntime) -> Result<(), Fail> {
    for job in RUNS {
        all_cut(rt.alloc(), *job)?;
    }
    Ok(())
}

/// Writes of the run, and of the mending behind it.
const MENDED_RUNS: &[Job] = &[
    Job {
        words: MENDING,
        script: MAKING,
        answers: ANSWERS,
        stops: true,
        whole: (MENDING, MAKING),
        writes: 14,
    },
    Job {
        words: MENDING,
        script: DYING,
        answers: ANSWERS,
        stops: true,
        whole: (MENDING, DYING),
        writes: 14,
    },
];

#[test]
fn each_write_of_a_run_that_is_mended(rt: HostRuntime) -> Result<(), Fail> {
    for job in MENDED_RUNS {
        all_cut(rt.alloc(), *job)?;
    }
    Ok(())
}
