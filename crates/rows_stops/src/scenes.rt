//! Node 1 dies in place of each of its turns and each of its writes, while two other nodes are at work.

use blk_drive::MemImage;
use plain_cat::NoMemory;
use rows_calls::{
    Called, Exchange, Row, Wrong, call, check_about, check_answer, each_stops, expect, image_of,
    text_of,
};
use std::alloc::Global;

/// What deaths of node 1 at a stage leave: the stage, how many answers it had, the clusters that were free if none were leaked, the reply
/// to the last line of node 3, and what is found before and after what is leaked.
pub type At = (
    &'static str,
    u32,
    u32,
    &'static str,
    (&'static str, &'static str),
);

/// Nothing is found.
pub const CLEAN: (&str, &str) = ("", "");

/// There is no such file.
pub const GONE: &str = "refused NoSuchFile";

/// The line of node 2, and how the report begins and ends the line of its answer.
#[derive(Clone, Copy)]
pub struct Other {
    pub line: &'static str,
    pub start: &'static str,
    pub end: &'static str,
}

/// It makes a file in directory 13.
pub const MAKES: Other = Other {
    line: "2 CREATE R1 (13,1,0) C.TXT;0 4 [1,4]\n",
    start: " N2 CREATE R1 (13,1,0) C.TXT;0 4 [1,4] = (",
    end: ",0) C.TXT;1",
};

/// It adds four blocks to file 12.
pub const GROWS: Other = Other {
    line: "2 EXTEND (12,1,0) 4\n",
    start: " N2 EXTEND (12,1,0) 4 = ",
    end: " blocks",
};

/// The lines of node 1; what node 2 does; the lines of node 3, of which the last, `look`, stands in the report as in the script; how many
/// answers these two nodes have; how many blocks node 1 writes if it does not die, its stock with them; and what its deaths leave.
#[derive(Clone, Copy)]
pub struct Scene {
    pub lines: &'static str,
    pub other: Other,
    pub opens: &'static str,
    pub look: &'static str,
    pub answers: u32,
    pub writes: u32,
    pub rows: &'static [At],
}

/// The death of node 1 that a report tells of, and how many commands were answered.
#[derive(Clone, Copy)]
struct Told<'a> {
    stage: &'a str,
    clusters: u32,
    numbers: u32,
    answered: u32,
}

fn death_in(report: &str) -> Option<Told<'_>> {
    let (_, rest) = report.split_once(" N1 died at ")?;
    let (stage, rest) = rest.split_once(", leaked ")?;
    let (clusters, rest) = rest.split_once(" clusters, ")?;
    let (numbers, rest) = rest.split_once(" numbers\n")?;
    let (_, rest) = rest.split_once("end: ")?;
    let (answered, _) = rest.split_once(" answered, 1 died, ")?;
    Some(Told {
        stage,
        clusters: clusters.parse().ok()?,
        numbers: numbers.parse().ok()?,
        answered: answered.parse().ok()?,
    })
}

// What stands behind these words in their line.
fn behind<'a>(report: &'a str, words: &str) -> Option<&'a str> {
    let (_, rest) = report.split_once(words)?;
    let (line, _) = rest.split_once("\n")?;
    Some(line)
}

// What is found where a row is met, and between it what is leaked.
fn found_text(alloc: Global, row: At, clusters: u32, numbers: u32) -> Result<String, NoMemory> {
    let (front, end) = row.4;
    let mut text = String::from_str(alloc, front)?;
    if clusters != 0 {
        text.push_str(format!(in alloc; "leaked clusters {clusters}\n")?.as_str())?;
    }
    if numbers != 0 {
        text.push_str(format!(in alloc; "leaked numbers {numbers}\n")?.as_str())?;
    }
    text.push_str(end)?;
    if text.is_empty() {
        text.push_str("accepted\n")?;
    }
    Ok(text)
}

// Whether this is found where a row is met.
fn is_found(alloc: Global, row: At, died: Told<'_>, found: &str) -> Result<bool, NoMemory> {
    let text = found_text(alloc, row, died.clusters, died.numbers)?;
    Ok(text.as_str() == found)
}

// The first row from this place on with the stage and the answers of a death, and with what is found behind it.
fn row_of(
    alloc: Global,
    scene: Scene,
    from: usize,
    died: Told<'_>,
    found: &str,
) -> Result<Option<usize>, NoMemory> {
    for (place, row) in scene.rows.iter().enumerate() {
        let answered = row.1.saturating_add(scene.answers);
        let is_such = row.0 == died.stage && answered == died.answered;
        if place >= from && is_such && is_found(alloc, *row, died, found)? {
            return Ok(Some(place));
        }
    }
    Ok(None)
}

/// The row of a run, whose place is that of the last one where no death came; and what was leaked.
#[derive(Clone, Copy)]
struct Met {
    row: At,
    place: Option<usize>,
    clusters: u32,
    numbers: u32,
}

// The row at a place, which a death meets.
fn met_at(scene: Scene, place: Option<usize>, died: Told<'_>) -> Option<Met> {
    Some(Met {
        row: *scene.rows.get(place?)?,
        place,
        clusters: died.clusters,
        numbers: died.numbers,
    })
}

// The last row, where no death came.
fn met_last(scene: Scene) -> Option<Met> {
    Some(Met {
        row: *scene.rows.last()?,
        place: None,
        clusters: 0,
        numbers: 0,
    })
}

// The row of a report, from this place on, by what is found behind the run.
fn row_for(
    alloc: Global,
    scene: Scene,
    (report, found): (&str, &str),
    from: usize,
) -> Result<Option<Met>, NoMemory> {
    match death_in(report) {
        Some(died) => {
            let place = row_of(alloc, scene, from, died, found)?;
            Ok(met_at(scene, place, died))
        }
        None => Ok(met_last(scene)),
    }
}

// Nodes 2 and 3 have to be answered as the row says.
fn check_others(alloc: Global, scene: Scene, row: At, report: &str) -> Result<(), Wrong> {
    let look = scene.look;
    let words = format!(in alloc; " N3 {look} = ")?;
    let reply = behind(report, words.as_str()).unwrap_or("no reply");
    expect(alloc, reply == row.3, report)?;
    let line = behind(report, scene.other.start).unwrap_or("no reply");
    expect(alloc, line.ends_with(scene.other.end), report)
}

// The last line of a report with what was leaked.
fn check_end(alloc: Global, scene: Scene, met: Met, called: &Called) -> Result<(), Wrong> {
    let answers = met.row.1.saturating_add(scene.answers);
    let free = met.row.2.saturating_sub(met.clusters);
    let died = if met.place.is_some() { 1 } else { 0 };
    let end = format!(in alloc; "\nend: {answers} answered, {died} died, {free} free\n")?;
    check_about(alloc, called, 0, ("", end.as_str()), scene.lines)
}

// The run of a scene with this line for the death.
fn ran(alloc: Global, image: &MemImage, scene: Scene, kill: &str) -> Result<Called, NoMemory> {
    let Scene {
        lines,
        opens,
        look,
        ..
    } = scene;
    let other = scene.other.line;
    let script = format!(in alloc; "NODES 3\n{kill}{lines}{other}{opens}3 {look}\n")?;
    call(
        alloc,
        &["run"],
        image_of(alloc, image.all(), None)?,
        script.as_str(),
    )
}

// What is found on a volume.
fn analyzed(alloc: Global, image: &MemImage) -> Result<Called, NoMemory> {
    call(alloc, &["analyze"], image_of(alloc, image.all(), None)?, "")
}

// The row of a run, from this place on, which it has to meet, and what is found behind it.
fn check_met(
    alloc: Global,
    scene: Scene,
    called: &Called,
    found: &Called,
    from: usize,
) -> Result<Met, Wrong> {
    let texts = (text_of(called), text_of(found));
    let Some(met) = row_for(alloc, scene, texts, from)? else {
        let (report, told) = texts;
        expect(alloc, false, format!(in alloc; "{report}{told}")?.as_str())?;
        return Err(Wrong::NoMemory);
    };
    check_others(alloc, scene, met.row, texts.0)?;
    check_end(alloc, scene, met, called)?;
    let text = found_text(alloc, met.row, met.clusters, met.numbers)?;
    check_answer(alloc, found, Exchange::finds(text.as_str()))?;
    Ok(met)
}

// The place of the row of one death, from this place on; none if it does not come, and the run is that of the last row. What a death in
// place of a write leaves is mended, also where each write of the mending fails.
fn dies(
    alloc: Global,
    image: &MemImage,
    scene: Scene,
    (by, k): (&str, u32),
    from: usize,
) -> Result<Option<usize>, Wrong> {
    let kill = format!(in alloc; "KILL 1 {by} {k}\n")?;
    let called = ran(alloc, image, scene, kill.as_str())?;
    let found = analyzed(alloc, &called.image)?;
    let met = check_met(alloc, scene, &called, &found, from)?;
    if by == "WRITE" && met.place.is_some() {
        each_stops(alloc, &called.image)?;
    }
    Ok(met.place)
}

// The deaths in place of turns or writes, each at most so many rows after the one before: how many come, and the place of the last row.
fn each_dies(
    alloc: Global,
    image: &MemImage,
    scene: Scene,
    (by, step): (&str, usize),
) -> Result<(u32, usize), Wrong> {
    let mut place = 0;
    for k in 1..100u32 {
        let Some(next) = dies(alloc, image, scene, (by, k), place)? else {
            return Ok((k.saturating_sub(1), place));
        };
        expect(alloc, next <= place.saturating_add(step), scene.lines)?;
        place = next;
    }
    expect(alloc, false, "deaths without an end")?;
    Ok((100, place))
}

// Deaths in place of each turn meet each row, and those in place of each write are as many as the writes.
fn all_die(alloc: Global, image: &MemImage, scene: Scene) -> Result<(), Wrong> {
    let (_, last) = each_dies(alloc, image, scene, ("TURN", 1))?;
    expect(
        alloc,
        last.saturating_add(1) == scene.rows.len(),
        scene.lines,
    )?;
    let (writes, _) = each_dies(alloc, image, scene, ("WRITE", scene.rows.len()))?;
    expect(alloc, writes == scene.writes, scene.lines)
}

/// The deaths of each of these scenes on the volume of a row.
pub fn each_scene(alloc: Global, row: Row<'_>, scenes: &[Scene]) -> Result<(), Wrong> {
    let image = row.begun(alloc)?;
    for scene in scenes {
        all_die(alloc, &image, *scene)?;
    }
    Ok(())
}
