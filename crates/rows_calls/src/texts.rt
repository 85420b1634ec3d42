//! Scripts whose lines differ in a number alone, with their reports.

use crate::calls::Called;
use plain_cat::NoMemory;
use std::alloc::Global;

/// Lines of a script, and those of its report, for each number k from the first to the last. `%k` stands for it, `%2` and `%5` for it in
/// so many digits, `%o` for it in octal digits, `%n` for it and `more`, and `%l` for how many lines the report has then, from 1.
#[derive(Clone, Copy)]
pub struct Lines<'a> {
    pub from: u32,
    pub to: u32,
    pub more: u32,
    pub script: &'a str,
    pub report: &'a str,
}

// The number for which a letter stands, and the digits.
fn number_for(alloc: Global, letter: &str, k: u32, n: u32, line: u32) -> Result<String, NoMemory> {
    match letter {
        "k" => format!(in alloc; "{k}"),
        "2" => format!(in alloc; "{k:02}"),
        "5" => format!(in alloc; "{k:05}"),
        "o" => format!(in alloc; "{k:o}"),
        "n" => format!(in alloc; "{n}"),
        "l" => format!(in alloc; "{line}"),
        _ => Ok(String::new(alloc)),
    }
}

// Writes a text with its numbers behind another.
fn push_filled(
    out: &mut String,
    alloc: Global,
    text: &str,
    k: u32,
    n: u32,
    line: u32,
) -> Result<(), NoMemory> {
    for (i, part) in text.split('%').enumerate() {
        if i == 0 || !part.is_char_boundary(1) || part.is_empty() {
            out.push_str(part)?;
        } else {
            let (letter, rest) = part.split_at(1);
            out.push_str(number_for(alloc, letter, k, n, line)?.as_str())?;
            out.push_str(rest)?;
        }
    }
    Ok(())
}

/// A script of such lines, and its report.
#[derive(Drop)]
pub struct Written {
    script: String,
    report: String,
    lines: u32,
}

impl Written {
    /// The lines of these rows behind the first ones of a script.
    pub fn new(alloc: Global, first: &str, rows: &[Lines<'_>]) -> Result<Written, NoMemory> {
        let mut text = Written {
            script: String::from_str(alloc, first)?,
            report: String::new(alloc),
            lines: 0,
        };
        for row in rows {
            text.push(alloc, row)?;
        }
        Ok(text)
    }

    // The lines of one row.
    fn push(&mut self, alloc: Global, row: &Lines<'_>) -> Result<(), NoMemory> {
        for k in row.from..row.to.saturating_add(1) {
            let n = k.saturating_add(row.more);
            if !row.report.is_empty() {
                self.lines = self.lines.saturating_add(1);
            }
            push_filled(&mut self.script, alloc, row.script, k, n, self.lines)?;
            push_filled(&mut self.report, alloc, row.report, k, n, self.lines)?;
        }
        Ok(())
    }

    /// The script.
    pub fn script(&self) -> &str {
        self.script.as_str()
    }

    /// The report that the script has to have.
    pub fn report(&self) -> &str {
        self.report.as_str()
    }
}

/// What a call wrote.
pub fn text_of(called: &Called) -> &str {
    str::from_utf8(called.out.bytes()).unwrap_or("no text")
}

/// How many lines of a text end so.
pub fn lines_with(text: &str, end: &str) -> usize {
    let mut count = 0usize;
    for line in text.split('\n') {
        if line.ends_with(end) {
            count = count.saturating_add(1);
        }
    }
    count
}
