//! Tests of printed texts and of scripts (`plain_texts`, `run_script`), and of the judge of reports (`log_check`), over the catalogue of a
//! fresh volume and over runs of the cluster on images in memory. The crate has tests alone.
//!
//! `printed` is about how commands, replies and lines are printed, `scripts` and `soaks` about how scripts are read and made, `words`
//! about the words of a line, `texts` and `ten_lines` about whole reports, and `runs` about reports of runs that are made here.
//!
//! ```text
//! let checking = check_log(alloc, &[], before, after, &mut log, &mut out);
//! ```
//!
//! It promises nothing: its tests compare texts, lines, faults, reports and verdicts byte by byte.
#![tactic(auto)]

#[cfg(test)]
mod printed;
#[cfg(test)]
mod runs;
#[cfg(test)]
mod scripts;
#[cfg(test)]
mod soaks;
#[cfg(test)]
mod ten_lines;
#[cfg(test)]
mod texts;
#[cfg(test)]
mod words;
