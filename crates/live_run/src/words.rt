//! The words of a live call, and the job that they ask for.

ghost use Rattle.std.specs.Prelude.{◌≡◌};
ghost use Rattle.live_run.specs.Words.{named, paired, job_of};

use fx_text::Word;

/// What the words of a live call ask for.
#[derive(Clone, Copy, Debug)]
pub enum Job {
    /// `live`: run the script with a thread for each node.
    Live,

    /// `live --rebuild`: do so, and mend the volume once the last node is over.
    LiveRebuild,
}

// The job of one word.
#[tactic(auto, unfolding(crate::specs::Words::named))]
fn named(word: &[u8]) -> Option<Job>
    ensures { result ≡ named word.now }
{
    if word == b"live".as_slice() {
        return Some(Job::Live);
    }
    None
}

// The job of two words.
#[tactic(auto, unfolding(crate::specs::Words::paired))]
fn paired(word: &[u8], more: &[u8]) -> Option<Job>
    ensures { result ≡ paired word.now more.now }
{
    if word != b"live".as_slice() {
        return None;
    }
    if more == b"--rebuild".as_slice() {
        Some(Job::LiveRebuild)
    } else {
        None
    }
}

/// The job that the words ask for, or none if they have no reading.
#[tactic(auto, unfolding(crate::specs::Words::job_of))]
pub fn job_of(words: &[Word]) -> Option<Job>
    ensures { result ≡ job_of words.now }
{
    match words {
        [word] => named(word.bytes()),
        [word, more] => paired(word.bytes(), more.bytes()),
        _ => None,
    }
}
