//! The words of a call, and the job that they ask for.

ghost use Rattle.std.specs.Prelude.{◌≡◌, ◌-◌, ◌≤◌, true, Some, None, IfSome, option_map, if◌then◌else◌};
ghost use Rattle.std.specs.List.{list_all};
ghost use Rattle.clus_top.specs.Words.{wanted, is_soak, is_seq, is_digit, value_of, number, named, soaked, paired, storing, recorded, formatted, wanted_by, IsWithinLimits};

use fx_text::Word;

/// What the words of a call ask for.
#[derive(Clone, Copy, Debug)]
pub enum Job<'a> {
    /// `run`: run the script.
    Run,

    /// `run --rebuild`: run the script, and mend the volume once the last node is over.
    RunRebuild,

    /// `soak N`: run the script that is drawn from this number, 1 to 256.
    Soak(u32),

    /// `analyze`: print the findings.
    Analyze,

    /// `rebuild`: mend the volume.
    Rebuild,

    /// `repair`: repair the volume, and mend it then.
    Repair,

    /// `records N S`: print the records of a file.
    Records {
        /// The number of the file, 0 to 99,999 as it is written.
        file: u32,

        /// Its sequence, 0 to 65,535.
        seq: u16,
    },

    /// `store N S`: store the lines of the text in a file.
    Store {
        /// The number of the file, 0 to 99,999 as it is written.
        file: u32,

        /// Its sequence, 0 to 65,535.
        seq: u16,
    },

    /// `init CLUSTER FILES LABEL`: format the image.
    Init {
        /// Blocks in a cluster, 0 to 99,999 as it is written.
        cluster: u32,

        /// File numbers, 0 to 99,999 as it is written.
        files: u32,

        /// The label, any bytes.
        label: &'a [u8],
    },
}

fn is_digit(b: u8) -> bool
    ensures { result ≡ is_digit b }
{
    48 <= b && b <= 57
}

fn are_digits(word: &[u8]) -> bool
    ensures { result ≡ list_all is_digit word.now }
{
    word.iter().all(|b| is_digit(*b))
}

// What a digit stands for.
fn digit(b: u8) -> u32
    ensures value { result ≡ b - 48 }
    ensures bound { result ≤ 207 }
{
    u32::from(b.saturating_sub(48))
}

// The number that one to five digits write.
#[tactic(auto, unfolding(crate::specs::Words::value_of))]
fn value_of(word: &[u8]) -> Option<u32>
    ensures { result ≡ value_of word.now }
{
    match word {
        [a] => Some(digit(*a)),
        [a, b] => Some(10 * digit(*a) + digit(*b)),
        [a, b, c] => Some(100 * digit(*a) + 10 * digit(*b) + digit(*c)),
        [a, b, c, d] => Some(1000 * digit(*a) + 100 * digit(*b) + 10 * digit(*c) + digit(*d)),
        [a, b, c, d, e] => Some(
            10_000 * digit(*a) + 1000 * digit(*b) + 100 * digit(*c) + 10 * digit(*d) + digit(*e),
        ),
        _ => None,
    }
}

// The number that a word is.
#[tactic(auto, unfolding(crate::specs::Words::number))]
fn number(word: &[u8]) -> Option<u32>
    ensures { result ≡ number word.now }
{
    if are_digits(word) {
        value_of(word)
    } else {
        None
    }
}

// The job of one word.
#[tactic(auto, unfolding(crate::specs::Words::named))]
fn named(word: &[u8]) -> Option<Job<'_>>
    ensures wanted { option_map wanted result ≡ named word.now }
    ensures limits { IfSome result IsWithinLimits }
{
    if word == b"run".as_slice() {
        return Some(Job::Run);
    }
    if word == b"analyze".as_slice() {
        return Some(Job::Analyze);
    }
    if word == b"rebuild".as_slice() {
        return Some(Job::Rebuild);
    }
    if word == b"repair".as_slice() {
        return Some(Job::Repair);
    }
    None
}

// Whether a soak has this number.
fn is_soak(n: u32) -> bool
    ensures value { result ≡ is_soak n }
    ensures limit { result ≡ true → n ≤ 256 }
{
    1 <= n && n <= 256
}

// The soak that two words ask for.
#[tactic(auto, unfolding(crate::specs::Words::soaked))]
fn soaked<'a>(word: &[u8], count: &[u8]) -> Option<Job<'a>>
    ensures wanted { option_map wanted result ≡ soaked word.now count.now }
    ensures limits { IfSome result IsWithinLimits }
{
    if word != b"soak".as_slice() {
        return None;
    }
    let n = number(count)?;
    if is_soak(n) { Some(Job::Soak(n)) } else { None }
}

// The run with a mending, or the soak, that two words ask for.
#[tactic(auto, unfolding(crate::specs::Words::paired))]
fn paired<'a>(word: &[u8], more: &[u8]) -> Option<Job<'a>>
    ensures wanted { option_map wanted result ≡ paired word.now more.now }
    ensures limits { IfSome result IsWithinLimits }
{
    if word != b"run".as_slice() {
        return soaked(word, more);
    }
    if more == b"--rebuild".as_slice() {
        Some(Job::RunRebuild)
    } else {
        None
    }
}

// A number as a sequence.
fn seq_of(n: u32) -> Option<u16>
    ensures value { result ≡ (if is_seq n then Some n else None) }
{
    if n <= 65_535 { Some(n as u16) } else { None }
}

// The store that three words ask for.
#[tactic(auto, unfolding(crate::specs::Words::storing))]
fn storing<'a>(word: &[u8], file: &[u8], seq: &[u8]) -> Option<Job<'a>>
    ensures wanted { option_map wanted result ≡ storing word.now file.now seq.now }
    ensures limits { IfSome result IsWithinLimits }
{
    if word != b"store".as_slice() {
        return None;
    }
    Some(Job::Store {
        file: number(file)?,
        seq: seq_of(number(seq)?)?,
    })
}

// The records, or the store, that three words ask for.
#[tactic(auto, unfolding(crate::specs::Words::recorded))]
fn recorded<'a>(word: &[u8], file: &[u8], seq: &[u8]) -> Option<Job<'a>>
    ensures wanted { option_map wanted result ≡ recorded word.now file.now seq.now }
    ensures limits { IfSome result IsWithinLimits }
{
    if word != b"records".as_slice() {
        return storing(word, file, seq);
    }
    Some(Job::Records {
        file: number(file)?,
        seq: seq_of(number(seq)?)?,
    })
}

// The format that four words ask for.
#[tactic(auto, unfolding(crate::specs::Words::formatted))]
fn formatted<'a>(word: &[u8], cluster: &[u8], files: &[u8], label: &'a [u8]) -> Option<Job<'a>>
    ensures wanted { option_map wanted result ≡ formatted word.now cluster.now files.now label.now }
    ensures limits { IfSome result IsWithinLimits }
{
    if word != b"init".as_slice() {
        return None;
    }
    Some(Job::Init {
        cluster: number(cluster)?,
        files: number(files)?,
        label,
    })
}

/// The job that the words ask for, or none where they have no reading.
#[tactic(auto, unfolding(crate::specs::Words::wanted_by))]
pub fn job_of(words: &[Word]) -> Option<Job<'_>>
    ensures wanted { option_map wanted result ≡ wanted_by words.now }
    ensures limits { IfSome result IsWithinLimits }
{
    match words {
        [word] => named(word.bytes()),
        [word, more] => paired(word.bytes(), more.bytes()),
        [word, file, seq] => recorded(word.bytes(), file.bytes(), seq.bytes()),
        [word, cluster, files, label] => formatted(
            word.bytes(),
            cluster.bytes(),
            files.bytes(),
            label.bytes(),
        ),
        _ => None,
    }
}
