//! How a check ended.

ghost use Rattle.std.specs.Prelude.{◌≡◌};
ghost use Rattle.log_check.specs.Codes.{status_code};

use blk_drive::ImageDev;
use vol_analyze::Finding;

/// How a check ended.
#[derive(Drop)]
pub enum CheckStatus {
    /// The report is that of a legal history of so many entries, from the volume before to the volume after.
    Legal(usize),

    /// There are words.
    BadWords,

    /// A read of the report failed, and the source has counted it.
    LogFault,

    /// The report has more than 16,777,216 bytes.
    LogTooLong,

    /// A call of an image failed, and that image has counted it.
    ImageFault,

    /// The image before, or else the one after, has so many blocks, and a volume has 64 to 65,536.
    BadSize(u32),

    /// The volume before is not accepted: this is found first.
    NotAccepted(Finding),

    /// In the volume after this is found first, and it is fatal.
    NotMendable(Finding),

    /// This line of the report, counted from 1, is that of a death of which it tells too little, and all lines before it are legal.
    Unchecked(usize),

    /// This line is not legal, and all lines before it are. Where the last line is missing it is the one behind the last.
    Illegal(usize),

    /// The report is legal, and leads to another catalogue than that of the volume after.
    EndDiffers,

    /// A write of the text of status 0 failed, and the sink has counted it.
    OutFault,

    /// Memory ran out.
    NoMemory,
}

impl CheckStatus {
    /// The number with which the program ends: 0 to 2, or 4 to 7.
    pub fn code(&self) -> u8
        ensures { result ≡ status_code self.now }
    {
        match self {
            CheckStatus::Legal(_) => 0,
            CheckStatus::BadWords => 1,
            CheckStatus::LogFault | CheckStatus::LogTooLong => 2,
            CheckStatus::ImageFault | CheckStatus::BadSize(_) => 4,
            CheckStatus::NotAccepted(_)
            | CheckStatus::NotMendable(_)
            | CheckStatus::Unchecked(_)
            | CheckStatus::Illegal(_)
            | CheckStatus::EndDiffers => 5,
            CheckStatus::OutFault => 6,
            CheckStatus::NoMemory => 7,
        }
    }
}

/// How a check ended, and the images that were handed in.
#[derive(Drop)]
pub struct Checking<I: ImageDev, J: ImageDev> {
    /// How the check ended.
    pub status: CheckStatus,

    /// The image before, with the blocks that it had.
    pub before: I,

    /// The image after, with the blocks that it had.
    pub after: J,
}
