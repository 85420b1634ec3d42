//! How a call of the program ended: its status and the number of it.

ghost use Rattle.std.specs.Prelude.{◌≡◌};

use blk_drive::ImageDev;
use vol_init::InitFault;
use vol_parts::Finding;

/// How a call of the program ended.
#[derive(Drop)]
pub enum Status {
    /// The job is done and its text written.
    Ok,

    /// The words have no reading.
    BadWords,

    /// A read of the script, or of the text to store, failed, and the source has counted it.
    ScriptFault,

    /// The script, or the text to store, has more than 1,048,576 bytes.
    ScriptTooLong,

    /// The first bad line of the script, counted from 1.
    BadScript(u32),

    /// Before any bad line the script has more than 4,096 commands or 65,536 plays.
    TooMany,

    /// A call of the image failed, and the image has counted it.
    ImageFault,

    /// The image has so many blocks, and a volume has 64 to 65,536.
    BadSize(u32),

    /// The volume is not accepted: this is found first.
    NotAccepted(Finding),

    /// Something is found in the volume. The findings are the text, which a failing sink cuts short.
    Findings,

    /// The volume has a fatal finding, so it cannot be mended: this is the first one.
    NotMendable(Finding),

    /// A write of the text of status 0 failed, and the sink has counted it.
    OutFault,

    /// Memory ran out.
    NoMemory,

    /// The image was not formatted, by one of the first four refusals: the cluster factor, the file numbers or the label are
    /// outside their limits, or the image is too small.
    BadInit(InitFault),

    /// A stream is not records: this is the byte of the stream, counted from 0, at which its first bad record begins.
    BadRecord(usize),

    /// The volume has no file of this number and sequence; or its records are asked for, and it is a directory.
    NoFile,

    /// This line of the text to store, counted from 1, is the first that has more than 32,767 bytes.
    LineLong(usize),

    /// Nothing is stored in a file of the system, nor in a directory.
    NoPriv,

    /// Nothing is stored in a file in which something was written.
    NotEmpty,

    /// The records take more bytes than the blocks of the file have.
    NoRoom,

    /// Something of the volume is beyond repair: this is the first such finding.
    NotRepairable(Finding),

    /// The volume is repaired, but `[SYSLOST]` has no room for a lost file that is not empty.
    RepairNoRoom(Finding),
}

impl Status {
    ghost use Rattle.run_engine.specs.Statuses.{status_code};

    /// The number with which the program ends: 0 to 7, or 9 to 12.
    pub fn code(&self) -> u8
        ensures { result ≡ status_code self.now }
    {
        match self {
            Status::Ok => 0,
            Status::BadWords => 1,
            Status::ScriptFault | Status::ScriptTooLong => 2,
            Status::BadScript(_) | Status::TooMany => 3,
            Status::ImageFault | Status::BadSize(_) => 4,
            Status::NotAccepted(_) | Status::Findings | Status::NotMendable(_) => 5,
            Status::OutFault => 6,
            Status::NoMemory => 7,
            Status::BadInit(_) => 9,
            Status::BadRecord(_) => 10,
            Status::NoFile
            | Status::LineLong(_)
            | Status::NoPriv
            | Status::NotEmpty
            | Status::NoRoom => 11,
            Status::NotRepairable(_) | Status::RepairNoRoom(_) => 12,
        }
    }
}

/// How a call of the program ended, and the image that was handed in.
#[derive(Drop)]
pub struct Finished<I: ImageDev> {
    /// How the call ended.
    pub status: Status,

    /// The image, which comes back with every status.
    pub image: I,
}
