//! The job `records`: the records of a file of an accepted volume, as text.

ghost use Rattle.std.specs.Prelude.{◌≡◌, ◌+◌, ◌≤◌, All, List, Some, Ok, IfErr, IfOk, OnOk, length};
ghost use Rattle.blk_drive.specs.Images.{IsInside};
ghost use Rattle.vol_parts.specs.Findings.{Accepts, Weak};
ghost use Rattle.vol_records.specs.Records.{records_of};
ghost use Rattle.vol_records.specs.Streams.{stream_at};
ghost use Rattle.vol_records.specs.Texts.{records_text};
ghost use Rattle.run_engine.specs.Inputs.{OfImage};
ghost use Rattle.clus_top.specs.Records.{IsRecordsText};
ghost use Rattle.clus_top.specs.Ends.{IsStreamEnd, IsNoStream, IsJudgedEnd, IsRecordsEndIn, IsRecordsOn, IsRecordsEnd};

use base_words::Block;
use blk_drive::{ImageDev, LoadRefused, Mirror};
use run_engine::{Status, load_status};
use std::alloc::Global;
use vol_analyze::accepted;
use vol_records::{Rec, RecFault, push_records, records, stream};

/// The end of a reading of records: the text of status 0 or another status, and the image.
#[derive(Drop)]
pub struct Reading<I: ImageDev> {
    pub outcome: Result<Vec<u8>, Status>,
    pub image: I,
}

// The text of the records at these places of a stream.
fn text_of(alloc: Global, bytes: &[u8], places: &[Rec]) -> Result<Vec<u8>, Status>
    requires { All (λ r. r.from + r.len ≤ length bytes.now) places.now }
    ensures text { IfOk result (λ text. text.items ≡ records_text bytes.now places.now) }
    ensures end { IfErr result (λ s. s ≡ Status.NoMemory) }
{
    let mut text = Vec::new(alloc);
    match push_records(alloc, &mut text, bytes, places) {
        Ok(()) => Ok(text),
        Err(_) => Err(Status::NoMemory),
    }
}

// The text of the records of a stream.
fn text_in(alloc: Global, bytes: &[u8]) -> Result<Vec<u8>, Status>
    ensures text { IfOk result (λ text. (places : List Rec) × (records_of bytes.now ≡ Ok places) × (text.items ≡ records_text bytes.now places)) }
    ensures end { IfErr result (IsStreamEnd bytes.now) }
{
    match records(alloc, bytes) {
        Ok(places) => text_of(alloc, bytes, places.as_slice()),
        Err(RecFault::BadCount(at)) => Err(Status::BadRecord(at)),
        Err(RecFault::Truncated(at)) => Err(Status::BadRecord(at)),
        Err(RecFault::NoMemory) => Err(Status::NoMemory),
    }
}

// The stream of the file that is in use under a number and a sequence, and no directory.
fn stream_in(alloc: Global, bs: &[Block], n: u32, seq: u16) -> Result<Vec<u8>, Status>
    requires inside { IsInside (length bs.now) }
    requires weak { Weak bs.now }
    ensures stream { IfOk result (λ bytes. stream_at bs.now n seq ≡ Some bytes.items) }
    ensures end { IfErr result (IsNoStream n seq bs.now) }
{
    match stream(alloc, bs, n, seq) {
        Ok(Some(bytes)) => Ok(bytes),
        Ok(None) => Err(Status::NoFile),
        Err(_) => Err(Status::NoMemory),
    }
}

/// Whether nothing is found in the blocks of a volume.
pub fn judge(alloc: Global, bs: &[Block]) -> Result<(), Status>
    requires { IsInside (length bs.now) }
    ensures accepted { OnOk result (Accepts bs.now) }
    ensures weak { OnOk result (Weak bs.now) }
    ensures end { IfErr result (IsJudgedEnd bs.now) }
{
    match accepted(alloc, bs) {
        Ok(Ok(_cat)) => Ok(()),
        Ok(Err(found)) => Err(Status::NotAccepted(found)),
        Err(_) => Err(Status::NoMemory),
    }
}

// The text of the records of a file, where nothing is found in the blocks of the volume.
fn text_on(alloc: Global, bs: &[Block], n: u32, seq: u16) -> Result<Vec<u8>, Status>
    requires inside { IsInside (length bs.now) }
    ensures accepted { OnOk result (Accepts bs.now) }
    ensures text { IfOk result (λ text. IsRecordsText n seq bs.now text.items) }
    ensures end { IfErr result (IsRecordsEndIn n seq bs.now) }
{
    judge(alloc, bs)?;
    let bytes = stream_in(alloc, bs, n, seq)?;
    text_in(alloc, bytes.as_slice())
}

/// Reads the records of a file of the volume of an image, for their text.
pub fn read_records<I: ImageDev>(alloc: Global, image: I, n: u32, seq: u16) -> Reading<I>
    ensures text { IfOk result.outcome (λ text. OfImage (I.size image) (I.told image) (I.told result.image) (λ old new. (new ≡ old) × IsRecordsOn n seq (I.size image) old text.items)) }
    ensures end { IfErr result.outcome (λ s. OfImage (I.size image) (I.told image) (I.told result.image)
        (λ old new. (new ≡ old) × IsRecordsEnd n seq (I.size image) old (I.faults image) (I.faults result.image) s)) }
{
    match Mirror::load(alloc, image) {
        Ok(mirror) => {
            let outcome = text_on(alloc, mirror.all(), n, seq);
            Reading {
                outcome,
                image: mirror.into_image(),
            }
        }
        Err(LoadRefused { fault, image }) => Reading {
            outcome: Err(load_status(fault)),
            image,
        },
    }
}
