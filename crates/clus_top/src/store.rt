//! The job `store`: the lines of a text are stored as records in a file.

ghost use Rattle.std.specs.Prelude.{◌≡◌, None, IfOk, IfErr, OnOk, length};
ghost use Rattle.blk_drive.specs.Images.{IsInside};
ghost use Rattle.blk_drive.specs.Telling.{IsTold as Shows};
ghost use Rattle.vol_parts.specs.Findings.{Accepts};
ghost use Rattle.vol_records.specs.Records.{spelt};
ghost use Rattle.vol_records.specs.Storing.{IsStored};
ghost use Rattle.run_engine.specs.Inputs.{OfScript, Leaves, OfImage};
ghost use Rattle.clus_top.specs.Stores.{IsReadAs, IsTextEnd, against, stored_text, store_status, IsStoredWith, IsKeepEnd, IsStoredOf, IsStoreEnd};

use crate::records::judge;
use blk_drive::{ImageDev, LoadRefused, Mirror};
use fx_text::{TextFault, TextIn, read_all};
use plain_cat::NoMemory;
use plain_texts::{push_bytes, push_count};
use run_engine::{Status, load_status};
use std::alloc::Global;
use vol_records::{LineFault, Lines8, StoreFault, store};

/// The greatest number of bytes of a text.
const TEXT_LIMIT: usize = 1_048_576;

/// The end of a store: the text of status 0 or another status, and the image.
#[derive(Drop)]
pub struct Stored<I: ImageDev> {
    pub outcome: Result<Vec<u8>, Status>,
    pub image: I,
}

// Reads the text to its end, and what its lines are.
fn lines_of<T: TextIn>(alloc: Global, script: &mut T) -> Result<Lines8, Status>
    ensures lines { IfOk result (λ lines. OfScript (T.left script.old) (IsReadAs lines)) }
    ensures end { IfErr result (λ s. OfScript (T.left script.old) (λ bytes. IsTextEnd bytes (T.faults script.old) (T.faults script.new) s)) }
{
    let bytes = match read_all(alloc, script, TEXT_LIMIT) {
        Ok(bytes) => bytes,
        Err(TextFault::ReadFault) => return Err(Status::ScriptFault),
        Err(TextFault::TooLong) => return Err(Status::ScriptTooLong),
        Err(TextFault::NoMemory) => return Err(Status::NoMemory),
    };
    match Lines8::of_text(alloc, bytes.as_slice()) {
        Ok(lines) => Ok(lines),
        Err(LineFault::LineLong(k)) => Err(Status::LineLong(k)),
        Err(LineFault::NoMemory) => Err(Status::NoMemory),
    }
}

// The line of what is stored.
#[tactic(auto, unfolding(crate::specs::Stores::stored_text))]
fn stored_text(alloc: Global, lines: &Lines8) -> Result<Vec<u8>, NoMemory>
    ensures { IfOk result (λ text. text.items ≡ stored_text lines.now) }
{
    let mut text = Vec::new(alloc);
    push_bytes(&mut text, b"stored ")?;
    push_count(alloc, &mut text, lines.len())?;
    push_bytes(&mut text, b" records, ")?;
    push_count(alloc, &mut text, lines.spelt_len())?;
    push_bytes(&mut text, b" bytes\n")?;
    Ok(text)
}

// The status of lines that were not stored.
fn store_status(fault: StoreFault) -> Status
    ensures { result ≡ store_status fault }
{
    match fault {
        StoreFault::NoSuchFile => Status::NoFile,
        StoreFault::NoPriv => Status::NoPriv,
        StoreFault::NotEmpty => Status::NotEmpty,
        StoreFault::NoRoom => Status::NoRoom,
        StoreFault::NoMemory => Status::NoMemory,
        StoreFault::ImageFault => Status::ImageFault,
    }
}

// Stores lines in a file of an accepted volume.
fn keep<I: ImageDev>(
    alloc: Global,
    m: &mut Mirror<I>,
    n: u32,
    seq: u16,
    lines: &Lines8,
) -> Result<(), Status>
    requires inside { IsInside (length m.old.blocks) }
    requires accepted { Accepts m.old.blocks }
    requires told { Shows (I.told m.old.image) m.old.blocks }
    ensures taken { OnOk result (against n seq lines.now m.old.blocks ≡ None) }
    ensures stored { OnOk result (Leaves (I.told m.old.image) (I.told m.new.image) (λ new. IsStored m.old.blocks new n seq (spelt lines.now))) }
    ensures end { IfErr result (λ s. Leaves (I.told m.old.image) (I.told m.new.image)
        (λ new. IsKeepEnd n seq lines.now (length m.old.blocks) m.old.blocks new (I.faults m.old.image) (I.faults m.new.image) s)) }
{
    match store(alloc, m, n, seq, lines) {
        Ok(_) => Ok(()),
        Err(fault) => Err(store_status(fault)),
    }
}

// Stores lines in a file of an accepted volume, and says so. The text is made before the first write.
fn store_in<I: ImageDev>(
    alloc: Global,
    m: &mut Mirror<I>,
    n: u32,
    seq: u16,
    lines: &Lines8,
) -> Result<Vec<u8>, Status>
    requires inside { IsInside (length m.old.blocks) }
    requires accepted { Accepts m.old.blocks }
    requires told { Shows (I.told m.old.image) m.old.blocks }
    ensures text { IfOk result (λ text. Leaves (I.told m.old.image) (I.told m.new.image) (λ new. IsStoredWith n seq lines.now (length m.old.blocks) m.old.blocks new text.items)) }
    ensures end { IfErr result (λ s. Leaves (I.told m.old.image) (I.told m.new.image)
        (λ new. IsKeepEnd n seq lines.now (length m.old.blocks) m.old.blocks new (I.faults m.old.image) (I.faults m.new.image) s)) }
{
    let text = match stored_text(alloc, lines) {
        Ok(text) => text,
        Err(_) => return Err(Status::NoMemory),
    };
    keep(alloc, m, n, seq, lines)?;
    Ok(text)
}

// Stores lines in a file of the volume of an image, in which nothing must be found.
fn store_on<I: ImageDev>(
    alloc: Global,
    m: &mut Mirror<I>,
    n: u32,
    seq: u16,
    lines: &Lines8,
) -> Result<Vec<u8>, Status>
    requires inside { IsInside (length m.old.blocks) }
    requires told { Shows (I.told m.old.image) m.old.blocks }
    ensures text { IfOk result (λ text. Leaves (I.told m.old.image) (I.told m.new.image) (λ new. IsStoredWith n seq lines.now (length m.old.blocks) m.old.blocks new text.items)) }
    ensures end { IfErr result (λ s. Leaves (I.told m.old.image) (I.told m.new.image)
        (λ new. IsKeepEnd n seq lines.now (length m.old.blocks) m.old.blocks new (I.faults m.old.image) (I.faults m.new.image) s)) }
{
    match judge(alloc, m.all()) {
        Ok(()) => store_in(alloc, m, n, seq, lines),
        Err(status) => Err(status),
    }
}

// Stores lines in a file of the volume of an image.
fn store_image<I: ImageDev>(alloc: Global, image: I, n: u32, seq: u16, lines: &Lines8) -> Stored<I>
    ensures text { IfOk result.outcome (λ text. OfImage (I.size image) (I.told image) (I.told result.image) (λ old new. IsStoredWith n seq lines.now (I.size image) old new text.items)) }
    ensures end { IfErr result.outcome (λ s. OfImage (I.size image) (I.told image) (I.told result.image)
        (λ old new. IsKeepEnd n seq lines.now (I.size image) old new (I.faults image) (I.faults result.image) s)) }
{
    match Mirror::load(alloc, image) {
        Ok(mut mirror) => {
            let outcome = store_on(alloc, &mut mirror, n, seq, lines);
            Stored {
                outcome,
                image: mirror.into_image(),
            }
        }
        Err(LoadRefused { fault, image }) => Stored {
            outcome: Err(load_status(fault)),
            image,
        },
    }
}

/// Stores the lines of the text that is read in a file of the volume of an image.
pub fn store_text<I: ImageDev, T: TextIn>(
    alloc: Global,
    image: I,
    n: u32,
    seq: u16,
    script: &mut T,
) -> Stored<I>
    ensures text { IfOk result.outcome (λ text. OfScript (T.left script.old) (λ bytes. OfImage (I.size image) (I.told image) (I.told result.image)
        (λ old new. IsStoredOf n seq bytes (I.size image) old new text.items))) }
    ensures end { IfErr result.outcome (λ s. OfScript (T.left script.old) (λ bytes. OfImage (I.size image) (I.told image) (I.told result.image)
        (λ old new. IsStoreEnd n seq bytes (I.size image) old new (T.faults script.old) (T.faults script.new) (I.faults image) (I.faults result.image) s))) }
{
    match lines_of(alloc, script) {
        Ok(lines) => store_image(alloc, image, n, seq, &lines),
        Err(status) => Stored {
            outcome: Err(status),
            image,
        },
    }
}
