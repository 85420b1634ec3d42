//! The job `init`: a fresh volume on an image, and what is said of it.

ghost use Rattle.std.specs.Prelude.{◌≡◌, ◌≤◌, ◌++◌, ◌-◌, length, OnOk, IfOk, IfErr};
ghost use Rattle.vol_init.specs.Layouts.{IsLayout, reserved_clusters, total};
ghost use Rattle.vol_init.specs.Refusals.{home_of};
ghost use Rattle.blk_drive.specs.Telling.{IsTold as Shows};
ghost use Rattle.clus_top.specs.Statuses.{room_text, made_text};
ghost use Rattle.run_engine.specs.Inputs.{Leaves, OfImage};
ghost use Rattle.run_engine.specs.Summaries.{counted};
ghost use Rattle.clus_top.specs.Ends.{init_status, IsInitEnd, IsFormattedWith};
ghost use Rattle.clus_top.specs.Images.{IsFormatted};

use blk_drive::{ImageDev, LoadRefused, Mirror};
use plain_cat::NoMemory;
use plain_texts::{push_bytes, push_number};
use run_engine::{Status, load_status};
use std::alloc::Global;
use vol_init::{InitFault, Layout, init};

/// The end of a format: the text of status 0 or another status, and the image.
#[derive(Drop)]
pub struct Format<I: ImageDev> {
    pub outcome: Result<Vec<u8>, Status>,
    pub image: I,
}

// Appends a number, and the words for what is counted.
#[tactic(auto, unfolding(run_engine::specs::Summaries::counted))]
fn push_counted(alloc: Global, out: &mut Vec<u8>, n: u32, words: &[u8]) -> Result<(), NoMemory>
    ensures { OnOk result (out.new.items ≡ out.old.items ++ counted n words.now) }
{
    push_number(alloc, out, n)?;
    push_bytes(out, words)
}

// The clusters that no system file has.
fn free_clusters(layout: &Layout) -> u32
    requires limits { IsLayout layout.now }
    requires room { reserved_clusters layout.now ≤ total layout.now }
    ensures { result ≡ total layout.now - reserved_clusters layout.now }
{
    layout.blocks / layout.cluster - layout.reserved_clusters()
}

// Appends what a fresh volume has.
#[tactic(auto, unfolding(crate::specs::Statuses::room_text))]
fn push_room(alloc: Global, out: &mut Vec<u8>, layout: &Layout) -> Result<(), NoMemory>
    requires limits { IsLayout layout.now }
    requires room { reserved_clusters layout.now ≤ total layout.now }
    ensures { OnOk result (out.new.items ≡ out.old.items ++ room_text layout.now) }
{
    push_counted(alloc, out, layout.blocks, b" blocks, ")?;
    push_counted(alloc, out, free_clusters(layout), b" free clusters, ")?;
    push_counted(alloc, out, layout.files - 11, b" free numbers\n")
}

// What is said of a volume that was made.
#[tactic(auto, unfolding(crate::specs::Statuses::made_text))]
fn made_text(alloc: Global, label: &[u8], layout: &Layout) -> Result<Vec<u8>, NoMemory>
    requires limits { IsLayout layout.now }
    requires room { reserved_clusters layout.now ≤ total layout.now }
    ensures { IfOk result (λ text. text.items ≡ made_text label.now layout.now) }
{
    let mut text = Vec::new(alloc);
    push_bytes(&mut text, b"volume ")?;
    push_bytes(&mut text, label)?;
    push_bytes(&mut text, b": ")?;
    push_room(alloc, &mut text, layout)?;
    Ok(text)
}

// Why an image was not formatted.
fn init_status(fault: InitFault) -> Status
    ensures { result ≡ init_status fault }
{
    match fault {
        InitFault::ImageFault => Status::ImageFault,
        InitFault::NoMemory => Status::NoMemory,
        _ => Status::BadInit(fault),
    }
}

// Formats the drive.
fn init_on<I: ImageDev>(
    alloc: Global,
    m: &mut Mirror<I>,
    cluster: u32,
    files: u32,
    label: &[u8],
) -> Result<Vec<u8>, Status>
    requires told { Shows (I.told m.old.image) m.old.blocks }
    ensures text { IfOk result (λ text. Leaves (I.told m.old.image) (I.told m.new.image)
        (λ new. IsFormattedWith cluster files label.now (length m.old.blocks) m.old.blocks new text.items)) }
    ensures end { IfErr result (λ s. Leaves (I.told m.old.image) (I.told m.new.image)
        (λ new. IsInitEnd cluster files label.now (length m.old.blocks) (I.faults m.old.image) (I.faults m.new.image) s
        × IsFormatted (home_of cluster files label.now) m.old.blocks new s)) }
{
    let blocks = m.size();
    if let Err(fault) = init(alloc, m, cluster, files, label) {
        return Err(init_status(fault));
    }
    let layout = Layout {
        cluster,
        files,
        blocks,
    };
    match made_text(alloc, label, &layout) {
        Ok(text) => Ok(text),
        Err(_) => Err(Status::NoMemory),
    }
}

/// Formats an image.
pub fn init_image<I: ImageDev>(
    alloc: Global,
    image: I,
    cluster: u32,
    files: u32,
    label: &[u8],
) -> Format<I>
    ensures text { IfOk result.outcome (λ text. OfImage (I.size image) (I.told image) (I.told result.image)
        (λ old new. IsFormattedWith cluster files label.now (I.size image) old new text.items)) }
    ensures end { IfErr result.outcome (λ s. OfImage (I.size image) (I.told image) (I.told result.image)
        (λ old new. IsInitEnd cluster files label.now (I.size image) (I.faults image) (I.faults result.image) s
        × IsFormatted (home_of cluster files label.now) old new s)) }
{
    match Mirror::load(alloc, image) {
        Ok(mut mirror) => {
            let outcome = init_on(alloc, &mut mirror, cluster, files, label);
            Format {
                outcome,
                image: mirror.into_image(),
            }
        }
        Err(LoadRefused { fault, image }) => Format {
            outcome: Err(load_status(fault)),
            image,
        },
    }
}
