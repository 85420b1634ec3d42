//! Volumes in memory, and their blocks.

use crate::calls::call;
use base_words::{Block, put_bytes, put_long, put_word, set_sum};
use blk_drive::{Fail as Failing, ImageDev, MemImage};
use plain_cat::NoMemory;
use std::alloc::{AllocError, Global};

/// A volume on which a row begins.
#[derive(Clone, Copy)]
pub enum On {
    /// So many zero blocks.
    Zeros(usize),

    /// So many blocks of bytes that look random.
    Noise(usize),

    /// The volume of 1,024 blocks with clusters of 4 and 64 file numbers.
    Fresh,

    /// That of 64 blocks with clusters of one, of which 22 are free, and 32 file numbers, of which 21 are free.
    Tiny,

    /// That of 256 blocks with clusters of one, and 64 file numbers.
    Small,

    /// That of 8,192 blocks with clusters of one, and 128 file numbers.
    Wide,

    /// The fresh volume with Z.DIR;1 (12,1) in the main directory, and three files in that: 13 and 15 have no block, and 14 has four from
    /// this LBN on. Two clusters more are in use, as this byte of the storage bitmap says, and twelve blocks more are charged to [1,1].
    Tree(u16, u8),
}

impl On {
    /// The volume.
    pub fn image(self, alloc: Global) -> Result<MemImage, NoMemory> {
        match self {
            On::Zeros(count) => zeros(alloc, count),
            On::Noise(count) => noise(alloc, count),
            On::Fresh => volume(alloc),
            On::Tiny => tiny(alloc),
            On::Small => formatted(alloc, 256, &["init", "1", "64", "SMALL"]),
            On::Wide => formatted(alloc, 8192, &["init", "1", "128", "WIDE"]),
            On::Tree(lbn, free) => tree_at(alloc, lbn, free),
        }
    }
}

/// An image of these blocks, of which a call fails, if one is named.
pub fn image_of(
    alloc: Global,
    blocks: &[Block],
    fails: Option<Failing>,
) -> Result<MemImage, NoMemory> {
    if blocks.len() > 100_000 {
        return Err(AllocError);
    }
    let mut failing = Vec::new(alloc);
    if let Some(fail) = fails {
        failing.push(fail)?;
    }
    Ok(MemImage::new(Vec::from_slice(alloc, blocks)?, failing))
}

/// An image of so many zero blocks.
pub fn zeros(alloc: Global, count: usize) -> Result<MemImage, NoMemory> {
    let blocks = vec![in alloc; [0; 512]; count]?;
    image_of(alloc, blocks.as_slice(), None)
}

// So many blocks of bytes that look random.
fn noise(alloc: Global, count: usize) -> Result<MemImage, NoMemory> {
    let mut blocks = vec![in alloc; [0; 512]; count]?;
    let mut x = 12_345u32;
    for block in blocks.iter_mut() {
        for byte in block.iter_mut() {
            x = x.wrapping_mul(1_103_515_245).wrapping_add(12_345);
            *byte = (x >> 16 & 0xff) as u8;
        }
    }
    image_of(alloc, blocks.as_slice(), None)
}

// So many zero blocks behind a format.
fn formatted(alloc: Global, count: usize, words: &[&str]) -> Result<MemImage, NoMemory> {
    Ok(call(alloc, words, zeros(alloc, count)?, "")?.image)
}

/// The volume of 1,024 blocks with clusters of 4 and 64 file numbers.
pub fn volume(alloc: Global) -> Result<MemImage, NoMemory> {
    formatted(alloc, 1024, &["init", "4", "64", "KVOL"])
}

// The volume of 64 blocks with clusters of one and 32 file numbers.
fn tiny(alloc: Global) -> Result<MemImage, NoMemory> {
    formatted(alloc, 64, &["init", "1", "32", "TINY"])
}

// The block of an LBN, or zeros where the image has none.
fn block_at(image: &MemImage, lbn: u32) -> Block {
    match image.all().get(lbn as usize) {
        Some(block) => *block,
        None => [0; 512],
    }
}

// The image with this block.
fn with_block(image: MemImage, lbn: u32, block: &Block) -> Result<MemImage, NoMemory> {
    let mut image = image;
    let Ok(count) = image.blocks() else {
        return Err(AllocError);
    };
    if lbn >= count || image.write_block(lbn, block).is_err() {
        return Err(AllocError);
    }
    Ok(image)
}

/// The image with one byte changed.
pub fn with_byte(image: MemImage, lbn: u32, at: usize, byte: u8) -> Result<MemImage, NoMemory> {
    let mut block = block_at(&image, lbn);
    if let Some(place) = block.get_mut(at) {
        *place = byte;
    }
    with_block(image, lbn, &block)
}

/// The image with the sum of a header made anew.
pub fn with_sum(image: MemImage, lbn: u32) -> Result<MemImage, NoMemory> {
    let mut block = block_at(&image, lbn);
    set_sum(&mut block);
    with_block(image, lbn, &block)
}

/// The image with a block of zeros.
pub fn without(image: MemImage, lbn: u32) -> Result<MemImage, NoMemory> {
    with_block(image, lbn, &[0; 512])
}

const DIRECTORY: u8 = 0x20;

// The entries of the directory: A.TXT;2 (13,1) and A.TXT;1 (14,1), and in its second block B.DAT;1 (15,2).
const FIRST: &[u8] =
    b"\x1a\x00\xff\x7f\x00\x05A.TXT\x00\x02\x00\x0d\x00\x01\x00\x00\x00\x01\x00\x0e\x00\x01\x00\x00\x00\xff\xff";

const SECOND: &[u8] = b"\x12\x00\xff\x7f\x00\x05B.DAT\x00\x01\x00\x0f\x00\x02\x00\x00\x00\xff\xff";

// Its own entry in the main directory.
const MORE: &[u8] = b"\x12\x00\xff\x7f\x00\x05Z.DIR\x00\x01\x00\x0c\x00\x01\x00\x00\x00\xff\xff";

// A block that begins with these bytes and is zero behind them.
fn block(bytes: &[u8]) -> Block {
    let mut b = [0; 512];
    for (place, byte) in b.iter_mut().zip(bytes) {
        *place = *byte;
    }
    b
}

// The header of a file of [1,1] with one run of so many blocks, or without one.
fn header(num: u16, seq: u16, flags: u8, lbn: u16, count: u16) -> Block {
    let mut b = [0; 512];
    put_bytes(&mut b, 0, &[40, 100, 255, 255]);
    put_word(&mut b, 6, 513);
    put_word(&mut b, 8, num);
    put_word(&mut b, 10, seq);
    put_word(&mut b, 26, count);
    put_word(&mut b, 30, count.wrapping_add(1));
    b[53] = flags;
    put_long(&mut b, 60, 65_537);
    if count != 0 {
        b[58] = 2;
        put_word(&mut b, 200, count.wrapping_add(0x3fff));
        put_word(&mut b, 202, lbn);
    }
    set_sum(&mut b);
    b
}

/// The blocks of an image.
pub fn blocks_of(alloc: Global, image: &MemImage) -> Result<Vec<Block>, NoMemory> {
    let mut blocks = Vec::new(alloc);
    for block in image.all() {
        blocks.push(*block)?;
    }
    Ok(blocks)
}

// The volume `Tree`.
fn tree_at(alloc: Global, lbn: u16, free: u8) -> Result<MemImage, NoMemory> {
    let mut b = blocks_of(alloc, &volume(alloc)?)?;
    if b.len() != 1024 {
        return Err(AllocError);
    }
    b[16][1] = 0x7f;
    b[28] = header(12, 1, DIRECTORY, 100, 4);
    b[29] = header(13, 1, 0, 0, 0);
    b[30] = header(14, 1, 0, lbn, 4);
    b[31] = header(15, 2, 0, 0, 0);
    b[85][3] = free;
    b[89] = block(MORE);
    b[96][8] = 123;
    b[100] = block(FIRST);
    b[101] = block(SECOND);
    b[102] = block(b"\xff\xff");
    b[103] = block(b"\xff\xff");
    Ok(MemImage::new(b, Vec::new(alloc)))
}
