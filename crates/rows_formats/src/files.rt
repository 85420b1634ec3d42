//! Images in files: of the system, and in memory, where some calls fail.

ghost use Rattle.std.specs.Prelude.{◌≡◌};

use base_words::Block;
use blk_drive::{ImageDev, LoadFault, Mirror, NoMemory};
use blk_files::{ByteFile, FileFail, FileImage, MemFile, SystemFile};
use std::alloc::Global;
use std::fs::File;
use std::path::Path;
use std::process::Abort;
use std::test::Fail as Failed;
use std::{env, fs, process};

type Opened = FileImage<SystemFile<File>>;

// The block of the image, where it has it and reads it.
fn read<I: ImageDev>(image: &mut I, lbn: u32) -> Option<Block> {
    let size = image.blocks().ok()?;
    let mut b = [0; 512];
    if lbn >= size || image.read_block(lbn, &mut b).is_err() {
        return None;
    }
    Some(b)
}

// Writes the block, where the image has it, and says whether it is written.
fn write<I: ImageDev>(image: &mut I, lbn: u32, b: &Block) -> bool {
    image
        .blocks()
        .is_ok_and(|size| lbn < size && image.write_block(lbn, b).is_ok())
}

// Sixteen pieces of 256 blocks, three blocks, and a rest that is no block.
fn bytes_of_file(alloc: Global) -> Result<Vec<u8>, NoMemory> {
    (0..4_099usize * 512 + 100)
        .map(|i| (i / 512 % 251) as u8)
        .collect(alloc)
}

// The image has the file's blocks.
fn check_blocks<I: ImageDev>(rt: &impl Abort, image: &mut I) {
    assert_eq!(rt; image.blocks().ok(), Some(4_099));
    for lbn in [0, 255, 256, 2_047, 2_048, 4_098, 1] {
        let want = [(lbn % 251) as u8; 512];
        assert_eq!(rt; read(image, lbn), Some(want), "block {lbn}");
    }
}

// What is written is read back, and the block before it is as it was.
fn check_writes<I: ImageDev>(rt: &impl Abort, image: &mut I) {
    for lbn in [2, 2_047, 4_098] {
        assert!(rt;
            write(image, lbn, &[0xee; 512]),
            "the write of block {lbn} is made"
        );
    }
    check_written(rt, image);
}

// The blocks that are written are read, and those before them are as they were.
fn check_written<I: ImageDev>(rt: &impl Abort, image: &mut I) {
    for lbn in [2, 2_047, 4_098] {
        assert_eq!(rt; read(image, lbn), Some([0xee; 512]), "block {lbn}");
        let want = [((lbn - 1) % 251) as u8; 512];
        assert_eq!(rt; read(image, lbn - 1), Some(want), "before block {lbn}");
    }
}

// The file, to be read and written.
fn opened(rt: &HostRuntime, path: Path<'_>) -> Result<File, Failed> {
    let mut options = File::options();
    let file = options.read(true).write(true).open(rt, path)?;
    Ok(file)
}

// The image of the file.
fn image_of(rt: &HostRuntime, path: Path<'_>) -> Result<Opened, Failed> {
    let file = SystemFile::new(opened(rt, path)?);
    let image = FileImage::new(rt.alloc(), file)?;
    Ok(image)
}

// Makes a file of so many bytes, each of them 5.
fn write_file(rt: &HostRuntime, path: Path<'_>, len: usize) -> Result<(), Failed> {
    let bytes: Vec<u8> = vec![in rt.alloc(); 5; len]?;
    fs::write(rt, path, bytes.as_slice())?;
    Ok(())
}

// How many blocks the image of a file of so many bytes has.
fn size_of_file(rt: &HostRuntime, path: Path<'_>, len: usize) -> Result<Option<u32>, Failed> {
    write_file(rt, path, len)?;
    let mut image = image_of(rt, path)?;
    Ok(image.blocks().ok())
}

#[test]
fn a_rest_that_is_no_block_is_left_out(rt: HostRuntime) -> Result<(), Failed> {
    let name = format!(in rt.alloc(); "blk_files-rest-{}", process::id(rt.process()))?;
    let path = env::temp_dir(&rt)?.join(rt.alloc(), name.as_str())?;
    for (len, want) in [(511usize, 0), (64 * 512, 64), (64 * 512 + 511, 64)] {
        let size = size_of_file(&rt, path.as_path(), len)?;
        assert_eq!(rt; size, Some(want), "{len} bytes");
    }
    fs::remove_file(&rt, path.as_path())?;
    Ok(())
}

// A file that is not open for writing is read, until a write of it fails.
fn check_unwritable(rt: &impl Abort, image: &mut Opened) {
    assert_eq!(rt; read(image, 3), Some([5; 512]));
    for _ in 0..2 {
        assert!(rt;
            !write(image, 3, &[6; 512]),
            "a write fails where the file is open for reading alone"
        );
        assert_eq!(rt; read(image, 3), None);
    }
}

#[test]
fn a_file_that_is_not_written_gives_a_fault(rt: HostRuntime) -> Result<(), Failed> {
    let name = format!(in rt.alloc(); "blk_files-read-{}", process::id(rt.process()))?;
    let path = env::temp_dir(&rt)?.join(rt.alloc(), name.as_str())?;
    write_file(&rt, path.as_path(), 64 * 512)?;
    let file = SystemFile::new(File::open(&rt, path.as_path())?);
    let mut image = FileImage::new(rt.alloc(), file)?;
    check_unwritable(&rt, &mut image);
    fs::remove_file(&rt, path.as_path())?;
    Ok(())
}

#[test]
fn reads_and_writes_a_file(rt: HostRuntime) -> Result<(), Failed> {
    let name = format!(in rt.alloc(); "blk_files-{}", process::id(rt.process()))?;
    let path = env::temp_dir(&rt)?.join(rt.alloc(), name.as_str())?;
    let path = path.as_path();
    fs::write(&rt, path, bytes_of_file(rt.alloc())?.as_slice())?;
    let mut image = image_of(&rt, path)?;
    check_blocks(&rt, &mut image);
    check_writes(&rt, &mut image);
    drop(image);
    assert_eq!(rt; fs::metadata(&rt, path)?.len(), 4_099 * 512 + 100);
    let mut image = image_of(&rt, path)?;
    check_written(&rt, &mut image);
    fs::remove_file(&rt, path)?;
    Ok(())
}

// The drive has the file's blocks, in order, and the image below it has handed them over.
fn check_loaded<I: ImageDev>(rt: &impl Abort, mirror: Mirror<I>) {
    assert_eq!(rt; mirror.all().len(), 4_099);
    for (lbn, block) in mirror.all().iter().enumerate() {
        assert!(rt; *block == [(lbn % 251) as u8; 512], "block {lbn}");
    }
    let mut image = mirror.into_image();
    for lbn in [0, 2_048, 4_098] {
        assert_eq!(rt; read(&mut image, lbn), None, "block {lbn}, handed over");
    }
}

#[test]
fn loads_a_file(rt: HostRuntime) -> Result<(), Failed> {
    let name = format!(in rt.alloc(); "blk_files-load-{}", process::id(rt.process()))?;
    let path = env::temp_dir(&rt)?.join(rt.alloc(), name.as_str())?;
    let path = path.as_path();
    fs::write(&rt, path, bytes_of_file(rt.alloc())?.as_slice())?;
    let image = image_of(&rt, path)?;
    opened(&rt, path)?.set_len(0)?;
    match Mirror::load(rt.alloc(), image) {
        Ok(mirror) => check_loaded(&rt, mirror),
        Err(_) => return Err(Failed::from("not loaded")),
    }
    fs::remove_file(&rt, path)?;
    Ok(())
}

#[test]
fn a_file_of_more_blocks_than_a_volume_is_not_read(rt: HostRuntime) -> Result<(), Failed> {
    let name = format!(in rt.alloc(); "blk_files-large-{}", process::id(rt.process()))?;
    let path = env::temp_dir(&rt)?.join(rt.alloc(), name.as_str())?;
    let path = path.as_path();
    write_file(&rt, path, 512)?;
    opened(&rt, path)?.set_len(1 << 40)?;
    let mut image = image_of(&rt, path)?;
    assert_eq!(rt; image.blocks().ok(), Some(1 << 31));
    assert_eq!(rt; read(&mut image, 0), None);
    fs::remove_file(&rt, path)?;
    Ok(())
}

#[test]
fn fails_without_a_file(rt: HostRuntime) {
    let answer = Mirror::load(rt.alloc(), Opened::absent());
    assert_eq!(rt;
        answer.map_err(|r| r.fault).map(|m| m.size()),
        Err(LoadFault::ImageFault)
    );
}

// A file in memory, of which a call fails.
#[derive(Drop)]
struct Failing {
    file: MemFile,
    calls: u64,
    failing: u64,
}

impl Failing {
    // Counts a call, and says whether it fails.
    fn fails(&mut self) -> bool
        ensures { self.new.file ≡ self.old.file }
    {
        self.calls = self.calls.saturating_add(1);
        self.calls == self.failing
    }
}

impl ByteFile for Failing {
    ghost use Rattle.std.specs.Prelude.{Some};

    ghost bytes = { λ f. Some f.file };

    fn len(&mut self) -> Result<u64, FileFail> {
        if self.fails() {
            return Err(FileFail);
        }
        self.file.len()
    }

    fn read_at(&mut self, at: u64, buf: &mut [u8]) -> Result<(), FileFail> {
        if self.fails() {
            return Err(FileFail);
        }
        self.file.read_at(at, buf)
    }

    fn write_at(&mut self, at: u64, b: &Block) -> Result<(), FileFail> {
        if self.fails() {
            return Err(FileFail);
        }
        self.file.write_at(at, b)
    }
}

// The image of a file of 4,099 blocks in memory, of which this call fails. Its length is call 1, and its pieces are calls 2 to 18.
fn failing_image(alloc: Global, failing: u64) -> Result<FileImage<Failing>, NoMemory> {
    let file = MemFile::new(bytes_of_file(alloc)?);
    FileImage::new(
        alloc,
        Failing {
            file,
            calls: 0,
            failing,
        },
    )
}

#[test]
fn a_call_that_fails_is_a_fault(rt: HostRuntime) -> Result<(), Failed> {
    // The call that fails, the blocks that the image has, and whether it is loaded.
    let rows = [
        (1, None, false),
        (2, Some(4_099), false),
        (18, Some(4_099), false),
        (19, Some(4_099), true),
    ];
    for (call, blocks, is_loaded) in rows {
        let mut image = failing_image(rt.alloc(), call)?;
        assert_eq!(rt; image.blocks().ok(), blocks, "call {call}");
        assert_eq!(rt;
            Mirror::load(rt.alloc(), image).is_ok(),
            is_loaded,
            "call {call}"
        );
    }
    Ok(())
}

#[test]
fn a_block_whose_write_failed_is_not_read(rt: HostRuntime) -> Result<(), Failed> {
    let mut image = failing_image(rt.alloc(), 19)?;
    check_blocks(&rt, &mut image);
    assert!(rt; !write(&mut image, 7, &[1; 512]), "the write fails");
    assert_eq!(rt; read(&mut image, 7), None);
    assert!(rt; write(&mut image, 300, &[1; 512]), "the next is made");
    Ok(())
}
