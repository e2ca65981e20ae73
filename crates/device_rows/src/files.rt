//! The disk over a file: what the file holds then, writes that are cut short, and calls that fail.
use slot_disk::{BODY_LEN, Disk, Failed, FileDisk};
use std::fs;
use std::fs::{File, OpenOptions};
use std::os::unix::fs::FileExt;
use std::test::Fail;

/// A new file of zeros, and a second handle of it. The folder has it no more.
fn file_of(rt: &HostRuntime, path: &str, size: u64) -> Result<(File, File), Fail> {
    let file = OpenOptions::new()
        .read(true)
        .write(true)
        .create(true)
        .truncate(true)
        .open(rt, path)?;
    file.set_len(size)?;
    let other = OpenOptions::new().read(true).open(rt, path)?;
    fs::remove_file(rt, path)?;
    Ok((file, other))
}

/// What a file of 400 bytes holds after each write, as another handle reads it.
#[test]
fn a_file_holds_what_was_written(rt: HostRuntime) -> Result<(), Fail> {
    let (file, other) = file_of(&rt, "slot_disk_test_ranges", 400)?;
    let mut disk = FileDisk::new(file, 400);
    let mut want = [0; 400];
    for (at, count, byte) in [
        (0, 1, 1),
        (399, 1, 2),
        (1, 192, 3),
        (208, 192, 4),
        (100, 150, 5),
        (300, 0, 6),
    ] {
        assert!(rt; count <= BODY_LEN && at + count <= 400 && disk.size() == 400);
        let piece = [byte; BODY_LEN];
        disk.write(at as u64, &piece[..count])?;
        want[at..at + count].fill(byte);
        let mut whole = [0; 400];
        other.read_exact_at(&mut whole, 0)?;
        assert!(rt; whole == want, "after the write at {at}");
        let mut part = [0; 100];
        disk.read(150, &mut part)?;
        assert!(rt; part.as_slice() == &want[150..250]);
    }
    Ok(())
}

/// Where a file system has no room for the whole of a piece it takes its front alone.
#[test]
fn a_write_that_is_cut_short_fails(rt: HostRuntime) -> Result<(), Fail> {
    let (file, other) = file_of(&rt, "slot_disk_test_ends", 0)?;
    let mut disk = FileDisk::new(file, u64::MAX);
    // The last bytes that file systems give to a file.
    for end in [(1 << 63) - 1, 17_592_186_040_320] {
        let at = end - 10;
        assert!(rt; at < 1 << 63 && disk.size() == u64::MAX);
        if disk.write(at, b"twenty bytes of text").is_ok() {
            let mut found = [0; 20];
            other.read_exact_at(&mut found, at)?;
            assert!(rt; found == *b"twenty bytes of text");
        }
    }
    Ok(())
}

#[test]
fn a_file_that_fails_is_told(rt: HostRuntime) -> Result<(), Fail> {
    let (_, other) = file_of(&rt, "slot_disk_test_faults", 100)?;
    let mut disk = FileDisk::new(other, 200);
    // The file was opened for reading alone, and ends before its disk.
    assert_eq!(rt; disk.write(0, b"x"), Err(Failed));
    for (at, want) in [(0, Ok(())), (50, Err(Failed)), (0, Ok(()))] {
        assert!(rt; at <= 100 && disk.size() == 200);
        let mut out = [0; 100];
        assert_eq!(rt; disk.read(at, &mut out), want);
    }
    Ok(())
}
