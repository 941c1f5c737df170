// A file's bytes, or those of the standard input, or why they can't be had.
use answers::reasons::FileFault;
use std::fs::File;
use std::io;
use std::io::{Error, ErrorKind, Read};
use std::rt::Files;
use std::str::from_utf8;

// Why a call failed.
fn reason(error: Error) -> FileFault {
    match error.kind() {
        ErrorKind::NotFound => FileFault::NoSuchFile,
        ErrorKind::IsADirectory => FileFault::IsAFolder,
        ErrorKind::PermissionDenied => FileFault::NotAllowed,
        ErrorKind::InvalidFilename => FileFault::LongPath,
        _ => FileFault::ReadFailed,
    }
}

// Reads as much of a file as there is room for, and tells how many bytes stand in it. A name that is no UTF-8 is that of no file.
pub(crate) fn read<R: Files>(rt: &R, path: &[u8], mut room: &mut [u8]) -> Result<usize, FileFault> {
    let name = from_utf8(path).map_err(|_| FileFault::NoSuchFile)?;
    let file = File::open(rt, name).map_err(reason)?;
    let size = io::copy(&mut file.take(room.len() as u64), &mut room).map_err(reason)?;
    Ok(size as usize)
}

// The same of the standard input.
pub(crate) fn read_input<R: Input>(rt: &R, mut room: &mut [u8]) -> Result<usize, FileFault> {
    let input = rt.reader();
    let size = io::copy(&mut input.take(room.len() as u64), &mut room).map_err(reason)?;
    Ok(size as usize)
}
