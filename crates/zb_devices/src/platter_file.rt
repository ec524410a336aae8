// The file of a platter.
ghost use Rattle.std.specs.Prelude.{◌≤◌, ◌+◌, ◌^◌, length};

use std::alloc::Global;
use std::fs::{File, OpenOptions};
use std::io::ErrorKind;
use std::os::unix::fs::FileExt;
use std::rt::Files;
use zb_types::Failed;

// Makes the names in the current folder last.
fn sync_folder<F: Files<File = File>>(files: &F) -> Result<(), Failed> {
    match OpenOptions::new().read(true).open(files, ".") {
        Ok(folder) => sync_all(&folder),
        Err(_) => Err(Failed),
    }
}

fn sync_all(file: &File) -> Result<(), Failed> {
    file.sync_all().map_err(|_| Failed)
}

/// Opens the file of a platter, or says that there is none.
pub fn open_file<F: Files<File = File>>(
    files: &F,
    alloc: Global,
    platter: usize,
) -> Result<Option<File>, Failed> {
    let Ok(path) = format!(in alloc; "platter{platter}") else {
        return Err(Failed);
    };
    match OpenOptions::new()
        .read(true)
        .write(true)
        .open(files, path.as_str())
    {
        Ok(file) => Ok(Some(file)),
        Err(error) => {
            if error.kind() != ErrorKind::NotFound {
                return Err(Failed);
            }
            Ok(None)
        }
    }
}

/// Makes the file of a platter anew. It isn't settled yet.
pub fn create_file<F: Files<File = File>>(
    files: &F,
    alloc: Global,
    platter: usize,
) -> Result<File, Failed> {
    let Ok(path) = format!(in alloc; "platter{platter}") else {
        return Err(Failed);
    };
    let mut how = OpenOptions::new();
    how.read(true).write(true).create(true).truncate(true);
    how.open(files, path.as_str()).map_err(|_| Failed)
}

/// Makes a new file and its name last.
pub fn settle_file<F: Files<File = File>>(files: &F, file: &File) -> Result<(), Failed> {
    sync_all(file)?;
    sync_folder(files)
}

/// Fills the buffer from that place on, and with zeros past the end.
pub fn read_file(file: &File, place: u64, buf: &mut [u8]) -> Result<(), Failed>
    requires { place + length buf.old ≤ 2 ^ 63 }
{
    let mut done = 0;
    'tries: for _ in 0..u64::MAX {
        let (_, rest) = buf.split_at_mut(done);
        if rest.is_empty() {
            return Ok(());
        }
        match file.read_at(rest, place + done as u64) {
            Ok(0) => {
                rest.fill(0);
                return Ok(());
            }
            Ok(n) => done += n,
            Err(error) => {
                if error.kind() != ErrorKind::Interrupted {
                    return Err(Failed);
                }
            }
        }
    }
    Err(Failed)
}

// Makes the file end no earlier than there.
fn extend_file(file: &File, end: u64) -> Result<(), Failed> {
    match file.metadata() {
        Ok(found) => {
            if end <= found.len() {
                return Ok(());
            }
            file.set_len(end).map_err(|_| Failed)
        }
        Err(_) => Err(Failed),
    }
}

/// Writes all of the bytes from that place on by one call of the system, after zeros from the end up to there.
pub fn write_file(file: &File, place: u64, bytes: &[u8]) -> Result<(), Failed> {
    if bytes.is_empty() {
        return extend_file(file, place);
    }
    for _ in 0..u64::MAX {
        match file.write_at(bytes, place) {
            Ok(n) => {
                return if n == bytes.len() {
                    Ok(())
                } else {
                    Err(Failed)
                };
            }
            Err(error) => {
                if error.kind() != ErrorKind::Interrupted {
                    return Err(Failed);
                }
            }
        }
    }
    Err(Failed)
}

/// Makes the bytes of the file and its length last.
pub fn sync_file(file: &File) -> Result<(), Failed> {
    file.sync_data().map_err(|_| Failed)
}
