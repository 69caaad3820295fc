// A descriptor's file, which its first read opens anew. Until then it takes no descriptor: one opened earlier would get the number of a standard stream that is
// closed.
use crate::held::Held;
use std::fs::{File, OpenOptions};
use std::io::{ErrorKind, Read, Seek, SeekFrom};
use std::os::unix::fs::FileTypeExt;
use std::{fs, io};

#[derive(Drop)]
pub(crate) struct Late<'a> {
    rt: &'a HostRuntime,
    path: &'a str,
    info: &'a str,
    file: Option<File>,
}

impl<'a> Late<'a> {
    // `path` leads to the descriptor's file, and `info` to what the system tells of the descriptor.
    pub(crate) fn new(rt: &'a HostRuntime, path: &'a str, info: &'a str) -> Late<'a> {
        Late {
            rt,
            path,
            info,
            file: None,
        }
    }
}

impl<'a> Read for Late<'a> {
    fn read(&mut self, buf: &mut [u8]) -> io::Result<usize> {
        if let Some(file) = &mut self.file {
            return file.read(buf);
        }
        let mut file = open(self.rt, self.path, self.info)?;
        let got = file.read(buf);
        self.file = Some(file);
        got
    }
}

// The file of a descriptor that may be read, at the descriptor's position.
fn open(rt: &HostRuntime, path: &str, info: &str) -> io::Result<File> {
    let held = Held::read_at(rt, info)?;
    if !held.may_be_read() {
        return Err(io::Error::from(ErrorKind::PermissionDenied));
    }
    let other = other_end(rt, path)?;
    let mut file = File::open(rt, path)?;
    drop(other);
    go_to(&mut file, held.position())?;
    Ok(file)
}

// A pipe opened for writing too, which waits for nobody. As long as it is held, opening a pipe with a name for reading does not wait for a writer: the last one may
// have ended, with its bytes still in the pipe. `None` where the file is no pipe, or may not be written.
fn other_end(rt: &HostRuntime, path: &str) -> io::Result<Option<File>> {
    if fs::metadata(rt, path)?.file_type().is_fifo() {
        Ok(
            OpenOptions::new()
                .read(true)
                .write(true)
                .open(rt, path)
                .ok(),
        )
    } else {
        Ok(None)
    }
}

// At its beginning a file is as it is opened. So a pipe, which has no other place, need not be moved.
fn go_to(file: &mut File, position: u64) -> io::Result<()> {
    if position != 0 {
        file.seek(SeekFrom::Start(position))?;
    }
    Ok(())
}
