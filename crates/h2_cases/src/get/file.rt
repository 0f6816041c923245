//! The files of a run in memory: one, whose name is `file`.

use super::memory::{Call, Memory};
use std::alloc::Allocator;
use std::fs::{Files, Metadata, OpenFile, OpenOptions};
use std::io::{self, ErrorKind, Read, Seek, SeekFrom, Write};

/// A file.
#[derive(Drop)]
pub(crate) struct MemoryFile<'a> {
    memory: Memory<'a>,
    unread: &'a [u8],
}

// What calls answer that no case makes.
fn unsupported<T>() -> io::Result<T> {
    Err(io::Error::from(ErrorKind::Unsupported))
}

impl<'a> Memory<'a> {
    // The file as it is read.
    fn file(self) -> io::Result<MemoryFile<'a>> {
        match &self.setup.file {
            Some(octets) => Ok(MemoryFile {
                memory: self,
                unread: octets,
            }),
            None => Err(io::Error::from(ErrorKind::NotFound)),
        }
    }

    // The file once it is created, without octets.
    fn created(self) -> MemoryFile<'a> {
        self.left.filed.set(Some(Vec::new(self.setup.alloc)));
        MemoryFile {
            memory: self,
            unread: &[],
        }
    }
}

impl<'a> Files for Memory<'a> {
    type File = MemoryFile<'a>;

    type Dir = MemoryFile<'a>;

    fn open_file(&self, how: &OpenOptions, path: &str) -> io::Result<MemoryFile<'a>> {
        match (path == "file", how.asks_write()) {
            (true, true) => Ok(self.created()),
            (true, false) => self.file(),
            (false, _) => Err(io::Error::from(ErrorKind::NotFound)),
        }
    }

    fn open_dir(&self, _path: &str) -> io::Result<MemoryFile<'a>> {
        unsupported()
    }

    fn metadata(&self, _path: &str) -> io::Result<Metadata> {
        unsupported()
    }

    fn symlink_metadata(&self, _path: &str) -> io::Result<Metadata> {
        unsupported()
    }

    fn copy(&self, _from: &str, _to: &str) -> io::Result<u64> {
        unsupported()
    }

    fn rename(&self, _from: &str, _to: &str) -> io::Result<()> {
        unsupported()
    }

    fn remove_file(&self, _path: &str) -> io::Result<()> {
        unsupported()
    }

    fn create_dir(&self, _path: &str) -> io::Result<()> {
        unsupported()
    }

    fn remove_dir(&self, _path: &str) -> io::Result<()> {
        unsupported()
    }

    fn remove_dir_all<B: Allocator>(&self, _alloc: B, _path: &str) -> io::Result<()> {
        unsupported()
    }
}

impl Read for MemoryFile<'_> {
    fn read(&mut self, buf: &mut [u8]) -> io::Result<usize> {
        let count = buf.len().min(self.unread.len());
        buf[..count].copy_from_slice(&self.unread[..count]);
        self.unread = &self.unread[count..];
        Ok(count)
    }
}

impl Write for MemoryFile<'_> {
    fn write(&mut self, buf: &[u8]) -> io::Result<usize> {
        self.memory.turn(Call::File)?;
        let filed = &self.memory.left.filed;
        let mut octets = match filed.replace(None) {
            Some(octets) => octets,
            None => Vec::new(self.memory.setup.alloc),
        };
        let added = octets.extend_from_slice(buf);
        filed.set(Some(octets));
        match added {
            Ok(()) => Ok(buf.len()),
            Err(_) => Err(io::Error::from(ErrorKind::OutOfMemory)),
        }
    }

    fn flush(&mut self) -> io::Result<()> {
        Ok(())
    }
}

impl Seek for MemoryFile<'_> {
    fn seek(&mut self, _to: SeekFrom) -> io::Result<u64> {
        unsupported()
    }
}

impl OpenFile for MemoryFile<'_> {
    fn metadata(&self) -> io::Result<Metadata> {
        unsupported()
    }

    fn set_len(&self, _size: u64) -> io::Result<()> {
        unsupported()
    }

    fn sync_all(&self) -> io::Result<()> {
        unsupported()
    }

    fn sync_data(&self) -> io::Result<()> {
        unsupported()
    }
}
