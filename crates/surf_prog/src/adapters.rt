// The outside as it is: files and the standard streams. Nothing is told of what they hold.
ghost use Rattle.std.specs.Prelude.{◌≡◌, ◌≤◌, None, length, IfOk};

use std::alloc::Global;
use std::io::Read;
use std::rt::Files;
use std::{fs, io};
use surf_base::{Shelf, ShelfError, Sink, SinkFailed};

// How much is read at once, in bytes.
const CHUNK: usize = 4096;

/// The files of the system by their names. One count stands for the faults of every name.
#[derive(Drop)]
pub struct FileShelf<'a, R: Files> {
    files: &'a R,
    faults: u64,
}

impl<'a, R: Files> FileShelf<'a, R> {
    /// No fault is counted yet.
    pub fn new(files: &'a R) -> Self
        ensures { result.faults ≡ 0 }
    {
        FileShelf { files, faults: 0 }
    }
}

// Why a file wasn't read to its end.
#[derive(Clone, Copy)]
enum Unread {
    Failed,
    TooLong,
    Memory,
}

// The bytes of an opened file, up to its end.
fn read_all<F: Read>(alloc: Global, file: &mut F, limit: u32) -> Result<Vec<u8>, Unread>
    ensures { IfOk result (λ bytes. length bytes.items ≤ limit) }
{
    let mut bytes = Vec::new(alloc);
    let mut chunk = [0u8; CHUNK];
    'chunks: for _ in 0..u64::MAX {
        let Ok(count) = file.read(&mut chunk) else {
            return Err(Unread::Failed);
        };
        if count == 0 {
            return Ok(bytes);
        }
        if count > limit as usize - bytes.len() {
            return Err(Unread::TooLong);
        }
        if bytes.extend_from_slice(&chunk[..count]).is_err() {
            return Err(Unread::Memory);
        }
    }
    Err(Unread::Failed)
}

impl<R: Files> Shelf for FileShelf<'_, R> {
    ghost file = { λ shelf name. None };

    ghost faults = { λ shelf name. shelf.faults };

    ghost SharesCount = { λ shelf name other. Unit {0} };

    fn read(&mut self, alloc: Global, name: &str, limit: u32) -> Result<Vec<u8>, ShelfError> {
        let unread = match fs::open(self.files, name) {
            Ok(mut file) => match read_all(alloc, &mut file, limit) {
                Ok(bytes) => return Ok(bytes),
                Err(unread) => unread,
            },
            Err(error) if error.kind() == io::ErrorKind::OutOfMemory => Unread::Memory,
            Err(_) => Unread::Failed,
        };
        match unread {
            Unread::Failed => {
                self.faults = self.faults.saturating_add(1);
                Err(ShelfError::Failed)
            }
            Unread::TooLong => Err(ShelfError::TooLong(limit)),
            Unread::Memory => Err(ShelfError::Memory),
        }
    }
}

/// A standard stream.
#[derive(Drop)]
pub struct StreamSink<S: Print> {
    stream: S,
    faults: u64,
}

impl<S: Print> StreamSink<S> {
    /// No fault is counted yet.
    pub fn new(stream: S) -> Self
        ensures { result.faults ≡ 0 }
    {
        StreamSink { stream, faults: 0 }
    }
}

// Writes the whole piece, and says whether the stream took it.
fn write_whole<S: Print>(stream: &S, piece: &[u8]) -> bool {
    let mut rest = piece;
    while !rest.is_empty() {
        match stream.write_some(rest) {
            Ok(count) if count > 0 => rest = &rest[count..],
            _ => return false,
        }
    }
    true
}

impl<S: Print> Sink for StreamSink<S> {
    ghost written = { λ sink. None };

    ghost faults = { λ sink. sink.faults };

    fn write(&mut self, piece: &[u8]) -> Result<(), SinkFailed> {
        if write_whole(&self.stream, piece) {
            return Ok(());
        }
        self.faults = self.faults.saturating_add(1);
        Err(SinkFailed)
    }
}
