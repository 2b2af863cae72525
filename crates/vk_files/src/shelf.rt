ghost use Rattle.std.specs.Prelude.{◌≡◌, ◌<◌, IfSome, None, is_some, length, take, drop};
ghost use Rattle.std.specs.List.{position};
ghost use Rattle.vk_files.specs.Memory.{has_name, first_named, unread, opened_as, moved};

use crate::files::Opened;

/// The file that is open, by its place, and how many of its bytes are read.
#[derive(Clone, Copy)]
pub(crate) struct Reading {
    file: usize,
    read: usize,
}

/// Named files, and how far one of them is read. A read gives at most `piece` bytes.
#[derive(Drop)]
pub(crate) struct Shelf {
    files: Vec<(String, Vec<u8>)>,
    piece: usize,
    reading: Option<Reading>,
    ghost gives_some: { 0 < piece },
}

impl Shelf {
    pub(crate) fn new(files: Vec<(String, Vec<u8>)>, piece: usize) -> Shelf
        requires { 0 < piece }
        ensures files { result.files ≡ files }
        ensures piece { result.piece ≡ piece }
        ensures closed { result.reading ≡ None }
    {
        Shelf {
            files,
            piece,
            reading: None,
        }
    }

    /// Opens the first file of this name.
    pub(crate) fn open_file(&mut self, name: &str) -> Opened
        ensures answer { result ≡ opened_as (first_named self.old.files.items name.now) }
        ensures left { IfSome (first_named self.old.files.items name.now) (λ bytes. unread self.new.files.items self.new.reading ≡ bytes) }
        ensures is_open { is_some self.new.reading ≡ is_some (first_named self.old.files.items name.now) }
        ensures files { self.new.files ≡ self.old.files }
        ensures piece { self.new.piece ≡ self.old.piece }
    {
        match place_of(&self.files, name) {
            Some(file) => {
                self.reading = Some(Reading { file, read: 0 });
                Opened::Found
            }
            None => {
                self.reading = None;
                Opened::Missing
            }
        }
    }

    pub(crate) fn close(&mut self)
        ensures closed { self.new.reading ≡ None }
        ensures files { self.new.files ≡ self.old.files }
        ensures piece { self.new.piece ≡ self.old.piece }
    {
        self.reading = None;
    }

    /// Reads on in the open file.
    pub(crate) fn read(&mut self, buf: &mut [u8]) -> usize
        ensures count { result ≡ moved self.old.piece (length buf.old) (length (unread self.old.files.items self.old.reading)) }
        ensures front { take result buf.new ≡ take result (unread self.old.files.items self.old.reading) }
        ensures rest { unread self.new.files.items self.new.reading ≡ drop result (unread self.old.files.items self.old.reading) }
        ensures stays_open { is_some self.new.reading ≡ is_some self.old.reading }
        ensures files { self.new.files ≡ self.old.files }
        ensures piece { self.new.piece ≡ self.old.piece }
    {
        let Some(reading) = self.reading else {
            return 0;
        };
        let rest = rest_of(&self.files, reading);
        let count = self.piece.min(buf.len()).min(rest.len());
        buf[..count].copy_from_slice(&rest[..count]);
        self.reading = Some(Reading {
            file: reading.file,
            read: reading.read + count,
        });
        count
    }
}

/// The place of the first file of this name.
fn place_of(files: &[(String, Vec<u8>)], name: &str) -> Option<usize>
    ensures { result ≡ position (has_name name.now) files.now }
{
    files.iter().position(|file| file.0.as_str() == name)
}

/// What is unread of a file.
fn rest_of(files: &[(String, Vec<u8>)], reading: Reading) -> &[u8]
    ensures { result.now ≡ unread files.now (Some reading) }
{
    match files.get(reading.file) {
        Some(file) => file.1.get(reading.read..).unwrap_or(&[]),
        None => &[],
    }
}
