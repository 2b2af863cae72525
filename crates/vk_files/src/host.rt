ghost use Rattle.std.specs.Prelude.{◌≡◌, None, is_some, false};

use crate::files::{Files, Opened, ReadFailed};
use crate::sink::{Sink, WriteFailed};
use std::io::{ErrorKind, Read};
use std::{fs, rt};

/// The files of the host. What they hold is not told. A name is missing where the host finds nothing there; a name
/// that stands for a directory, or that may not be read, is a fault.
#[derive(Drop)]
pub struct HostFiles<'a, R: rt::Files> {
    host: &'a R,
    file: Option<R::File>,
    faults: u64,
}

impl<'a, R: rt::Files> HostFiles<'a, R> {
    pub fn new(host: &'a R) -> HostFiles<'a, R>
        ensures none_found { ⟦<HostFiles<'a, R> as Files>⟧.found result ≡ false }
        ensures no_faults { ⟦<HostFiles<'a, R> as Files>⟧.faults result ≡ 0 }
    {
        HostFiles {
            host,
            file: None,
            faults: 0,
        }
    }
}

impl<R: rt::Files> Files for HostFiles<'_, R> {
    ghost held = { λ _ _. None };

    ghost left = { λ _. None };

    ghost found = { λ f. is_some f.file };

    ghost faults = { λ f. f.faults };

    fn open_file(&mut self, name: &str) -> Result<Opened, ReadFailed> {
        match fs::open(self.host, name) {
            Ok(file) => {
                self.file = Some(file);
                Ok(Opened::Found)
            }
            Err(error) => {
                self.file = None;
                if error.kind() == ErrorKind::NotFound {
                    return Ok(Opened::Missing);
                }
                self.faults = self.faults.saturating_add(1);
                Err(ReadFailed)
            }
        }
    }

    fn read(&mut self, buf: &mut [u8]) -> Result<usize, ReadFailed> {
        let Some(file) = &mut self.file else {
            unreachable!();
        };
        match file.read(buf) {
            Ok(count) => Ok(count),
            Err(_) => {
                self.faults = self.faults.saturating_add(1);
                Err(ReadFailed)
            }
        }
    }
}

/// The standard output of the host. What it took is not told.
#[derive(Drop)]
pub struct HostSink<'a, R: Print> {
    host: &'a R,
    faults: u64,
}

impl<'a, R: Print> HostSink<'a, R> {
    pub fn new(host: &'a R) -> HostSink<'a, R>
        ensures { ⟦<HostSink<'a, R> as Sink>⟧.faults result ≡ 0 }
    {
        HostSink { host, faults: 0 }
    }
}

impl<R: Print> Sink for HostSink<'_, R> {
    ghost written = { λ _. None };

    ghost faults = { λ s. s.faults };

    fn write(&mut self, bytes: &[u8]) -> Result<usize, WriteFailed> {
        match self.host.write_some(bytes) {
            Ok(count) if count > 0 || bytes.is_empty() => Ok(count),
            _ => {
                self.faults = self.faults.saturating_add(1);
                Err(WriteFailed)
            }
        }
    }
}
