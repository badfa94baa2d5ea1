//! The files of the system as a shelf.
ghost use Rattle.std.specs.Prelude.{◌≡◌, None};

use crate::counter::raise;
use crate::shelf::{Failed, Shelf};
use std::fs;
use std::io::Read;
use std::marker::Model;
use std::rt::Files;

/// The files of the system, by path. It tells nothing of them. A contract sees its count of faults, which is raised
/// at each error of the system.
#[derive(Drop)]
pub struct FileShelf<'a, R: Files> {
    files: &'a R,
    started: Option<R::File>,
    faults: u64,
}

impl<'a, R: Files> Model for FileShelf<'a, R> {
    ghost use Rattle.std.specs.Prelude.{ℕ};

    ghost Value = { ℕ };

    ghost view = { λ shelf. shelf.faults };
}

impl<'a, R: Files> FileShelf<'a, R> {
    /// The system's files, with nothing started and no fault so far.
    pub fn new(rt: &'a R) -> FileShelf<'a, R>
        ensures { result ≡ 0 }
    {
        FileShelf {
            files: rt,
            started: None,
            faults: 0,
        }
    }
}

impl<'a, R: Files> Shelf for FileShelf<'a, R> {
    ghost told = { λ shelf. None };

    ghost faults = { λ shelf. shelf };

    fn start_file(&mut self, name: &str) -> Result<(), Failed> {
        match fs::open(self.files, name) {
            Ok(file) => {
                self.started = Some(file);
                Ok(())
            }
            Err(_error) => {
                self.faults = raise(self.faults);
                Err(Failed)
            }
        }
    }

    fn read(&mut self, buf: &mut [u8]) -> Result<usize, Failed> {
        match &mut self.started {
            Some(file) => match file.read(buf) {
                Ok(count) => Ok(count),
                Err(_error) => {
                    self.faults = raise(self.faults);
                    Err(Failed)
                }
            },
            None => Ok(0),
        }
    }
}
