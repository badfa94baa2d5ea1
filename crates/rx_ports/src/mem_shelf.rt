//! A shelf in memory.
ghost use Rattle.std.specs.Prelude.{◌≡◌, ◌+◌, ◌^◌, ◌<◌, ◌≤◌, ◌⊎◌, IfOk, OnOk, OnErr, MatchResult, Some, length, take};
ghost use Rattle.rx_ports.specs.Counts.{Rose, count_raised};
ghost use Rattle.rx_ports.specs.Shelves.{WhereKnown, Starts, ShelfReads, Lacks};
ghost use Rattle.rx_ports.specs.MemShelf.{MemoryShelf, new_shelf, shelf_content, started_shelf, start_gives, after_read, read_gives, left_of, IsFilePlace};

use crate::counter::raise;
use crate::file_list::FileList;
use crate::shelf::{Failed, Shelf};
use std::marker::Model;

/// A shelf in memory, which fails when it is told to. A contract sees all of it.
///
/// The calls of `start_file` and `read` together are numbered from 1, and the number stays at 2^64 - 1 once it is
/// reached. Of two files of one name the first counts. With nothing started nothing is left. A start or a read that
/// would take a count past what a `u64` holds is a fault.
#[derive(Drop)]
pub struct MemShelf {
    files: FileList,
    started: Option<usize>,
    at: usize,
    taken: u64,
    starts: u64,
    chunk: usize,
    failing: Vec<u64>,
    calls: u64,
    faults: u64,
}

impl Model for MemShelf {
    ghost use Rattle.std.specs.Prelude.{◌<◌};
    ghost use Rattle.rx_ports.specs.MemShelf.{MemoryShelf, left_of, IsFilePlace};

    ghost Value = { MemoryShelf };

    ghost view = { λ s. record {
      files = s.files;
      left = left_of s.files s.started s.at;
      taken = s.taken;
      starts = s.starts;
      chunk = s.chunk;
      failing = s.failing.items;
      calls = s.calls;
      faults = s.faults;
    } };

    ghost invariant = { λ s. IsFilePlace s.files s.started s.at × (0 < s.chunk) };
}

impl MemShelf {
    /// A shelf of these files that gives at most `chunk` bytes a read, and whose calls of these numbers fail.
    pub fn new(files: FileList, chunk: usize, failing: Vec<u64>) -> MemShelf
        requires { 0 < chunk }
        ensures { result ≡ new_shelf files chunk failing.items }
    {
        MemShelf {
            files,
            started: None,
            at: 0,
            taken: 0,
            starts: 0,
            chunk,
            failing,
            calls: 0,
            faults: 0,
        }
    }
}

/// What is left of the started file.
fn unread(files: &FileList, started: Option<usize>, at: usize) -> &[u8]
    requires { IsFilePlace files.now started at }
    ensures bytes { result.now ≡ left_of files.now started at }
    ensures fits { at + length result.now < 2 ^ 64 }
{
    match started {
        Some(file) => &files.bytes_at(file)[at..],
        None => &[],
    }
}

impl Shelf for MemShelf {
    ghost told = { λ s. Some (shelf_content s) };

    ghost faults = { λ s. s.faults };

    fn start_file(&mut self, name: &str) -> Result<(), Failed>
        ensures result { result ≡ start_gives self.old name.now }
        ensures state { self.new ≡ started_shelf self.old name.now }
        ensures told { WhereKnown (Starts name.now result) (Some (shelf_content self.old)) (Some (shelf_content self.new)) }
        ensures later { self.old.faults ≤ self.new.faults }
        ensures steady { OnOk result (self.new.faults ≡ self.old.faults) }
        ensures cause { OnErr result (Rose self.old.faults self.new.faults ⊎ Lacks (Some (shelf_content self.old)) name.now) }
    {
        self.calls = raise(self.calls);
        let listed = self.failing.contains(&self.calls);
        match self.starts.checked_add(1) {
            Some(starts) if !listed => match self.files.find(name) {
                Some(file) => {
                    self.started = Some(file);
                    self.at = 0;
                    self.starts = starts;
                    Ok(())
                }
                None => Err(Failed),
            },
            _ => {
                self.faults = raise(self.faults);
                Err(Failed)
            }
        }
    }

    fn read(&mut self, buf: &mut [u8]) -> Result<usize, Failed>
        ensures result { result ≡ read_gives self.old (length buf.new) }
        ensures state { self.new ≡ after_read self.old (length buf.new) }
        ensures bytes { IfOk result (λ n. take n buf.new ≡ take n self.old.left) }
        ensures bound { IfOk result (λ n. n ≤ length buf.new) }
        ensures told { WhereKnown (ShelfReads buf.new result) (Some (shelf_content self.old)) (Some (shelf_content self.new)) }
        ensures later { self.old.faults ≤ self.new.faults }
        ensures steady { OnOk result (self.new.faults ≡ self.old.faults) }
        ensures cause { OnErr result (Rose self.old.faults self.new.faults) }
    {
        self.calls = raise(self.calls);
        let left = unread(&self.files, self.started, self.at);
        let count = buf.len().min(self.chunk).min(left.len());
        let listed = self.failing.contains(&self.calls);
        match self.taken.checked_add(count as u64) {
            Some(taken) if !listed => {
                buf[..count].copy_from_slice(&left[..count]);
                self.at += count;
                self.taken = taken;
                Ok(count)
            }
            _ => {
                self.faults = raise(self.faults);
                Err(Failed)
            }
        }
    }
}
