//! What no clause says of the adapters.
use rx_ports::{Failed, FileShelf, Shelf, Sink, StdSink, put_all};
use std::fs;
use std::io::{self, ErrorKind, Write};

/// A writer that takes a few bytes at a time, and records its calls, `w` for a write and `f` for a flush. Its flushes fail
/// where it is broken.
#[derive(Drop)]
struct Recorder<'a> {
    taken: &'a mut Vec<u8>,
    calls: &'a mut Vec<u8>,
    most: usize,
    is_broken: bool,
}

impl Write for Recorder<'_> {
    fn write(&mut self, piece: &[u8]) -> io::Result<usize> {
        let count = piece.len().min(self.most);
        self.calls.extend_from_slice(b"w")?;
        self.taken.extend_from_slice(&piece[..count])?;
        Ok(count)
    }

    fn flush(&mut self) -> io::Result<()> {
        self.calls.extend_from_slice(b"f")?;
        if self.is_broken {
            return Err(io::Error::from(ErrorKind::Other));
        }
        Ok(())
    }
}

#[test]
fn std_sink_writes_and_flushes(rt: HostRuntime) {
    let mut taken = Vec::new(rt.alloc());
    let mut calls = Vec::new(rt.alloc());
    let mut sink = StdSink::new(Recorder {
        taken: &mut taken,
        calls: &mut calls,
        most: 3,
        is_broken: false,
    });
    assert!(rt; put_all(&mut sink, b"eight by") == Ok(()));
    assert!(rt;
        taken.as_slice() == b"eight by".as_slice() && calls.as_slice() == b"wfwfwf".as_slice()
    );
}

/// Whether a write's flush fails, and what comes of the write.
const WRITES: &[(bool, Result<usize, Failed>)] = &[(false, Ok(5)), (true, Err(Failed))];

#[test]
fn std_sink_flushes_behind_a_write(rt: HostRuntime) {
    for (is_broken, answer) in WRITES {
        let mut taken = Vec::new(rt.alloc());
        let mut calls = Vec::new(rt.alloc());
        let mut sink = StdSink::new(Recorder {
            taken: &mut taken,
            calls: &mut calls,
            most: 9,
            is_broken: *is_broken,
        });
        assert!(rt; sink.write(b"piece") == *answer);
        assert!(rt; calls.as_slice() == b"wf".as_slice());
    }
}

/// A call of a shelf: a file is started, or a buffer of so many bytes is read into.
#[derive(Clone, Copy)]
enum Call {
    Start(&'static str, Result<(), Failed>),
    Read(usize, Result<usize, Failed>, &'static str),
}

const TEN: &str = "rx_ports_file_shelf_reads_a_file";

const PLACED: &str = "rx_ports_file_shelf_keeps_its_place";

/// A name is taken as it is.
const SPACED: &str = " rx_ports file_shelf_takes_a_name_as_it_is ";

const NO_FILE: &str = "rx_ports_no_such_file";

/// Calls, what each answers, and with what the buffer begins then.
const CALLS: &[&[Call]] = &[
    &[
        Call::Read(7, Ok(0), ""),
        Call::Start(TEN, Ok(())),
        Call::Read(7, Ok(7), "ten byt"),
        Call::Read(7, Ok(3), "es."),
        Call::Read(7, Ok(0), ""),
        Call::Start(NO_FILE, Err(Failed)),
    ],
    &[
        Call::Start(PLACED, Ok(())),
        Call::Read(4, Ok(4), "plac"),
        Call::Start(NO_FILE, Err(Failed)),
        Call::Read(4, Ok(2), "ed"),
        Call::Start(PLACED, Ok(())),
        Call::Read(4, Ok(4), "plac"),
    ],
    &[
        Call::Start(SPACED, Ok(())),
        Call::Read(9, Ok(6), "spaced"),
        Call::Start("rx_ports file_shelf_takes_a_name_as_it_is", Err(Failed)),
    ],
    // a read that fails
    &[
        Call::Start(".", Ok(())),
        Call::Read(9, Err(Failed), ""),
        Call::Read(9, Err(Failed), ""),
    ],
];

const FILES: &[(&str, &str)] = &[(TEN, "ten bytes."), (PLACED, "placed"), (SPACED, "spaced")];

fn is_answered(shelf: &mut impl Shelf, call: Call) -> bool {
    match call {
        Call::Start(name, answer) => shelf.start_file(name) == answer,
        Call::Read(size, answer, text) => {
            let mut buf = [0u8; 9];
            let read = shelf.read(&mut buf[..size.min(9)]);
            read == answer && buf.starts_with(text.as_bytes())
        }
    }
}

fn are_answered(shelf: &mut impl Shelf, calls: &[Call]) -> bool {
    for call in calls {
        if !is_answered(shelf, *call) {
            return false;
        }
    }
    true
}

#[test]
fn file_shelf_reads_files(rt: HostRuntime) {
    for (name, text) in FILES {
        fs::write(&rt, *name, text.as_bytes()).expect(&rt, "a file");
    }
    for calls in CALLS {
        let mut shelf = FileShelf::new(&rt);
        assert!(rt; are_answered(&mut shelf, *calls));
        drop(shelf);
    }
    for (name, _text) in FILES {
        fs::remove_file(&rt, *name).expect(&rt, "a file");
    }
}

fn is_filled(shelf: &mut impl Shelf, name: &str) -> bool {
    let mut buf = [0u8; 10_001];
    shelf.start_file(name) == Ok(())
        && shelf.read(&mut buf) == Ok(10_000)
        && buf.iter().filter(|byte| **byte == 7).count() == 10_000
        && shelf.read(&mut buf) == Ok(0)
}

#[test]
fn file_shelf_fills_a_large_buffer(rt: HostRuntime) {
    let name = "rx_ports_file_shelf_fills_a_large_buffer";
    fs::write(&rt, name, &[7u8; 10_000]).expect(&rt, "a file");
    let mut shelf = FileShelf::new(&rt);
    assert!(rt; is_filled(&mut shelf, name));
    drop(shelf);
    fs::remove_file(&rt, name).expect(&rt, "a file");
}
