//! Files of the system, commands on them, and standard output.
use crate::commands::words;
use crate::rows::Piece::{Flag, Number, Text};
use crate::rows::{Rows, shown};
use sloth_cli::run_words;
use sloth_io::{FileStore, MemSink, OutSink, Sink, Store, StoreFault};
use std::fs;
use std::fs::Permissions;
use std::io::Input;
use std::os::unix::fs::{PermissionsExt, symlink};
use std::rt::Files;

/// The most bytes of a picture.
const LIMIT: usize = 1_000_000;

// What is read of a file of at most this length, or why it is not read.
fn list_read<R: Files>(rows: &mut Rows, files: &mut FileStore<'_, R>, name: &str, limit: usize) {
    let mut bytes = Vec::new(rows.alloc);
    let read = match files.read(name, limit, &mut bytes) {
        Ok(()) => shown(bytes.as_slice()),
        Err(StoreFault::Failed) => "Failed",
        Err(StoreFault::TooLong) => "TooLong",
        Err(StoreFault::Memory) => "Memory",
    };
    form!(rows; "% %\n"; Text(name), Text(read));
}

// Whether two files hold the same bytes.
fn is_equal<R: Files>(rows: &Rows, files: &mut FileStore<'_, R>, one: &str, other: &str) -> bool {
    let (mut first, mut second) = (Vec::new(rows.alloc), Vec::new(rows.alloc));
    let _ = files.read(one, LIMIT, &mut first);
    let _ = files.read(other, LIMIT, &mut second);
    first == second
}

// Whether a line is put to standard output, which holds it back until it is handed on, or to an output in memory.
fn list_put(rt: &impl Print, rows: &mut Rows, is_memory: bool) {
    if !is_memory {
        let mut out = OutSink::new(rt);
        let put = out.put(b"a line\n").is_ok();
        let flushed = out.flush().is_ok();
        form!(rows; "put % flushed %\n"; Flag(put), Flag(flushed));
    } else if let Ok(out) = MemSink::new(rows.alloc, 100, &[]) {
        let mut out = out;
        let put = out.put(b"line\n").is_ok();
        form!(rows; "put % %\n"; Flag(put); out.taken().len());
    }
}

// Makes a file or a link, or sets the mode of a file; or prints what a file is.
fn act_on_system<R: Files>(rt: &R, rows: &mut Rows, word: &str, name: &str, rest: &str) {
    match word {
        "make" => {
            let _ = fs::write(rt, name, rest.as_bytes());
        }
        "link" => {
            let _ = symlink(rt, name, rest);
        }
        "chmod" => {
            let mode = Permissions::from_mode(rest.parse::<u32>().unwrap_or(0));
            let _ = fs::set_permissions(rt, name, mode);
        }
        "mode" => {
            if let Ok(found) = fs::metadata(rt, name) {
                form!(rows; "% mode %\n"; Text(name); found.permissions().mode() & 0o777);
            }
        }
        _ => {
            if let Ok(found) = fs::symlink_metadata(rt, name) {
                form!(rows; "% stays %\n"; Text(name), Flag(found.is_symlink()));
            }
        }
    }
}

// Reads, writes or compares files by the store of the program; else changes the system.
fn act<R: Files>(rt: &R, rows: &mut Rows, files: &mut FileStore<'_, R>, word: &str, rest: &str) {
    let (name, rest) = rest.split_once(' ').unwrap_or((rest, ""));
    match word {
        "read" => list_read(rows, files, name, rest.parse::<usize>().unwrap_or(0)),
        "write" => {
            let written = files.write(name, b"new").is_ok();
            form!(rows; "% written %\n"; Text(name), Flag(written));
        }
        "failed" =>
            form!(rows; "failed reads %\n"; Number(i64::try_from(files.failed_reads()).unwrap_or(i64::MAX))),
        "same" =>
            form!(rows; "% is % %\n"; Text(name), Text(rest), Flag(files.is_same(name, rest))),
        "equal" => {
            let (other, title) = rest.split_once(' ').unwrap_or((rest, ""));
            let equal = is_equal(rows, files, name, other);
            form!(rows; "% %\n"; Text(title), Flag(equal))
        }
        _ => act_on_system(rt, rows, word, name, rest),
    }
}

/// Does what lines say on files of the system, and prints what comes of it: `run`, and a command, whose status is
/// printed; `put` to an output; or what is done to a file.
pub fn list_system(rt: &(impl Files + Print + Input + AllocGlobal), rows: &mut Rows, lines: &str) {
    rows.print(rt);
    let mut files = FileStore::new(rt, rt.alloc());
    for line in lines.lines() {
        let (word, rest) = line.split_once(' ').unwrap_or((line, ""));
        match word {
            "run" => {
                let words = words(rows.alloc, rest);
                let status = run_words(rt, words.as_slice());
                rows.numbers("status", &[status.code().into()]);
            }
            "put" => list_put(rt, rows, rest == "memory"),
            _ => act(rt, rows, &mut files, word, rest),
        }
        rows.print(rt);
    }
}
