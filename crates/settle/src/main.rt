// Reads design files and prints, of each, the configuration in which its strands settle, or why there is none.
//
// The first argument is --people, --json or --tsv, the second --ordinary or --archive, the rest are names of files. Whether all files were settled goes
// to descriptor 3, as 0 or 1, where the script `settle` reads it. The exit status says only how the program ended.
#![tactic(auto)]

mod encoding;
mod file;
mod found;
mod reads;
mod report;
mod settle;

ghost use Rattle.std.specs.Prelude.{◌≡◌, false, length, OnOk, IfOk};
ghost use Rattle.settle.specs.Printed.{PrintedLost, PrintedOf};

use answers::print::{Printer, Style};
use answers::reasons::{FileFault, Why};
use answers::{DesignFile, Found};
use reads::first;
use sdc1d_params::Build;
use statements::LONGEST;
use std::env::{Env, FillError};
use std::fs::OpenOptions;
use std::io;
use std::io::{ErrorKind, Write};
use std::process::ExitCode;
use std::rt::Files;

// Where the script waits for the status.
const STATUS: &str = "/dev/fd/3";

// The exit status that a shell tells of a program which a closed pipe ended.
const PIPE_CLOSED: u8 = 141;

// The exit status where the output can't be written.
const NOT_WRITTEN: u8 = 3;

// What stands for the standard input among the files.
const INPUT: &[u8] = b"-";

// How long an argument is that can be told.
const ARGUMENT: usize = 4096;

// Room for the longest file, and a byte more, so that a longer one is told.
fn room() -> [u8; LONGEST + 1]
    ensures { 1048577 ≡ length result }
{
    [0; LONGEST + 1]
}

// A run over the files that the arguments name, with what the first two ask for. The room for a file's bytes is lent beside it: a call that fills
// a field's slice while another field is lent is not covered.
#[derive(Drop)]
struct Run<'a, R: Env + Files + Print + Alloc + Input> {
    rt: &'a R,
    style: Style,
    which: Build,
}

impl<R: Env + Files + Print + Alloc + Input> Run<'_, R> {
    // A file that can't be had. Answers that it was not settled.
    fn failed<W: Write>(
        &self,
        printer: &mut Printer<'_, W>,
        path: &[u8],
        fault: FileFault,
    ) -> io::Result<bool>
        ensures printed { OnOk result (PrintedLost (W.contents printer.old.out.now) (W.contents printer.new.out.now) self.now.style path.now) }
        ensures answer { IfOk result (λ is_settled. is_settled ≡ false) }
    {
        let file = DesignFile { path, text: b"" };
        let found = Found::nowhere(Why::File(fault));
        printer.unreadable(self.style, file, found, &[])?;
        Ok(false)
    }

    // A file by its name. Answers whether its configuration was settled.
    fn settle_file<W: Write>(
        &self,
        printer: &mut Printer<'_, W>,
        path: &[u8],
        room: &mut [u8],
    ) -> io::Result<bool>
        ensures { OnOk result (PrintedOf (W.contents printer.old.out.now) (W.contents printer.new.out.now) self.now.which self.now.style path.now) }
    {
        let bytes = if path == INPUT {
            file::read_input(self.rt, room)
        } else {
            file::read(self.rt, path, room)
        };
        match bytes {
            Err(fault) => self.failed(printer, path, fault),
            Ok(size) => {
                let text = first(room, size);
                let outcome = settle::settle(self.which, text);
                report::report(printer, self.style, DesignFile { path, text }, outcome)
            }
        }
    }

    // The file that an argument names. What is told of it is written at once.
    fn settle_argument(&self, i: usize, room: &mut [u8]) -> io::Result<bool> {
        let mut told = Vec::new(self.rt.alloc());
        let mut printer = Printer { out: &mut told };
        let mut path = [0u8; ARGUMENT];
        let is_settled = match self.rt.arg(i, &mut path) {
            Ok(size) => self.settle_file(&mut printer, first(&path, size), room)?,
            Err(_) => self.failed(&mut printer, &path, FileFault::LongPath)?,
        };
        self.rt.write_all(&told)?;
        Ok(is_settled)
    }

    // What stands before the first file: of a table its heads.
    fn begin(&self) -> io::Result<()> {
        let Style::Tsv = self.style else {
            return Ok(());
        };
        let mut told = Vec::new(self.rt.alloc());
        let mut printer = Printer { out: &mut told };
        printer.heads()?;
        self.rt.write_all(&told)
    }

    // All files in turn. Answers whether each was settled. The arguments are asked for by number: std's iterator over them copies them all.
    fn settle_all(&self, room: &mut [u8]) -> io::Result<bool> {
        self.begin()?;
        let rt = self.rt;
        let mut all = true;
        for i in (3..usize::MAX).take_while(|i| is_given(rt, *i)) {
            all &= self.settle_argument(i, room)?;
        }
        Ok(all)
    }
}

// Whether there is such an argument.
fn is_given<R: Env>(rt: &R, i: usize) -> bool {
    let mut first = [0u8; 1];
    !matches!(rt.arg(i, &mut first), Err(FillError::NotPresent))
}

// Whether an argument is this word.
fn is_word<R: Env>(rt: &R, i: usize, word: &[u8]) -> bool {
    let mut given = [0u8; ARGUMENT];
    rt.arg(i, &mut given)
        .is_ok_and(|size| first(&given, size) == word)
}

// Writes to the script, where one waits.
fn tell<R: Files>(rt: &R, status: &[u8]) {
    if let Ok(mut script) = OpenOptions::new().write(true).open(rt, STATUS) {
        let _ = script.write_all(status);
    }
}

// A run that could not write ends so: silently where the pipe was closed.
fn ended<R: Eprint>(rt: &R, error: io::Error) -> io::Result<ExitCode> {
    if let ErrorKind::BrokenPipe = error.kind() {
        return Ok(ExitCode::from(PIPE_CLOSED));
    }
    eprintln!(rt; "settle: the output can't be written: {error}")?;
    Ok(ExitCode::from(NOT_WRITTEN))
}

// Settles the files, and writes 0 to the script if each was settled, 1 if not.
fn main(rt: HostRuntime) -> io::Result<ExitCode> {
    let style = if is_word(&rt, 1, b"--json") {
        Style::Json
    } else if is_word(&rt, 1, b"--tsv") {
        Style::Tsv
    } else {
        Style::People
    };
    let which = if is_word(&rt, 2, b"--archive") {
        Build::Archive
    } else {
        Build::Ordinary
    };
    let run = Run {
        rt: &rt,
        style,
        which,
    };
    let mut room = room();
    match run.settle_all(&mut room) {
        Ok(true) => tell(&rt, b"0"),
        Ok(false) => tell(&rt, b"1"),
        Err(error) => return ended(&rt, error),
    }
    Ok(ExitCode::SUCCESS)
}
