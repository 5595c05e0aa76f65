//! Reads the lines of a script from standard input, and prints a reply for each.

#![tactic(auto)]

use drive::{Drive, Reply};
use std::io;
use std::io::{BufRead, BufReader, BufWriter, Write};

/// The end of a line.
const NEWLINE: u8 = b'\n';

/// The reply to a line; bytes that are no text are no line.
fn reply(drive: &mut Drive, line: &[u8]) -> Reply {
    match std::str::from_utf8(line) {
        Ok(text) => drive.run(text),
        Err(_) => Reply::Unknown,
    }
}

/// Runs all lines, the last of which may lack its end.
fn run_all(rt: &HostRuntime, drive: &mut Drive) -> io::Result<()> {
    let mut out = BufWriter::new(rt.alloc(), rt.stdout())?;
    for line in BufReader::new(rt.alloc(), rt.stdin())?.split(rt.alloc(), NEWLINE) {
        let line = line?;
        let reply = reply(drive, line.as_slice());
        writeln!(out, "{reply}")?;
    }
    out.flush()
}

fn main(rt: HostRuntime) -> io::Result<()> {
    let mut drive = Drive::open();
    let ran = run_all(&rt, &mut drive);
    drive.close();
    ran
}
