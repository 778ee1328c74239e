// Reads orders from standard input, and answers each check on standard output.
#![tactic(auto)]

use order::reader::{Problem, Reader};
use std::io::{self, BufRead, BufReader, BufWriter, ErrorKind, Write};
use std::process::ExitCode;
use thiserror::Error;

// Why the program ends before its input does.
#[derive(Debug, Drop, Error)]
#[error(transparent)]
enum Stop {
    Order(#[from] Problem),
    Stream(#[from] io::Error),
}

// A line that is no text is a problem of its order; any other error is one of the stream.
fn unread(reader: &Reader, error: io::Error) -> Stop {
    if error.kind() == ErrorKind::InvalidData {
        return Stop::Order(reader.not_text());
    }
    Stop::Stream(error)
}

fn answer_all(rt: &HostRuntime) -> Result<(), Stop> {
    let mut out = BufWriter::new(rt.alloc(), rt.stdout())?;
    let mut reader = Reader::new(rt.alloc());
    for line in BufReader::new(rt.alloc(), rt.stdin())?.lines(rt.alloc()) {
        let text = line.map_err(|error| unread(&reader, error))?;
        if let Some(report) = reader.read(text.as_str())? {
            writeln!(out, "{report}")?;
            out.flush()?;
        }
    }
    reader.finish()?;
    Ok(())
}

fn main(rt: HostRuntime) -> ExitCode {
    match answer_all(&rt) {
        Ok(()) => ExitCode::SUCCESS,
        Err(stop) => {
            let _ = eprintln!(rt; "{stop}");
            ExitCode::FAILURE
        }
    }
}
