// Prints what a record says by its layout, from the files layout.txt and record.bin of the folder that it is run in. A file that can't be
// read, and output that can't be written, is told on standard error.

#![tactic(auto)]

ghost use Rattle.std.specs.Prelude.{◌≡◌, ◌≤◌, IfOk, IfSome, MatchOption, length};

use reading::read_full;
use shown::show_at;
use std::fmt::{Display, Formatter};
use std::io::Read;
use std::process::ExitCode;
use std::rt::Files;
use std::{fmt, io};

// Why a file could not be read whole.
#[derive(Debug, Drop)]
enum Unread {
    Io(io::Error),
    Stopped,
}

impl From<io::Error> for Unread {
    fn from(error: io::Error) -> Unread {
        Unread::Io(error)
    }
}

impl Display for Unread {
    fn fmt<W: fmt::Write>(&self, f: &mut Formatter<W>) -> fmt::Result {
        match self {
            Unread::Io(error) => write!(f, "{error}"),
            Unread::Stopped => write!(f, "reading stopped"),
        }
    }
}

// How many bytes a file has of which n stand in a buffer of so much room; none if it has more than that. One byte more is asked for: only behind a full
// buffer is there any.
fn ended<R: Read>(file: &mut R, n: usize, room: usize) -> Result<Option<usize>, Unread>
    ensures { IfOk result (λ len. MatchOption len (room ≤ n) (λ l. l ≡ n)) }
{
    let mut one = [0u8; 1];
    if file.read(&mut one)? == 0 {
        Ok(Some(n))
    } else if n < room {
        Err(Unread::Stopped)
    } else {
        Ok(None)
    }
}

// A file's bytes, at the front of a buffer; none if it has more than the buffer holds.
fn read_file<'a>(rt: &impl Files, path: &str, buf: &'a mut [u8]) -> Result<Option<&'a [u8]>, Unread>
    ensures { IfOk result (λ bytes. IfSome bytes (λ part. length part.now ≤ length buf.old)) }
{
    let mut file = std::fs::open(rt, path)?;
    let n = read_full(&mut file, buf)?;
    let len = ended(&mut file, n, buf.len())?;
    Ok(len.map(|n| &buf[..n]))
}

// Writes a piece; whether another may follow.
fn print_piece(
    rt: &impl Print,
    layout: Option<&[u8]>,
    record: Option<&[u8]>,
    at: usize,
) -> io::Result<bool> {
    let mut out = [0u8; 65536];
    let n = show_at(layout, record, at, &mut out);
    rt.write_all(&out[..n])?;
    Ok(n == 65536)
}

// Writes piece after piece, up to the first that is shorter than a buffer. No output has so many pieces as the loop allows.
fn print(rt: &impl Print, layout: Option<&[u8]>, record: Option<&[u8]>) -> io::Result<()> {
    for turn in 0..1000000usize {
        if !print_piece(rt, layout, record, turn * 65536)? {
            return Ok(());
        }
    }
    Ok(())
}

// Tells on standard error what failed and why. Where that can't be written either, nothing is left to tell it to.
fn fail(rt: &impl Eprint, what: &str, why: impl Display + Drop) -> ExitCode {
    let _ = eprintln!(rt; "{what}: {why}");
    ExitCode::FAILURE
}

fn main(rt: HostRuntime) -> ExitCode {
    let mut layout = [0u8; 65536];
    let layout = match read_file(&rt, "layout.txt", &mut layout) {
        Ok(bytes) => bytes,
        Err(why) => return fail(&rt, "layout.txt", why),
    };
    let mut record = [0u8; 65536];
    let record = match read_file(&rt, "record.bin", &mut record) {
        Ok(bytes) => bytes,
        Err(why) => return fail(&rt, "record.bin", why),
    };
    match print(&rt, layout, record) {
        Ok(()) => ExitCode::SUCCESS,
        Err(why) => fail(&rt, "standard output", why),
    }
}
