// What the programs read by name: the files that their arguments name, and the words for what failed.
#![tactic(auto)]

ghost use Rattle.files.specs.Names.{NamedBy, IsArgument};

use std::env::FillError;
use std::io;
use std::io::{Cursor, Write};
use std::rt::Env;

// The longest name, and a byte.
pub const MOST_BYTES: usize = 4096;

// The system's numbers for a name that is too long, and for bytes that are no text.
const TOO_LONG: i32 = 36;

const NO_TEXT: i32 = 84;

// What the argument i names, in the lent bytes: its text, or why it cannot be taken; none where there is no such argument. The library opens names that are UTF-8
// alone. Each program has its own loop over its arguments: cuts stops where it cannot print, the others go on.
pub fn argument<'a>(rt: &impl Env, i: usize, bytes: &'a mut [u8]) -> Option<io::Result<&'a str>>
    ensures { IsArgument result }
{
    match rt.arg(i, bytes) {
        Ok(n) => named(&bytes[..n]),
        Err(FillError::TooLong) => Some(Err(io::Error::from_raw_os_error(TOO_LONG))),
        Err(FillError::NotPresent) => None,
    }
}

fn named(bytes: &[u8]) -> Option<io::Result<&str>>
    ensures { NamedBy bytes.now result }
{
    match str::from_utf8(bytes) {
        Ok(name) => Some(Ok(name)),
        Err(_) => Some(Err(io::Error::from_raw_os_error(NO_TEXT))),
    }
}

// The system's words for an error, without the number that the library puts behind them.
fn words(text: &[u8]) -> &str {
    let all = str::from_utf8(text).unwrap_or("");
    match all.split_once(" (os error ") {
        Some((words, _)) => words,
        None => all,
    }
}

// Says on standard error what failed, a colon, and why.
pub fn fail(rt: &impl Eprint, what: &str, why: io::Error) {
    let mut text = Cursor::new([0u8; 256]);
    let _ = write!(text, "{why}");
    let written = text.position().min(256) as usize;
    let bytes = text.into_inner();
    let reason = words(&bytes[..written]);
    let _ = eprintln!(rt; "{what}: {reason}");
}
