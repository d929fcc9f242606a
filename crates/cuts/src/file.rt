// A whole file.
ghost use Rattle.std.specs.Prelude.{◌≤◌, length, IfOk};

use std::fs::File;
use std::io;
use std::rt::Files;

// Reads what a file has to the front of the buffer, and says how many bytes; an error where a read fails, or the buffer is full. Counted by hand: the library's
// `read_to_end` needs a heap.
fn read_whole<R: io::Read>(input: &mut R, buffer: &mut [u8]) -> io::Result<usize>
    ensures { IfOk result (λ n. n ≤ length buffer.new) }
{
    let mut count = 0;
    for _ in 0..buffer.len() {
        let n = input.read(&mut buffer[count..])?;
        if count == buffer.len() {
            return Err(io::Error::from(io::ErrorKind::FileTooLarge));
        }
        if n == 0 {
            break;
        }
        count += n;
    }
    Ok(count)
}

// The same of the file with a name.
pub(crate) fn read_named(rt: &impl Files, name: &str, buffer: &mut [u8]) -> io::Result<usize>
    ensures { IfOk result (λ n. n ≤ length buffer.new) }
{
    let mut file = File::open(rt, name)?;
    read_whole(&mut file, buffer)
}
