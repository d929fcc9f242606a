// A study from a stream, in pieces as they come, and its report to a writer, line by line.
#![tactic(auto)]

ghost use Rattle.std.specs.Prelude.{◌<◌, length, OnOk};
ghost use Rattle.std.specs.Io.KnownBytes.{Appends};
ghost use Rattle.feeding.specs.Streams.{ReadWhole, report_bytes};

use std::io;
use study::{Study, Taken};

// Reads to the end, in pieces that fit into the buffer; none where the stream does not end. Nothing says that one does, so the reads are counted up to a number
// that no run reaches. A piece has bytes, so that its answer is 7 wherever bytes follow the closing record.
#[tactic(auto, using(crate::proofs::StreamLaws::read_steps))]
fn read_pieces<R: io::Read>(input: &mut R, buffer: &mut [u8]) -> io::Result<Option<Taken>>
    requires { 0 < length buffer.old }
    ensures { ReadWhole (R.remaining input.old) result }
{
    let mut taken = Taken {
        study: Study::fresh(),
        number: 0,
        place: 0,
    };
    for _ in 0..u64::MAX {
        let n = input.read(buffer)?;
        if n == 0 {
            return Ok(Some(taken));
        }
        taken = taken.study.piece(&buffer[..n]);
    }
    Ok(None)
}

// Reads a study to the end; none where the stream does not end.
pub fn read_study<R: io::Read>(input: &mut R) -> io::Result<Option<Taken>>
    ensures { ReadWhole (R.remaining input.old) result }
{
    let mut buffer = [0u8; 65536];
    read_pieces(input, &mut buffer)
}

// The same for many small studies: smaller pieces, which take less of the stack.
pub fn read_small_study<R: io::Read>(input: &mut R) -> io::Result<Option<Taken>>
    ensures { ReadWhole (R.remaining input.old) result }
{
    let mut buffer = [0u8; 4096];
    read_pieces(input, &mut buffer)
}

// Writes the report, as far as it can be written.
#[tactic(auto, using(crate::proofs::StreamLaws::write_steps))]
pub fn write_report<W: io::Write>(to: &mut W, taken: Taken) -> io::Result<()>
    ensures { OnOk result (Appends (W.contents to.old) (W.contents to.new) (report_bytes taken)) }
{
    for i in 0..printing::report_length(taken) {
        let mut text = [0u8; 256];
        let n = printing::report_line(taken, i).put(&mut text);
        to.write_all(&text[..n])?;
    }
    Ok(())
}
