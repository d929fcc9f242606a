// The calls of a list, read from a file or a stream.
use std::io;

// The most numbers that a call for the domino list may lend.
pub(crate) const MOST_NUMBERS: usize = 300;

// A call: a piece, or a target's number, or how many numbers are lent.
#[derive(Clone, Copy)]
pub(crate) enum Call<'a> {
    Piece(&'a [u8]),
    Totals,
    Target(u16),
    Domino(u16),
}

// Why a list gives no call: there is none here, or the list cannot be read.
#[derive(Clone, Copy)]
pub(crate) enum CallError {
    Bad,
    Unread,
}

impl From<io::Error> for CallError {
    fn from(_: io::Error) -> CallError {
        CallError::Unread
    }
}

// Fills the bytes; a list that ends inside a call has a bad one. Read by read, no `read_exact`: a read that is interrupted fails here as any other does.
fn fill<R: io::Read>(list: &mut R, bytes: &mut [u8]) -> Result<(), CallError> {
    let mut n = 0;
    while n < bytes.len() {
        let k = list.read(&mut bytes[n..])?;
        if k == 0 {
            return Err(CallError::Bad);
        }
        n += k;
    }
    Ok(())
}

// A length or a number: two bytes, most significant first.
fn number<R: io::Read>(list: &mut R) -> Result<u16, CallError> {
    let mut two = [0u8; 2];
    fill(list, &mut two)?;
    Ok(u16::from_be_bytes(two))
}

// A piece, read to the front of the lent bytes.
fn piece<'a, R: io::Read>(list: &mut R, bytes: &'a mut [u8]) -> Result<Call<'a>, CallError> {
    let n = number(list)? as usize;
    if bytes.len() < n {
        return Err(CallError::Bad);
    }
    let read = &mut bytes[..n];
    fill(list, read)?;
    Ok(Call::Piece(read))
}

fn domino<'a, R: io::Read>(list: &mut R) -> Result<Call<'a>, CallError> {
    let n = number(list)?;
    if MOST_NUMBERS < n as usize {
        return Err(CallError::Bad);
    }
    Ok(Call::Domino(n))
}

// The next call, and none at the end. The bytes of a piece are the front of the lent ones.
pub(crate) fn next_call<'a, R: io::Read>(
    list: &mut R,
    bytes: &'a mut [u8],
) -> Result<Option<Call<'a>>, CallError> {
    let mut letter = [0u8; 1];
    if list.read(&mut letter)? == 0 {
        return Ok(None);
    }
    let call = match letter[0] {
        b'p' => piece(list, bytes)?,
        b't' => Call::Totals,
        b'g' => Call::Target(number(list)?),
        b'd' => domino(list)?,
        _ => return Err(CallError::Bad),
    };
    Ok(Some(call))
}
