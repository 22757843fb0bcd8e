// A file, read whole.
ghost use Rattle.std.specs.Prelude.{◌≤◌, length, IfOk};

use messages::{Failure, failed, failed_by_system};
use std::fs::File;
use std::io::{Error, Read};
use std::rt::HostRuntime;

// How many bytes are read of a file; one that fills them may have more.
pub const ROOM: usize = 4194304;

// The number by which the system says that bytes are no text.
const EILSEQ: i32 = 84;

// Opens a file by its name, which is to be text in UTF-8.
fn open(rt: HostRuntime, path: &[u8]) -> Result<File, Error> {
    match std::str::from_utf8(path) {
        Ok(name) => File::open(&rt, name),
        Err(_) => Err(Error::from_raw_os_error(EILSEQ)),
    }
}

// Reads an open file up to its end, or until the bytes are full. By a loop, since std's read_to_end wants a Vec.
fn read_all<R: Read>(file: &mut R, bytes: &mut [u8]) -> Result<usize, Error>
    ensures { IfOk result (λ size. size ≤ length bytes.old) }
{
    let mut done = 0;
    while done < bytes.len() {
        let got = file.read(&mut bytes[done..])?;
        if got == 0 {
            break;
        }
        done += got;
    }
    Ok(done)
}

// Reads standard input where the name is `-`, and else the file of that name.
fn read_named(rt: HostRuntime, path: &[u8], bytes: &mut [u8]) -> Result<usize, Error>
    ensures { IfOk result (λ size. size ≤ length bytes.old) }
{
    if path == b"-".as_slice() {
        return read_all(&mut rt.stdin(), bytes);
    }
    let mut file = open(rt, path)?;
    read_all(&mut file, bytes)
}

// Reads a file's text, or says why not.
pub fn read<'a>(
    rt: HostRuntime,
    path: &[u8],
    bytes: &'a mut [u8; ROOM],
) -> Result<&'a [u8], Failure>
    ensures { Unit {0} }
{
    let size = match read_named(rt, path, bytes) {
        Ok(size) => size,
        Err(error) => return Err(failed_by_system(path, error)),
    };
    if size == ROOM {
        return Err(failed(path, "4 MiB or more, wanted a smaller file"));
    }
    Ok(unmarked(&bytes[..size]))
}

// A text without the mark of its encoding, which some programs put in front.
fn unmarked(text: &[u8]) -> &[u8] {
    text.strip_prefix(b"\xef\xbb\xbf").unwrap_or(text)
}
