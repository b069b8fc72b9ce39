// Reading a file into a lent row.
#![tactic(auto)]

ghost use Rattle.std.specs.Prelude.{IfOk, IsUtf8};
ghost use Rattle.io.specs.Counts.{IsPrefixLen};

use std::fs::File;
use std::io::{Error, ErrorKind, Read, Result};
use std::rt::Files;

// Opens a file for reading. A path that is no UTF-8 can't be opened.
pub fn open_read<R: Files>(rt: &R, path: &[u8]) -> Result<R::File>
    ensures { IfOk result (λ file. IsUtf8 path.now) }
{
    let name = str::from_utf8(path).map_err(|_| Error::from(ErrorKind::InvalidInput))?;
    File::open(rt, name)
}

// Reads until the row is full, the file ends or a read fails. The answer is how many bytes are at the start of the row.
pub fn read_full<F: Read>(file: &mut F, buf: &mut [u8]) -> usize
    ensures { IsPrefixLen result buf.new }
{
    let mut done = 0;
    while done < buf.len() {
        let n = file.read(&mut buf[done..]).unwrap_or(0);
        if n == 0 {
            break;
        }
        done += n;
    }
    done
}

// The first bytes of a file; none where it can't be read. The answer is their number.
pub fn read_file<R: Files>(rt: &R, path: &[u8], buf: &mut [u8]) -> usize
    ensures { IsPrefixLen result buf.new }
{
    let Ok(mut file) = open_read(rt, path) else {
        return 0;
    };
    read_full(&mut file, buf)
}

// The first bytes of a folder's file; none where it can't be read, or where one of the names has over 2,047 bytes. The answer is their number.
pub fn read_in<R: Files>(rt: &R, folder: &[u8], name: &[u8], buf: &mut [u8]) -> usize
    ensures { IsPrefixLen result buf.new }
{
    if 2047 < folder.len() || 2047 < name.len() {
        return 0;
    }
    let mut path = [0u8; 4096];
    let end = folder.len() + 1 + name.len();
    path[..folder.len()].copy_from_slice(folder);
    path[folder.len()] = b'/';
    path[folder.len() + 1..end].copy_from_slice(name);
    read_file(rt, &path[..end], buf)
}
