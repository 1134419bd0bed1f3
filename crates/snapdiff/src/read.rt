// A file into a buffer.
ghost use Rattle.std.specs.Prelude.{◌≤◌, length};
ghost use Rattle.io.specs.Counts.{IsPrefixLen};

use listing::diff::File;
use std::fs;
use std::fs::Files;
use std::io::Read;

// What became of reading a file, and how many bytes it has.
#[derive(Clone, Copy)]
pub struct Input {
    pub file: File,
    pub len: usize,
}

// How many bytes one read puts at the start of buf: none at the end of the file, and none where the read fails.
fn read_some(file: &mut impl Read, buf: &mut [u8]) -> usize
    ensures { result ≤ length buf.new }
{
    match file.read(buf) {
        Ok(n) => n,
        Err(_) => 0,
    }
}

// Reads until buf is full, or a read gives nothing.
fn read_full(file: &mut impl Read, buf: &mut [u8]) -> usize
    ensures { IsPrefixLen result buf.new }
{
    let mut done = 0;
    while done < buf.len() {
        let n = read_some(file, &mut buf[done..]);
        if n == 0 {
            break;
        }
        done += n;
    }
    done
}

// All that file still has: the read is whole only where one more byte is answered by the end of the file.
fn read_all(file: &mut impl Read, buf: &mut [u8]) -> Input
    ensures { IsPrefixLen result.len buf.new }
{
    let len = read_full(file, buf);
    let mut more = [0u8; 1];
    let Ok(got) = file.read(&mut more) else {
        return Input {
            file: File::Absent,
            len: 0,
        };
    };
    if got == 0 {
        return Input {
            file: File::Read,
            len,
        };
    }
    // Where the buffer is not full, a read before this one failed.
    if len < buf.len() {
        return Input {
            file: File::Absent,
            len: 0,
        };
    }
    Input {
        file: File::TooLong,
        len: 0,
    }
}

// The file of this name.
pub fn read_file<R: Files>(rt: &R, path: &str, buf: &mut [u8]) -> Input
    ensures { IsPrefixLen result.len buf.new }
{
    let Ok(mut file) = fs::open(rt, path) else {
        return Input {
            file: File::Absent,
            len: 0,
        };
    };
    read_all(&mut file, buf)
}
