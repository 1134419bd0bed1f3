// Writes what changed from old.snap to new.snap: in this folder, or in each folder that an argument names, in turn.
#![tactic(auto)]

mod path;
mod read;

use delta::refusal::Refusal;
use listing::diff::diff_text;
use path::{argument, join, path_of};
use read::read_file;
use std::io;
use std::io::Write;

// The text that stands at the start of out.
fn write_text(rt: &impl Print, listed: Result<usize, Refusal>, out: &[u8]) -> io::Result<()> {
    // Never refused: out has room for the longest text.
    let Ok(len) = listed else {
        return Ok(());
    };
    if len <= out.len() {
        io::writer(rt).write_all(&out[..len])?;
    }
    Ok(())
}

// The text for two files.
fn compare(rt: &HostRuntime, old_path: &str, new_path: &str) -> io::Result<()> {
    let mut old = [0u8; 32768];
    let mut new = [0u8; 32768];
    let mut delta = [0u8; 65536];
    // A field of n bytes has a line of at most 3 n bytes, and the head line at most 109: 196,717 for a delta of 65,536.
    let mut out = [0u8; 200000];
    let first = read_file(rt, old_path, &mut old);
    let second = read_file(rt, new_path, &mut new);
    let old_file = first.file;
    let new_file = second.file;
    let n = first.len;
    let m = second.len;
    let listed = diff_text(
        old_file,
        &old[..n],
        new_file,
        &new[..m],
        &mut delta,
        &mut out,
    );
    write_text(rt, listed, &out)
}

// The same in a folder, whose name is the first n bytes of each path.
fn compare_in(
    rt: &HostRuntime,
    n: usize,
    old_path: &mut [u8],
    new_path: &mut [u8],
) -> io::Result<()> {
    let old_end = join(old_path, n, b"/old.snap");
    let new_end = join(new_path, n, b"/new.snap");
    compare(rt, path_of(old_path, old_end), path_of(new_path, new_end))
}

fn main(rt: HostRuntime) -> io::Result<()> {
    for i in 1..usize::MAX {
        let mut old_path = [0u8; 4096];
        let mut new_path = [0u8; 4096];
        let Some(n) = argument(&rt, i, &mut old_path) else {
            if i == 1 {
                compare(&rt, "old.snap", "new.snap")?;
            }
            break;
        };
        argument(&rt, i, &mut new_path);
        compare_in(&rt, n, &mut old_path, &mut new_path)?;
    }
    Ok(())
}
