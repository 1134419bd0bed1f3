// The path of a file in a folder.
ghost use Rattle.std.specs.Prelude.{IfSome, ◌≡◌, ◌≤◌, length, take, IsUtf8};
ghost use Rattle.io.specs.Counts.{IsPrefixLen};

use item::copy::copy;
use item::place::Part;
use std::env::{Env, FillError};

// How many bytes argument i has, which stand at the start of path: none where they have no room there. Nothing behind the
// last argument.
pub fn argument(rt: &impl Env, i: usize, path: &mut [u8]) -> Option<usize>
    ensures { IfSome result (λ n. IsPrefixLen n path.new) }
{
    match rt.arg(i, path) {
        Ok(n) => Some(n),
        Err(FillError::TooLong) => Some(0),
        Err(FillError::NotPresent) => None,
    }
}

// The name behind the folder, which is the first n bytes of path; nothing where there is no folder, or no room.
pub fn join(path: &mut [u8], n: usize, name: &[u8]) -> usize
    ensures { IsPrefixLen result path.new }
{
    if n == 0 {
        return 0;
    }
    if path.len() < n {
        return 0;
    }
    let to = name.len();
    if path.len() - n < to {
        return 0;
    }
    copy(name, Part { from: 0, to }, path, n);
    n + to
}

// The first n bytes of path as a path; no path where they are not UTF-8.
pub fn path_of(path: &[u8], n: usize) -> &str
    requires { n ≤ length path.now }
    ensures { IsUtf8 (take n path.now) → result.now ≡ take n path.now }
{
    match str::from_utf8(&path[..n]) {
        Ok(text) => text,
        Err(_) => "",
    }
}
