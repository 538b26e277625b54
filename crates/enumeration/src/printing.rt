// Lines on standard output, for the programs that try the calls.

use std::fmt::Display;
use std::io;

// A name with its comma, a number, a line end.
pub fn line(rt: &impl Print, name: &[u8], number: impl Display + Drop) -> io::Result<()> {
    text(rt, name)?;
    rt.println(number)
}

pub fn text(rt: &impl Print, words: &[u8]) -> io::Result<()> {
    rt.write_all(words)
}

// Each number after a comma, and a line end.
pub fn row(rt: &impl Print, numbers: &[u64]) -> io::Result<()> {
    cells(rt, numbers)?;
    text(rt, b"\n")
}

// Each number after a comma.
pub fn cells(rt: &impl Print, numbers: &[u64]) -> io::Result<()> {
    for number in numbers {
        text(rt, b",")?;
        rt.print(*number)?;
    }
    Ok(())
}
