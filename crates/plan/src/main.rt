// The planning program: the text of a case from standard input, its listing or its refusal to standard output. All that matters is in the
// libraries. Where reading or writing fails, a line on standard error says so, and the program ends with status 1.

#![tactic(auto)]

ghost use Rattle.std.specs.Prelude.{◌≡◌, length};
ghost use Rattle.answers.specs.Sizes.{text_room, out_room};
ghost use Rattle.plan.specs.Reading.{Within};

use anyhow::Context;
use std::io;
use std::io::{Input, Read};
use std::process::ExitCode;

fn main(rt: HostRuntime) -> ExitCode {
    let mut text = [0u8; answers::TEXT_ROOM];
    let mut out = [0u8; answers::OUT_ROOM];
    match run(&rt, &mut text, &mut out) {
        Ok(()) => ExitCode::SUCCESS,
        Err(error) => failure(&rt, &error),
    }
}

// The line that says what failed. Where even that is not written, the status alone says it.
fn failure(rt: &impl Eprint, error: &anyhow::Error) -> ExitCode {
    let _ = eprintln!(rt; "{error:#}");
    ExitCode::FAILURE
}

// Reads, answers and prints, in slices of the program's sizes.
fn run(rt: &(impl Input + Print), text: &mut [u8], out: &mut [u8]) -> anyhow::Result<()>
    requires out_len { length out.old ≡ out_room }
    requires text_len { length text.old ≡ text_room }
{
    let mut input = rt.reader();
    let count = read_text(&mut input, &mut *text).context("plan: reading failed")?;
    let answered = answers::answer(&text[..count], &mut *out);
    rt.write_all(&out[..answered.bytes])
        .context("plan: writing failed")
}

// Reads until the text ends or the slice is full. Only a read of no bytes is the end. A while: each turn goes on by as much as was read.
fn read_text(input: &mut impl Read, text: &mut [u8]) -> io::Result<usize>
    ensures { Within result (length text.old) }
{
    let mut done = 0;
    while done < text.len() {
        let more = read_part(&mut *input, &mut text[done..])?;
        if more == 0 {
            return Ok(done);
        }
        done += more;
    }
    Ok(done)
}

// One read.
fn read_part(input: &mut impl Read, part: &mut [u8]) -> io::Result<usize>
    ensures { Within result (length part.old) }
{
    input.read(part)
}
