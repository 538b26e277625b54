// The lines of a text, by number.

ghost use Rattle.std.specs.Prelude.{◌≡◌, [], length, get_or, drop};
ghost use Rattle.tabletext.specs.Pieces.{lines_of};

use tabletext::walking::Lines;

// The line of a number, counted from 0; empty where there are fewer.
pub fn line(text: &[u8], number: usize) -> &[u8]
    ensures { result.now ≡ get_or (lines_of text.now) number [] }
{
    Lines::of(text).nth(number).unwrap_or(b"")
}

// The lines from a number on, with their ends.
pub fn lines_from(text: &[u8], number: usize) -> &[u8]
    ensures { lines_of result.now ≡ drop number (lines_of text.now) }
{
    let mut lines = Lines::of(text);
    for _ in 0..number {
        lines.next();
    }
    lines.rest
}

#[tactic(auto, using(tabletext::proofs::Walks::lines_few))]
pub fn lines_in(text: &[u8]) -> usize
    ensures { result ≡ length (lines_of text.now) }
{
    Lines::of(text).count()
}
