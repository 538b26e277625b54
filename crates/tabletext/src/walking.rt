// Walks from piece to piece: over the fields of a line, which commas part, and over the lines of a text, which line ends close.

ghost use Rattle.std.specs.Prelude.{◌≡◌};
ghost use Rattle.std.specs.Iterator.{YieldsFirstRef, item_count};
ghost use Rattle.tabletext.specs.Pieces.{fields_of, lines_of};
ghost use Rattle.tabletext.specs.Places.{fields_left, lines_left};

use crate::{Class, bytes};

// An empty line has one field, which is empty: so `None` stands for no field left.
#[derive(Drop)]
pub struct Fields<'a> {
    rest: Option<&'a [u8]>,
}

// An empty text has no line: so the text of the lines that are left says when the walk is at its end. A type for both walks would have to
// know which of the two it is; what they share is `bytes::cut`.
#[derive(Drop)]
pub struct Lines<'a> {
    pub rest: &'a [u8],
}

impl<'a> Fields<'a> {
    pub fn of(line: &'a [u8]) -> Fields<'a>
        ensures { fields_left result ≡ fields_of line.now }
    {
        Fields { rest: Some(line) }
    }
}

impl<'a> Lines<'a> {
    pub fn of(text: &'a [u8]) -> Lines<'a>
        ensures { lines_left result ≡ lines_of text.now }
    {
        Lines { rest: text }
    }
}

impl<'a> Iterator for Fields<'a> {
    type Item = &'a [u8];

    ghost next_gives = { YieldsFirstRef fields_left };

    ghost remaining = { item_count fields_left };

    fn next(&mut self) -> Option<&'a [u8]> {
        let (field, rest) = bytes::cut(self.rest?, Class::Comma);
        self.rest = rest;
        Some(field)
    }
}

impl<'a> Iterator for Lines<'a> {
    type Item = &'a [u8];

    ghost next_gives = { YieldsFirstRef lines_left };

    ghost remaining = { item_count lines_left };

    fn next(&mut self) -> Option<&'a [u8]> {
        if self.rest.is_empty() {
            return None;
        }
        let (line, rest) = bytes::cut(self.rest, Class::LineEnd);
        self.rest = rest.unwrap_or(b"");
        Some(line)
    }
}
