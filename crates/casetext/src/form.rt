// Number 1: whether a text has the form of a case. It is judged over the whole text before any name.

ghost use Rattle.std.specs.Prelude.{◌≡◌, [], ◌∷◌};
ghost use Rattle.tabletext.specs.Pieces.{last_closed};
ghost use Rattle.casetext.specs.Form.{is_empty, unit_head, unit_row, empty_line, price_head, price_rows, table_formed, form_kept};

use crate::parts;
use tabletext::{Class, bytes, tables};

pub const MOST_BYTES: usize = 12288;

// A text that is too long is not walked.
#[tactic(auto, unfolding(crate::specs::Form::form_kept))]
pub fn form_kept(text: &[u8]) -> bool
    ensures { result ≡ form_kept text.now }
{
    text.len() <= MOST_BYTES
        && is_closed(text)
        && 4 <= parts::lines_in(text)
        && third_empty(text)
        && unit_formed(text)
        && prices_formed(text)
}

// The last line ends as every line does.
fn is_closed(text: &[u8]) -> bool
    ensures { result ≡ last_closed text.now }
{
    text.last()
        .is_some_and(|b| bytes::is_of(Class::LineEnd, *b))
}

// The line between the two tables.
fn third_empty(text: &[u8]) -> bool
    ensures { result ≡ is_empty (empty_line text.now) }
{
    parts::line(text, 2).is_empty()
}

// The first table has one line of values.
fn unit_formed(text: &[u8]) -> bool
    ensures { result ≡ table_formed (unit_head text.now) (unit_row text.now ∷ []) }
{
    let head = parts::line(text, 0);
    let row = parts::line(text, 1);
    tables::name_line(head) && tables::value_line(tables::fields_in(head), row)
}

// The second table has any number of lines: that there are prices is another cause.
fn prices_formed(text: &[u8]) -> bool
    ensures { result ≡ table_formed (price_head text.now) (price_rows text.now) }
{
    let head = parts::line(text, 3);
    let rows = parts::lines_from(text, 4);
    tables::name_line(head) && tables::value_lines(tables::fields_in(head), rows)
}
