// A table's lines, and the value under a name.

ghost use Rattle.std.specs.Prelude.{◌≡◌, length};
ghost use Rattle.lists.specs.Every.{every};
ghost use Rattle.tabletext.specs.Pieces.{fields_of, lines_of};
ghost use Rattle.tabletext.specs.Tables.{name_line, value_line, standing, under};

use crate::walking::{Fields, Lines};
use crate::{Value, values};

// Every field is a name.
pub fn name_line(line: &[u8]) -> bool
    ensures { result ≡ name_line line.now }
{
    Fields::of(line).all(values::is_name)
}

// Every line has as many values as there are names.
pub fn value_lines(names: usize, rows: &[u8]) -> bool
    ensures { result ≡ every (value_line names) (lines_of rows.now) }
{
    Lines::of(rows).all(|row| value_line(names, row))
}

// As many fields as there are names, each a value.
pub fn value_line(names: usize, line: &[u8]) -> bool
    ensures { result ≡ value_line names line.now }
{
    fields_in(line) == names && Fields::of(line).all(values::is_value)
}

#[tactic(auto, using(crate::proofs::Walks::fields_few))]
pub fn fields_in(line: &[u8]) -> usize
    ensures { result ≡ length (fields_of line.now) }
{
    Fields::of(line).count()
}

// A name stands so often in a line.
pub fn stands(times: usize, line: &[u8], name: &[u8]) -> bool
    ensures { result ≡ standing times (fields_of line.now) name.now }
{
    Fields::of(line).filter(|field| *field == name).count() == times
}

// A line of names, and a line of values under them.
#[derive(Clone, Copy)]
pub struct Row<'a> {
    pub names: &'a [u8],
    pub values: &'a [u8],
}

impl<'a> Row<'a> {
    // Of a name that stands more than once, the first value.
    pub fn value_under(&self, name: &[u8]) -> Value
        ensures { result ≡ under name.now (fields_of self.now.names.now) (fields_of self.now.values.now) }
    {
        let found = Fields::of(self.names)
            .zip(Fields::of(self.values))
            .find(|(field, _)| *field == name);
        match found {
            Some((_, value)) => values::value_of(value),
            None => Value::Malformed,
        }
    }
}
