// The names of a line, against a table of names: a line of required ones, and groups, a line each, of which all names stand or none.
// A name that may be missing is a group of its own.

ghost use Rattle.std.specs.Prelude.{◌≡◌, leb};
ghost use Rattle.tabletext.specs.Pieces.{fields_of};
ghost use Rattle.tabletext.specs.Tables.{occurs, together, known, named};
ghost use Rattle.tabletext.specs.Places.{groups_of};

use crate::tables::stands;
use crate::walking::{Fields, Lines};

// Each required name once, of each group all or none, and no other.
pub fn names_in(required: &[u8], groups: &[u8], line: &[u8]) -> bool
    ensures { result ≡ named (fields_of required.now) (groups_of groups.now) (fields_of line.now) }
{
    Fields::of(required).all(|name| stands(1, line, name))
        && Lines::of(groups).all(|group| are_together(line, group))
        && Fields::of(line).all(|name| is_known(required, groups, name))
}

// All names of a group stand in a line, each once, or none does.
fn are_together(line: &[u8], group: &[u8]) -> bool
    ensures { result ≡ together (fields_of line.now) (fields_of group.now) }
{
    Fields::of(group).all(|name| stands(1, line, name))
        || Fields::of(group).all(|name| stands(0, line, name))
}

// A name is a required one, or one of a group.
fn is_known(required: &[u8], groups: &[u8], name: &[u8]) -> bool
    ensures { result ≡ known (fields_of required.now) (groups_of groups.now) name.now }
{
    stands_in(required, name) || Lines::of(groups).any(|group| stands_in(group, name))
}

fn stands_in(line: &[u8], name: &[u8]) -> bool
    ensures { result ≡ leb 1 (occurs name.now (fields_of line.now)) }
{
    Fields::of(line).any(|field| field == name)
}
