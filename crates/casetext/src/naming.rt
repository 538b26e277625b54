// Number 2: the names of the two tables. They stand here, and nowhere else but at the fields that they fill.

ghost use Rattle.std.specs.Prelude.{◌≡◌};
ghost use Rattle.tabletext.specs.Pieces.{fields_of};
ghost use Rattle.tabletext.specs.Tables.{named};
ghost use Rattle.casetext.specs.Names.{unit_names, unit_groups};
ghost use Rattle.casetext.specs.Form.{names_kept};

use crate::parts;
use tabletext::names;

// Of each table the required names, parted by commas, then its groups, a line each.
#[tactic(auto, unfolding(crate::specs::Form::names_kept, tabletext::specs::Bytes::is_of))]
pub fn names_kept(text: &[u8]) -> bool
    ensures { result ≡ names_kept text.now }
{
    let unit_head = parts::line(text, 0);
    let price_head = parts::line(text, 3);
    unit_names(unit_head) && names::names_in(b"price", b"", price_head)
}

// The thirteen, and the four of a date or none of them. A name that may be missing is a line of its own among the groups.
#[tactic(auto, unfolding(tabletext::specs::Bytes::is_of))]
fn unit_names(head: &[u8]) -> bool
    ensures { result ≡ named unit_names unit_groups (fields_of head.now) }
{
    let required = b"block,\
        pmin,\
        pmax,\
        mot,\
        mdt,\
        was,\
        held,\
        vec,\
        mlc,\
        suc,\
        starts,\
        hours,\
        mwh";
    let groups = b"year,month,day,window\n";
    names::names_in(required, groups, head)
}
