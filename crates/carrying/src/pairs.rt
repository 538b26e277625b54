// Values and their marks in one slice, each mark so far behind its value.

ghost use Rattle.std.specs.Prelude.{◌≡◌, cond, ◌+◌, ◌≤◌, ◌<◌, length};
ghost use Rattle.carrying.specs.Pairs.{put_pair, join_pair, Pairs, JoinedFrom};

// A function, whose two values are both worked out before the choice: a value and its mark are then selected by one fact each, not by cases.
pub fn either(first: bool, a: i64, b: i64) -> i64
    ensures { result ≡ cond first a b }
{
    if first { a } else { b }
}

// Value and mark together, so that no value stands with another's mark.
pub fn put(cells: &mut [i64], behind: usize, at: usize, value: i64, mark: i64)
    requires { (at < behind) × (behind + behind ≤ length cells.old) }
    ensures { cells.new ≡ put_pair behind cells.old at value mark }
{
    cells[at] = value;
    cells[behind + at] = mark;
}

// In place of what stands there, where the value is larger.
pub fn join(cells: &mut [i64], behind: usize, at: usize, value: i64, mark: i64)
    requires { (at < behind) × (behind + behind ≤ length cells.old) }
    ensures { cells.new ≡ join_pair behind cells.old at value mark }
{
    let there = cells[at];
    let its_mark = cells[behind + at];
    let larger = there < value;
    let best = either(larger, value, there);
    let best_mark = either(larger, mark, its_mark);
    put(cells, behind, at, best, best_mark);
}

// So many places from `to` on, each with what stands aside for it.
pub fn join_all(
    cells: &mut [i64],
    behind: usize,
    to: usize,
    count: usize,
    image: &[i64],
    aside: usize,
)
    requires { (to + count ≤ behind) × (behind + behind ≤ length cells.old) × (count ≤ aside) × (aside + aside ≤ length image.now) }
    ensures { Pairs behind (JoinedFrom behind aside cells.old image.now to) cells.old cells.new to count }
{
    for i in 0..count {
        join(cells, behind, to + i, image[i], image[aside + i]);
    }
}
