// What is found of a list. In a file of its own, since what the ghost fields import may not name the struct.

ghost use Rattle.std.specs.Prelude.{◌^◌, ◌<◌};

// A list that keeps the case, by its number, with what it earns and spends; whether another one ties with it.
#[derive(Clone, Copy)]
pub struct Found {
    pub tied: bool,
    pub number: u64,
    pub earned: u64,
    pub spent: u64,
    ghost earned_fits: { earned < 2 ^ 60 },
    ghost spent_fits: { spent < 2 ^ 60 },
}
