// The larger and the smaller of two, a natural number as a signed one, how large a signed one is, and a product that cannot overflow. The laws of ℤ
// stand in proofs/.

#![tactic(auto)]

ghost use Rattle.std.specs.Prelude.{◌≡◌, ◌*◌, ◌≤◌, ◌<◌, ◌^◌, min, pos, nat_abs};
ghost use Rattle.integers.specs.Capped.{capped};
ghost use Rattle.integers.specs.Maximum.{maxℤ};

// What stands for a size that is given up.
pub const LARGEST: usize = 18446744073709551615;

// The larger of two, the first where they are equal.
pub fn larger(a: i64, b: i64) -> i64
    ensures { result ≡ maxℤ a b }
{
    if a < b { b } else { a }
}

// Of lengths: what fits two slices.
pub fn smaller(a: usize, b: usize) -> usize
    ensures { result ≡ min a b }
{
    if a <= b { a } else { b }
}

// A natural number as a signed one.
pub fn signed(x: u64) -> i64
    requires { x < 2 ^ 62 }
    ensures { result ≡ pos x }
{
    x as i64
}

// How large a number is, whatever its sign.
pub fn magnitude(value: i64) -> u64
    ensures { result ≡ nat_abs value }
{
    if value < 0 {
        return (-(value + 1)) as u64 + 1;
    }
    value as u64
}

// The product of two sizes where it is at most so many, else the largest number. It is judged by a quotient, since it may not fit.
pub fn capped_product(most: usize, a: usize, b: usize) -> usize
    requires { 1 ≤ b }
    ensures { result ≡ capped most (a * b) }
{
    if most / b < a {
        return LARGEST;
    }
    a * b
}
