// A fraction to the nearest whole number, natural and signed. What a half does is decided in `goes_up` alone.

#![tactic(auto)]

ghost use Rattle.std.specs.Prelude.{◌≡◌, ◌<◌, pos};
ghost use Rattle.std.specs.Int.Signed.{quot_z, rem_z};
ghost use Rattle.rounding.specs.Fractions.{◌over◌, ◌overℤ◌};
ghost use Rattle.rounding.specs.Rounding as roundings;
ghost use Rattle.rounding.specs.Rounding.{goes_up, floor_of, rest_of, roundedℤ};
ghost use Rattle.rounding.specs.Sizes.{Sizes};

// The nearest whole number. Any numerator will do, since no number is doubled.
pub fn rounded(num: u64, den: u64) -> u64
    requires { 0 < den }
    ensures { result ≡ roundings.rounded (num over den) }
{
    let quotient = num / den;
    let rest = num % den;
    if goes_up(quotient, rest, den) {
        return quotient + 1;
    }
    quotient
}

// The nearest whole number, below zero too.
pub fn rounded_signed(num: i64, den: u64) -> i64
    requires { Sizes num den }
    ensures { result ≡ roundedℤ (num overℤ den) }
{
    let quotient = floor_of(num, den);
    let rest = rest_of(num, den);
    if goes_up(integers::magnitude(quotient), rest, den) {
        return quotient + 1;
    }
    quotient
}

// The quotient rounded down; the language's own goes toward zero.
fn floor_of(num: i64, den: u64) -> i64
    requires { Sizes num den }
    ensures { result ≡ floor_of num den }
{
    let quotient = toward_zero(num, den);
    if left_over(num, den) < 0 {
        return quotient - 1;
    }
    quotient
}

// What is left over the quotient rounded down.
fn rest_of(num: i64, den: u64) -> u64
    requires { Sizes num den }
    ensures { result ≡ rest_of num den }
{
    let rest = left_over(num, den);
    if rest < 0 {
        return (rest + integers::signed(den)) as u64;
    }
    rest as u64
}

// As the machine divides.
fn toward_zero(num: i64, den: u64) -> i64
    requires { Sizes num den }
    ensures { result ≡ quot_z num (pos den) }
{
    num / integers::signed(den)
}

// What is left over the quotient toward zero, with the numerator's sign.
fn left_over(num: i64, den: u64) -> i64
    requires { Sizes num den }
    ensures { result ≡ rem_z num (pos den) }
{
    num % integers::signed(den)
}

// Whether the rest of a division takes its quotient, a number of this size, to the next whole number.
fn goes_up(quotient: u64, rest: u64, den: u64) -> bool
    requires { rest < den }
    ensures { result ≡ goes_up quotient rest den }
{
    let missing = den - rest;
    (missing < rest) | ((missing == rest) & (quotient % 2 != 0))
}
