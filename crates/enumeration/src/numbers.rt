// Small arithmetic whose bounds come from the types.

ghost use Rattle.std.specs.Prelude.{◌≡◌, ◌*◌, ◌^◌, ◌<◌, ◌≤◌, pos, ◌-ℤ◌};
ghost use Rattle.enumeration.specs.Counting as counting;

// A product whose bound is known.
pub fn times(a: u64, b: u64) -> u64
    requires { (a < 2 ^ 32) × (b < 2 ^ 16) }
    ensures { (result ≡ a * b) × (result < 2 ^ 48) }
{
    a * b
}

// a − b as a signed number.
pub fn difference(a: u64, b: u64) -> i64
    requires { (a < 2 ^ 62) × (b < 2 ^ 62) }
    ensures { result ≡ pos a -ℤ pos b }
{
    a as i64 - b as i64
}

// A count, one higher where `yes`.
pub fn counted(count: u64, yes: bool) -> u64
    ensures { result ≡ counting.counted count yes }
{
    if yes { count.wrapping_add(1) } else { count }
}
