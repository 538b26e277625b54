// Bytes by class, and the first piece of a string of them.

ghost use Rattle.std.specs.Prelude.{◌≡◌};
ghost use Rattle.lists.specs.Every.{every};
ghost use Rattle.tabletext.specs.Bytes.{class_of, is_of};
ghost use Rattle.tabletext.specs.Places.{IsCut};

use crate::Class;

// Every other byte is refused, wherever it stands.
pub fn class_of(b: u8) -> Class
    ensures { result ≡ class_of b }
{
    match b {
        b'0'..=b'9' => Class::Digit,
        b'a'..=b'z' => Class::Letter,
        b',' => Class::Comma,
        b'-' => Class::Minus,
        b'\n' => Class::LineEnd,
        _ => Class::Refused,
    }
}

pub fn is_of(class: Class, b: u8) -> bool
    ensures { result ≡ is_of class b }
{
    class_of(b) == class
}

// Every byte is of the class.
pub fn all_of(class: Class, s: &[u8]) -> bool
    ensures { result ≡ every (is_of class) s.now }
{
    s.iter().all(|b| is_of(class, *b))
}

// What stands before the first byte of the class, and what stands behind it, if there is one.
pub fn cut(s: &[u8], mark: Class) -> (&[u8], Option<&[u8]>)
    ensures { IsCut mark s.now result.0.now result.1 }
{
    match s.iter().position(|b| is_of(mark, *b)) {
        Some(end) => (&s[..end], Some(&s[end + 1..])),
        None => (s, None),
    }
}
