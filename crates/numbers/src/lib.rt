// The numbers that bytes stand for, by the definitions of `notation`.

#![tactic(auto)]

ghost use Rattle.std.specs.Prelude.{◌≡◌};
ghost use Rattle.notation.specs.Reading.{digits, number, signed_field, unsigned_field};

fn digits(s: &[u8]) -> Option<i64>
    ensures { result ≡ digits s.now }
{
    if !(1..=10).contains(&s.len()) {
        return None;
    }
    let mut n = 0;
    for b in s {
        if !b.is_ascii_digit() {
            return None;
        }
        n = n * 10 + u64::from(b - b'0');
    }
    Some(n as i64)
}

fn read_number(s: &[u8]) -> Option<i64>
    ensures { result ≡ number s.now }
{
    match s {
        [b'-', size @ ..] => Some(-digits(size)?),
        _ => digits(s),
    }
}

// A number that an unsigned field holds.
pub fn unsigned_field(s: &[u8]) -> Option<u32>
    ensures { result ≡ unsigned_field (number s.now) }
{
    u32::try_from(read_number(s)?).ok()
}

// A number that a signed field holds.
pub fn signed_field(s: &[u8]) -> Option<i32>
    ensures { result ≡ signed_field (number s.now) }
{
    i32::try_from(read_number(s)?).ok()
}
