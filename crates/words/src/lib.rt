// Four bytes and a number of 32 bits, and 32 bits and a reading.

#![tactic(auto)]

ghost use Rattle.std.specs.Prelude.{◌≡◌, ◌+◌, ◌≤◌, length};
ghost use Rattle.std.proofs.lemmas.List.Edits.{sets};
ghost use Rattle.rule.specs.Bytes.{bits, bytes, reading, word_at};

// The number in the four bytes from `at`, low byte first.
pub fn word(s: &[u8], at: usize) -> u32
    requires { at + 4 ≤ length s.now }
    ensures { result ≡ word_at s.now at }
{
    u32::from_le_bytes([s[at], s[at + 1], s[at + 2], s[at + 3]])
}

// `x` is stored in the four bytes from `at`.
pub fn put_word(out: &mut [u8], at: usize, x: u32)
    requires { at + 4 ≤ length out.old }
    ensures { out.new ≡ sets out.old at (bytes x) }
{
    out[at..at + 4].copy_from_slice(&x.to_le_bytes());
}

// The reading of 32 bits, two's complement.
pub fn reading(x: u32) -> i32
    ensures { result ≡ reading x }
{
    x.cast_signed()
}

// The 32 bits of a reading.
pub fn bits(v: i32) -> u32
    ensures { result ≡ bits v }
{
    v.cast_unsigned()
}
