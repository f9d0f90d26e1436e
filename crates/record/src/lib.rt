// Sixteen bytes and a bucket.

#![tactic(auto)]

ghost use Rattle.std.specs.Prelude.{◌≡◌, ◌*◌, ◌≤◌, suc, length};
ghost use Rattle.rule.specs.Numbers.{record_width};
ghost use Rattle.rule.specs.Bytes.{record_at};
ghost use Rattle.storage.specs.Files.{put};

use rule::{Bucket, RECORD};
use words::{bits, put_word, reading, word};

// The bytes of a record's start are its first, and those of its count are from here.
const COUNT: usize = 4;
// Those of its least reading are from here.
const LEAST: usize = 8;
// Those of its largest reading are from here.
const LARGEST: usize = 12;

// The record at index `at`.
pub fn read(file: &[u8], at: usize) -> Bucket
    requires { record_width * suc at ≤ length file.now }
    ensures { result ≡ record_at file.now at }
{
    let from = RECORD * at;
    Bucket {
        start: word(file, from),
        count: word(file, from + COUNT),
        least: reading(word(file, from + LEAST)),
        largest: reading(word(file, from + LARGEST)),
    }
}

// The record at index `at` becomes that of `b`.
pub fn write(out: &mut [u8], at: usize, b: Bucket)
    requires { record_width * suc at ≤ length out.old }
    ensures { out.new ≡ put out.old at b }
{
    let from = RECORD * at;
    put_word(out, from, b.start);
    put_word(out, from + COUNT, b.count);
    put_word(out, from + LEAST, bits(b.least));
    put_word(out, from + LARGEST, bits(b.largest));
}
