// The calls for other languages that look at a bucket. Each hands on to the function of its name and does nothing of its own.

#![tactic(auto)]

ghost use Rattle.std.specs.Prelude.{◌≡◌};
ghost use Rattle.rule.specs.Bucket.{error, level};

use rule::Bucket;

#[unsafe(no_mangle)]
pub extern "C" fn ndz_level(bucket: Bucket) -> i32
    ensures { result ≡ level bucket }
{
    bucket::level(bucket)
}

#[unsafe(no_mangle)]
pub extern "C" fn ndz_error(bucket: Bucket) -> u32
    ensures { result ≡ error bucket }
{
    bucket::error(bucket)
}
