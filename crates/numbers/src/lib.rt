// Numbers, as the crates above need them: an octet as a wider number, a signed number made, and one taken apart. The one place for each.
#![tactic(auto)]

ghost use Rattle.std.specs.Prelude.{◌≡◌, ◌<◌, ◌^◌, pos, negsuc};
ghost use Rattle.std.specs.Int.Signed.{mag};

// ---- an octet
//
// Two, and not one conversion by `From`: what is promised, and by `one_wide` and `one_octet` held, is also that the number is below 256, on which the
// proofs of the crates above rest; the law of `From` doesn't say it.

// As a number that codes are made of.
pub fn wide(x: u8) -> u64
    ensures { (result ≡ x) × (result < 256) }
{
    u64::from(x)
}

// As a count or a length.
pub fn octet(x: u8) -> usize
    ensures { (result ≡ x) × (result < 256) }
{
    usize::from(x)
}

// ---- a signed number

// n, and -(n + 1).
pub fn up(n: u64) -> i64
    requires { n < 2 ^ 63 }
    ensures { result ≡ pos n }
{
    n as i64
}

pub fn down(n: u64) -> i64
    requires { n < 2 ^ 63 }
    ensures { result ≡ negsuc n }
{
    -1 - (n as i64)
}

// x where it is not negative, and -x - 1 where it is.
pub fn magnitude(x: i64) -> u64
    ensures { result ≡ mag x }
{
    if x < 0 { (-1 - x) as u64 } else { x as u64 }
}
