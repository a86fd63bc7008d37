// Decimal numbers.
ghost use Rattle.std.specs.Prelude.{◌≡◌};
ghost use Rattle.text.specs.Page.{page, puts};
ghost use Rattle.text.specs.Number.{decimal_text};

use super::page::put_text;

// A number in decimal, with no zero in front, on a lent buffer from a place on; the place after it.
pub fn put_decimal(out: &mut [u8], at: usize, n: u64) -> usize
    ensures { page out.new result ≡ puts (decimal_text n) (page out.old at) }
{
    let mut text = [0u8; 20];
    let k = io::decimal(n, &mut text);
    put_text(out, at, &text[..k])
}
