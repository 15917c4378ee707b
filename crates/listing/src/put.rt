// Text put into a buffer piece after piece. Each function answers the place after what it has put.
ghost use Rattle.std.specs.Prelude.{◌≡◌, ◌+◌, ◌≤◌, ◌<◌, length, drop};
ghost use Rattle.base.specs.Slices.{Put};
ghost use Rattle.listing.specs.Listing.{decimal, field as field_of, line as line_of};

// The bytes of a word.
pub fn word(out: &mut [u8], at: usize, bytes: &[u8]) -> usize
    requires { at + length bytes.now ≤ length out.old }
    ensures { Put out.old out.new at result bytes.now }
{
    let next = at + bytes.len();
    out[at..next].copy_from_slice(bytes);
    next
}

// The decimal digits of a number, in the last of ten places: the place where they begin.
fn spell(x: u32, digits: &mut [u8]) -> usize
    requires { length digits.old ≡ 10 }
    ensures { (result < 10) × (drop result digits.new ≡ decimal x) }
{
    let mut at: usize = 9;
    let mut rest = x;
    while 9 < rest {
        digits[at] = (48 + rest % 10) as u8;
        rest = rest / 10;
        at -= 1;
    }
    digits[at] = (48 + rest) as u8;
    at
}

// A number in decimal, and the byte that follows it.
pub fn field(out: &mut [u8], at: usize, x: u32, next: u8) -> usize
    requires { at + 11 ≤ length out.old }
    ensures put { Put out.old out.new at result (field_of x next) }
    ensures upper_bound { result ≤ at + 11 }
{
    let mut digits = [0u8; 10];
    let first = spell(x, &mut digits);
    let last = word(out, at, &digits[first..10]);
    out[last] = next;
    last + 1
}

// A line of a word and a number.
pub fn line(out: &mut [u8], at: usize, bytes: &[u8], x: u32) -> usize
    requires { at + length bytes.now + 11 ≤ length out.old }
    ensures put { Put out.old out.new at result (line_of bytes.now x) }
    ensures upper_bound { result ≤ at + length bytes.now + 11 }
{
    let number = word(out, at, bytes);
    field(out, number, x, b'\n')
}
