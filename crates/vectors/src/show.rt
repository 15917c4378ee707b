// Printing to the output.
ghost use Rattle.std.specs.Prelude.{◌<◌};

use std::fmt::Display;
use std::io::{self, Write};

// Each byte as two hexadecimal digits.
pub fn hex<W: Write>(sink: &mut W, bytes: &[u8]) -> io::Result<()> {
    for byte in bytes {
        write!(sink, "{byte:02x}")?;
    }
    Ok(())
}

// Each number, after a space.
pub fn words<W: Write, T: Display>(sink: &mut W, numbers: &[T]) -> io::Result<()> {
    for number in numbers {
        write!(sink, " {number}")?;
    }
    Ok(())
}

// A digest with more numbers, of those that are too many to print.
pub fn digest<T: Copy>(before: u64, numbers: &[T]) -> u64
where
    u32: From<T>,
    requires { before < 4294967291 }
    ensures { result < 4294967291 }
{
    let mut sum = before;
    for number in numbers {
        sum = (257 * sum + u64::from(u32::from(*number))) % 4294967291;
    }
    sum
}
