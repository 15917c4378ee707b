// A case of the listing: its text, its length, and a digest of what stands past it in the output. Its body:
//
//   0  fill of the output    1  the file
use crate::show;
use std::io::{self, Write};

pub fn case<W: Write>(sink: &mut W, body: &[u8]) -> io::Result<()> {
    let Some((fill, file)) = body.split_first() else {
        return Ok(());
    };
    let mut out = [*fill; 12288];
    let length = listing::write(file, &mut out);
    let (text, past) = out.split_at(length);
    sink.write_all(text)?;
    let digest = show::digest(0, past);
    writeln!(sink, "listing of {length} past it {digest}")
}
