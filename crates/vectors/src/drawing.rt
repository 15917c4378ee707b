// A case of the page: what is answered for a plan that is handed in, the rows as they are drawn, and a digest of what stands past them
// in the buffer, on a refusal of the whole buffer. Its body:
//
//   0  length of the buffer (2)    2  fill of the buffer    3  the plan and the file, as in a case of the checker
use crate::body::Body;
use crate::checking::{self, Plan};
use crate::show;
use std::io::{self, Write};

// The bytes past the page.
fn show_past<W: Write>(sink: &mut W, bytes: &[u8]) -> io::Result<()> {
    let digest = show::digest(0, bytes);
    writeln!(sink, " past it {digest}")
}

fn draw<W: Write>(sink: &mut W, plan: Plan, out: &mut [u8]) -> io::Result<()> {
    match gantt::draw(plan.file, plan.starts, plan.processors, out) {
        Ok(length) => {
            let (page, past) = out.split_at(length.min(out.len()));
            sink.write_all(page)?;
            write!(sink, "page of {length}")?;
            show_past(sink, past)
        }
        Err(refusal) => {
            write!(sink, "page refused {}", refusal.number())?;
            show_past(sink, out)
        }
    }
}

pub fn case<W: Write>(sink: &mut W, body: &[u8]) -> io::Result<()> {
    let mut body = Body::new(body);
    let (Some(room), Some(fill)) = (body.length(), body.byte()) else {
        return Ok(());
    };
    let mut times = [0u32; 300];
    let Some(plan) = checking::handed(body, &mut times) else {
        return Ok(());
    };
    let mut buffer = [fill; 1200];
    let Some(out) = buffer.get_mut(..room) else {
        return Ok(());
    };
    draw(sink, plan, out)
}
