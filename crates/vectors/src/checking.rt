// A case of the checker: what it says of a plan that is handed in. Its body:
//
//   0  number of starts (2)         4  the starts (4 each), then the processors, then the file
//   2  number of processors (2)
use crate::body::Body;
use std::io::{self, Write};

// A plan that is handed in, and the file of its job.
#[derive(Clone, Copy)]
pub struct Plan<'a> {
    pub starts: &'a [u32],
    pub processors: &'a [u8],
    pub file: &'a [u8],
}

// The plan and the file of a body, with the starts in `times`.
pub fn handed<'a>(mut body: Body<'a>, times: &'a mut [u32]) -> Option<Plan<'a>> {
    let starts = body.length()?;
    let processors = body.length()?;
    if times.len() < starts {
        return None;
    }
    let starts = &mut times[..starts];
    for start in starts.iter_mut() {
        *start = body.four()?;
    }
    Some(Plan {
        starts,
        processors: body.bytes(processors)?,
        file: body.rest(),
    })
}

// What the checker says.
pub fn check<W: Write>(sink: &mut W, plan: Plan) -> io::Result<()> {
    match schedule::check(plan.file, plan.starts, plan.processors) {
        Ok(()) => writeln!(sink, " check yes"),
        Err(refusal) => writeln!(sink, " check refused {}", refusal.number()),
    }
}

pub fn case<W: Write>(sink: &mut W, body: &[u8]) -> io::Result<()> {
    let mut times = [0u32; 300];
    let Some(plan) = handed(Body::new(body), &mut times) else {
        return Ok(());
    };
    write!(
        sink,
        "plan of {} {}",
        plan.starts.len(),
        plan.processors.len()
    )?;
    check(sink, plan)
}
