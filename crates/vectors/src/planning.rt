// A case of the planner and the cover call: what each answers, what it leaves in the three slices, and what the checker says of
// the starts and processors there. Then what the planner's small entry answers, and one digest of what it leaves in all three slices.
// A case of ties by weight has planner and cover call by weight in their place. The body of both:
//
//   0  length of the starts (2)        6  fill of the starts (4)       14  fill of the processors
//   2  length of the processors (2)   10  fill of the scratch (4)      15  the file
//   4  length of the scratch (2)
ghost use Rattle.std.specs.Prelude.{◌≤◌};

use crate::body::Body;
use crate::checking::{self, Plan};
use crate::show;
use job::Refusal;
use schedule::{Figures, Outcome};
use std::io::{self, Write};

// What is lent, three slices in their fills, and the file.
#[derive(Clone, Copy)]
struct Lent<'a> {
    starts: usize,
    processors: usize,
    scratch: usize,
    time: u32,
    arrival: u32,
    processor: u8,
    file: &'a [u8],
    ghost lengths: { (starts ≤ 300) × (processors ≤ 300) × (scratch ≤ 4200) },
}

fn read<'a>(body: &'a [u8]) -> Option<Lent<'a>> {
    let mut body = Body::new(body);
    let starts = body.length()?;
    let processors = body.length()?;
    let scratch = body.length()?;
    if 300 < starts || 300 < processors || 4200 < scratch {
        return None;
    }
    Some(Lent {
        starts,
        processors,
        scratch,
        time: body.four()?,
        arrival: body.four()?,
        processor: body.byte()?,
        file: body.rest(),
    })
}

// What a call reports that is not refused.
trait Report {
    fn show<W: Write>(self, sink: &mut W) -> io::Result<()>;
}

impl Report for Outcome {
    fn show<W: Write>(self, sink: &mut W) -> io::Result<()> {
        write!(sink, " {} {}", self.tasks, self.end)
    }
}

impl Report for Figures {
    fn show<W: Write>(self, sink: &mut W) -> io::Result<()> {
        write!(sink, " {} {} {}", self.cover, self.least, self.dearest)
    }
}

// Makes a call on the slices, and prints its word and its answer, and then what `left` prints of the slices.
fn lend<W: Write, R: Report, C, L>(
    sink: &mut W,
    lent: Lent,
    word: &str,
    call: C,
    left: L,
) -> io::Result<()>
where
    C: FnOnce(&[u8], &mut [u32], &mut [u8], &mut [u32]) -> Result<R, Refusal>,
    L: FnOnce(&mut W, &[u8], &[u32], &[u8], &[u32]) -> io::Result<()>,
    requires callable { C.IsAlwaysCallable call }
    requires printable { L.IsAlwaysCallable left }
{
    let mut times = [lent.time; 300];
    let mut places = [lent.processor; 300];
    let mut arrivals = [lent.arrival; 4200];
    let starts = &mut times[..lent.starts];
    let processors = &mut places[..lent.processors];
    let scratch = &mut arrivals[..lent.scratch];
    write!(sink, "{word}")?;
    match call(lent.file, starts, processors, scratch) {
        Ok(report) => report.show(sink)?,
        Err(refusal) => write!(sink, " refused {}", refusal.number())?,
    }
    left(sink, lent.file, starts, processors, scratch)
}

// The slices that a call leaves, and what the checker says of them.
fn checked<W: Write>(
    sink: &mut W,
    file: &[u8],
    starts: &[u32],
    processors: &[u8],
    scratch: &[u32],
) -> io::Result<()> {
    write!(sink, " starts")?;
    show::words(sink, starts)?;
    write!(sink, " processors")?;
    show::words(sink, processors)?;
    let digest = show::digest(0, scratch);
    write!(sink, " scratch {digest}")?;
    checking::check(
        sink,
        Plan {
            starts,
            processors,
            file,
        },
    )
}

// One digest of all three slices.
fn digested<W: Write>(
    sink: &mut W,
    _file: &[u8],
    starts: &[u32],
    processors: &[u8],
    scratch: &[u32],
) -> io::Result<()> {
    let digest = show::digest(show::digest(show::digest(0, starts), processors), scratch);
    writeln!(sink, " {digest}")
}

// The small entry asks for 512 places of scratch where the planner asks for 4,096: it is lent 3,584 less, where there are as many.
fn for_small<'a>(mut lent: Lent<'a>) -> Lent<'a> {
    if 3584 <= lent.scratch {
        lent.scratch -= 3584;
    }
    lent
}

pub fn case<W: Write>(sink: &mut W, body: &[u8]) -> io::Result<()> {
    let Some(lent) = read(body) else {
        return Ok(());
    };
    lend(sink, lent, "plan", schedule::plan, checked)?;
    lend(sink, lent, "cover", schedule::cover, checked)?;
    lend(
        sink,
        for_small(lent),
        "small",
        schedule::plan_small,
        digested,
    )
}

pub fn weight_case<W: Write>(sink: &mut W, body: &[u8]) -> io::Result<()> {
    let Some(lent) = read(body) else {
        return Ok(());
    };
    lend(
        sink,
        lent,
        "plan by weight",
        schedule::plan_by_weight,
        checked,
    )?;
    lend(
        sink,
        lent,
        "cover by weight",
        schedule::cover_by_weight,
        checked,
    )
}
