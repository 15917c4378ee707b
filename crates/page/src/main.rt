// Reads a job file from standard input and prints the page of its plan for the cabinet door (document 02 §3).
//
// The first 16,384 bytes settle what is printed (`enough` in specs/Printed.antt): no more are read.
#![tactic(auto)]

ghost use Rattle.std.specs.Prelude.{◌≡◌};
ghost use Rattle.listing.specs.Listing.{listed};
ghost use Rattle.page.specs.Printed.{print_call};

// Puts what is printed for a job file at the front of `out`, a refusal's line or the page of its plan, and answers its length.
fn answer(file: &[u8], out: &mut [u8; 12288]) -> usize
    ensures { listed result out.new ≡ print_call file.now out.old }
{
    let mut starts = [0u32; 256];
    let mut processors = [0u8; 256];
    let mut scratch = [0u32; 4096];
    if let Err(refusal) = schedule::plan(file, &mut starts, &mut processors, &mut scratch) {
        return listing::refusal(refusal.number(), out);
    }
    let Ok(length) = gantt::draw(file, &starts, &processors, out) else {
        unreachable!()
    };
    length
}

fn main(rt: HostRuntime) {
    let mut input = [0u8; 16384];
    let came = input::read_all(&mut rt.stdin(), &mut input);
    let n = match came {
        Ok(n) => n,
        Err(error) => {
            let _ = eprintln!(rt; "page: read: {error}");
            return;
        }
    };
    let mut output = [0u8; 12288];
    let length = answer(&input[..n], &mut output);
    let done = rt.write_all(&output[..length]);
    if let Err(error) = done {
        let _ = eprintln!(rt; "page: write: {error}");
    }
}
