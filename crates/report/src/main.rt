// The report: reads request.txt, answer.txt and refutation.txt in the working folder, settles, and writes what reports::report
// makes. Each file may have up to 65,536 bytes; the first longer one, in that order, ends it with "too long" and the name. A missing
// file is empty.
#![tactic(auto)]

ghost use Rattle.std.specs.Prelude.{OnOk};
ghost use Rattle.std.specs.Io.KnownBytes.{Appends};
ghost use Rattle.reports.specs.Report.{report_text};
ghost use Rattle.report.specs.Output.{lent_zeros, too_long_text, output_text};

use std::io::{Read, Write};
use std::rt::Files;
use std::{fs, io};

// The longest file that is read whole, in bytes.
const LONGEST: usize = 65536;

// Reads a file, but no more than one byte above the longest that is read whole. A file that cannot be opened is empty.
fn load<R: Files + AllocGlobal>(rt: &R, name: &str) -> io::Result<Vec<u8>> {
    let mut bytes = Vec::new(rt.alloc());
    if let Ok(file) = fs::open(rt, name) {
        file.take(LONGEST as u64 + 1).read_to_end(&mut bytes)?;
    }
    Ok(bytes)
}

fn too_long<W: Write>(out: &mut W, name: &str) -> io::Result<()>
    ensures { OnOk result (Appends (W.contents out.old) (W.contents out.new) (too_long_text name.now)) }
{
    writeln!(out, "too long {name}")
}

// Settles with the slices that the program lends, and writes the text.
fn settle<W: Write>(out: &mut W, request: &[u8], answer: &[u8], refutation: &[u8]) -> io::Result<()>
    ensures { OnOk result (Appends (W.contents out.old) (W.contents out.new) (report_text request.now answer.now refutation.now lent_zeros)) }
{
    let mut literals = [0i32; 16384];
    let mut pairs = [0u32; 16384];
    let mut added = [0u32; 16384];
    let mut values = [0u8; 8192];
    let text = reports::report(
        request,
        answer,
        refutation,
        &mut literals,
        &mut pairs,
        &mut added,
        &mut values,
    );
    out.write_all(text.as_slice())
}

// Settles from three files, or names the first that is too long.
fn judge<W: Write>(out: &mut W, request: &[u8], answer: &[u8], refutation: &[u8]) -> io::Result<()>
    ensures { OnOk result (Appends (W.contents out.old) (W.contents out.new) (output_text request.now answer.now refutation.now)) }
{
    if LONGEST < request.len() {
        return too_long(out, "request.txt");
    }
    if LONGEST < answer.len() {
        return too_long(out, "answer.txt");
    }
    if LONGEST < refutation.len() {
        return too_long(out, "refutation.txt");
    }
    settle(out, request, answer, refutation)
}

fn main(rt: HostRuntime) -> io::Result<()> {
    let request = load(&rt, "request.txt")?;
    let answer = load(&rt, "answer.txt")?;
    let refutation = load(&rt, "refutation.txt")?;
    let mut out = io::writer(&rt);
    judge(
        &mut out,
        request.as_slice(),
        answer.as_slice(),
        refutation.as_slice(),
    )
}
