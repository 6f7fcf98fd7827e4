// Reads a request from standard input and writes its clause file to standard output, from a buffer of 65,536 bytes; otherwise
// writes "refused" and the number. It reads up to 65,536 bytes; a longer input is no request and is refused with 1.
#![tactic(auto)]

ghost use Rattle.std.specs.Prelude.{◌≡◌, ◌+◌, take, IfOk, IfSome, OnOk};
ghost use Rattle.std.specs.Io.KnownBytes.{Appends};
ghost use Rattle.refusal.specs.Refusal.{number};
ghost use Rattle.file.specs.Output.{longest, refused_text, request_text, output_text};

use refusal::Refusal;
use request::Request;
use std::alloc::Global;
use std::io;
use std::io::{Read, Write};

// The longest input that may be a request, in bytes.
const LONGEST: usize = 65536;

// Writes the line of a refusal.
fn refuse<W: Write>(out: &mut W, refusal: Refusal) -> io::Result<()>
    ensures { OnOk result (Appends (W.contents out.old) (W.contents out.new) (refused_text (number refusal))) }
{
    writeln!(out, "refused {}", refusal.number())
}

// Writes the clause file of a request, or the refusal.
fn write<W: Write>(out: &mut W, q: Request) -> io::Result<()>
    ensures { OnOk result (Appends (W.contents out.old) (W.contents out.new) (request_text q)) }
{
    let mut buffer = [0u8; 65536];
    match dimacs::write::write_file(q, &mut buffer) {
        Ok(length) => out.write_all(&buffer[..length]),
        Err(refusal) => refuse(out, refusal),
    }
}

// Answers an input: the clause file of the request that it is, or the refusal.
fn answer<W: Write>(out: &mut W, input: &[u8]) -> io::Result<()>
    ensures { OnOk result (Appends (W.contents out.old) (W.contents out.new) (output_text input.now)) }
{
    if LONGEST < input.len() {
        return refuse(out, Refusal::RequestLine);
    }
    match request_read::read_request(input) {
        Ok(q) => write(out, q),
        Err(unread) => refuse(out, unread),
    }
}

// The bytes that a reader gives, but no more than one above the longest input that may be a request.
fn read_input<R: Read>(alloc: Global, input: R) -> io::Result<Vec<u8>>
where
    R: Drop,
    ensures { IfOk result (λ v. IfSome (R.remaining input) (λ xs. v.items ≡ take (longest + 1) xs)) }
{
    let mut bytes = Vec::new(alloc);
    input.take(LONGEST as u64 + 1).read_to_end(&mut bytes)?;
    Ok(bytes)
}

fn main(rt: HostRuntime) -> io::Result<()> {
    let input = read_input(rt.alloc(), rt.reader())?;
    answer(&mut io::writer(&rt), input.as_slice())
}
