// The judge as a program: one message on standard input, its verdict as one line on standard output.
#![tactic(auto)]

ghost use Rattle.std.specs.Prelude.{◌≡◌, ◌≤◌, ◌<◌, length, take, IfOk, OnOk, IfSome};
ghost use Rattle.std.specs.Io.KnownBytes.{Consumes, IsAtEnd, Appends};
ghost use Rattle.judge.specs.Verdict.{meant};
ghost use Rattle.verdict.specs.Line.{told, answered};

use answers::Refused;
use judge::{Accepted, Verdict};
use std::io::{Read, Write};
use std::{fmt, io};

// Why no line was written.
#[derive(Clone, Copy)]
enum Trouble {
    NotRead,
    NotWritten,
}

// What the program says of it.
impl fmt::Display for Trouble {
    // One sentence for each trouble.
    fn fmt<W: fmt::Write>(&self, f: &mut fmt::Formatter<W>) -> fmt::Result {
        match self {
            Trouble::NotRead => write!(f, "standard input cannot be read"),
            Trouble::NotWritten => write!(f, "standard output cannot be written"),
        }
    }
}

// Room for the longest message and one byte more, which tells that the input is too long.
fn room() -> [u8; 65537]
    ensures { 65537 ≡ length result }
{
    [0; 65537]
}

// Reads until the input ends or the area is full, and answers how many bytes came. A pipe may give a few bytes at a time, and std fills no slice up to the end of the input.
fn take_in<R: Read>(input: &mut R, area: &mut [u8]) -> io::Result<usize>
    ensures in_bounds { IfOk result (λ n. n ≤ length area.new) }
    ensures len { IfOk result (λ n. n ≡ length (take n area.new)) }
    ensures bytes { IfOk result (λ n. Consumes (R.remaining input.old) (R.remaining input.new) (take n area.new)) }
    ensures end { IfOk result (λ n. n < length area.new → IsAtEnd (R.remaining input.new)) }
{
    let mut count = 0;
    while count < area.len() {
        let n = input.read(&mut area[count..])?;
        if n == 0 {
            break;
        }
        count += n;
    }
    Ok(count)
}

// The one line for a message that was judged.
fn print_verdict<W: Write>(out: &mut W, v: Verdict) -> io::Result<()>
    ensures { OnOk result (Appends (W.contents out.old) (W.contents out.new) (told (meant v))) }
{
    match v {
        Ok(Accepted { count, cents }) => writeln!(out, "accepted {count} {cents}"),
        Err(Refused { why, at }) => writeln!(out, "refused {} {at}", why.number()),
    }
}

// The one line for input that came whole, or one byte more than a message may have.
fn answer<W: Write>(out: &mut W, input: &[u8]) -> io::Result<()>
    ensures { OnOk result (Appends (W.contents out.old) (W.contents out.new) (answered input.now)) }
{
    if 65_536 < input.len() {
        return writeln!(out, "too long");
    }
    let mut index = [0; twice::LEAST_INDEX];
    print_verdict(out, judge::judge(input, &mut index))
}

// The program over any reader and writer.
// Where a read failed there is no verdict: what came before may be a part of the message only.
fn run<R: Read, W: Write>(input: &mut R, out: &mut W) -> Result<(), Trouble>
    ensures { OnOk result (IfSome (R.remaining input.old)
        (λ m. Appends (W.contents out.old) (W.contents out.new) (answered m))) }
{
    let mut area = room();
    let count = take_in(input, &mut area).map_err(|_| Trouble::NotRead)?;
    answer(out, &area[..count]).map_err(|_| Trouble::NotWritten)
}

// The program over the system's own input and outputs.
fn main(rt: HostRuntime) {
    if let Err(trouble) = run(&mut rt.stdin(), &mut rt.stdout()) {
        let _ = writeln!(rt.stderr(), "verdict: {trouble}");
    }
}
