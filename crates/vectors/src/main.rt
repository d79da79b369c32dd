// Test vectors: each line `KIND VALUE` of standard input is asked of the C face, and printed with its answer.
#![tactic(auto)]

ghost use Rattle.std.specs.Prelude.{◌≡◌, ◌≤◌, length, take};

use std::io::{Read, Write};

// The kinds of values that the face judges.
#[derive(Clone, Copy)]
enum Kind {
    Iban,
    CreditorId,
    Bic,
    Date,
    Time,
    Reference,
    EndToEnd,
    Text70,
    Text140,
    Count,
    ItemAmount,
    HeaderAmount,
}

// The kind that a line names.
// (A match, here and in `ask`: a conversion and a table of functions would name the twelve kinds as often, and be no plainer.)
fn kind_named(name: &[u8]) -> Option<Kind> {
    match name {
        b"iban" => Some(Kind::Iban),
        b"creditor_id" => Some(Kind::CreditorId),
        b"bic" => Some(Kind::Bic),
        b"date" => Some(Kind::Date),
        b"time" => Some(Kind::Time),
        b"reference" => Some(Kind::Reference),
        b"end_to_end" => Some(Kind::EndToEnd),
        b"text70" => Some(Kind::Text70),
        b"text140" => Some(Kind::Text140),
        b"count" => Some(Kind::Count),
        b"item_amount" => Some(Kind::ItemAmount),
        b"header_amount" => Some(Kind::HeaderAmount),
        _ => None,
    }
}

// Asks the face, which writes three words: 0 and what the value is worth, or a refusal's number.
fn ask(kind: Kind, value: &[u8]) -> [u64; 3] {
    let mut answer = [0; 3];
    match kind {
        Kind::Iban => bulk::bulk_iban(value, &mut answer),
        Kind::CreditorId => bulk::bulk_creditor_id(value, &mut answer),
        Kind::Bic => bulk::bulk_bic(value, &mut answer),
        Kind::Date => bulk::bulk_date(value, &mut answer),
        Kind::Time => bulk::bulk_time(value, &mut answer),
        Kind::Reference => bulk::bulk_reference(value, &mut answer),
        Kind::EndToEnd => bulk::bulk_end_to_end(value, &mut answer),
        Kind::Text70 => bulk::bulk_text70(value, &mut answer),
        Kind::Text140 => bulk::bulk_text140(value, &mut answer),
        Kind::Count => bulk::bulk_count(value, &mut answer),
        Kind::ItemAmount => bulk::bulk_item_amount(value, &mut answer),
        Kind::HeaderAmount => bulk::bulk_header_amount(value, &mut answer),
    }
    answer
}

// Writes what the face answers: what a count or an amount is worth, of the other kinds `yes`; or a refusal's number.
fn print_answer<W: Write>(out: &mut W, kind: Kind, value: &[u8]) {
    match (ask(kind, value), kind) {
        ([0, worth, _], Kind::Count | Kind::ItemAmount | Kind::HeaderAmount) => {
            let _ = write!(out, "{worth}");
        }
        ([0, ..], _) => {
            let _ = out.write_all(b"yes");
        }
        ([number, ..], _) => {
            let _ = out.write_all(b"refused ");
            let _ = write!(out, "{number}");
        }
    }
}

// Writes one line: the kind, the value in brackets, the answer. Where a write fails, the next piece is still written.
fn print_judged<W: Write>(out: &mut W, name: &[u8], value: &[u8]) {
    let _ = out.write_all(name);
    let _ = out.write_all(b" [");
    let _ = out.write_all(value);
    let _ = out.write_all(b"] ");
    match kind_named(name) {
        Some(kind) => print_answer(out, kind, value),
        None => {
            let _ = out.write_all(b"unknown kind");
        }
    }
    let _ = out.write_all(b"\n");
}

// The kind stands before the first space and the value behind it. With no space the value is empty.
fn judge_line<W: Write>(out: &mut W, line: &[u8]) {
    match line.iter().position(|c| *c == b' ') {
        Some(n) => print_judged(out, &line[..n], &line[n + 1..]),
        None => print_judged(out, line, b""),
    }
}

// A last line need not end in a line end.
fn judge_lines<W: Write>(out: &mut W, input: &[u8]) {
    for line in input.split_inclusive(|c| *c == b'\n') {
        judge_line(out, line.strip_suffix(b"\n").unwrap_or(line));
    }
}

// Reads until the area is full, the input ends or a read fails, and answers how many bytes stand at the beginning of the area.
// (As `take_in` in `verdict`: one program cannot call another's functions.)
fn read_full<R: Read>(input: &mut R, area: &mut [u8]) -> usize
    ensures in_bounds { result ≤ length area.new }
    ensures len { result ≡ length (take result area.new) }
{
    let mut count = 0;
    while count < area.len() {
        match input.read(&mut area[count..]) {
            Ok(0) | Err(_) => break,
            Ok(n) => count += n,
        }
    }
    count
}

// The input lies in a fixed area, since nothing here takes memory from the heap. A read that fails moves nothing, so where one more read finds the end, all of the input came.
fn main(rt: HostRuntime) {
    let mut area = [0; 65_536];
    let count = read_full(&mut rt.stdin(), &mut area);
    match rt.stdin().read(&mut [0; 1]) {
        Ok(0) => judge_lines(&mut rt.stdout(), &area[..count]),
        Ok(_) if count == area.len() => {
            let _ = rt
                .stderr()
                .write_all(b"vectors: standard input is longer than 65,536 bytes\n");
        }
        _ => {
            let _ = rt
                .stderr()
                .write_all(b"vectors: standard input cannot be read\n");
        }
    }
}
