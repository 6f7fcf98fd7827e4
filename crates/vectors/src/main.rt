// Runs the proved functions on examples and writes what each answers, a line for each: requests read from text, requests given as
// numbers, networks checked and compared, parts of a refutation's text, the labels of clusters. What it must write stands in the file
// stdout beside src/.
#![tactic(auto)]

use answer::{VALUES, Values};
use network::Network;
use request::Request;
use std::io;
use std::io::Write;

fn number<W: Write>(out: &mut W, x: u64) -> io::Result<()> {
    write!(out, " {x}")
}

fn show_reading<W: Write>(out: &mut W, text: &[u8]) -> io::Result<()> {
    match request_read::read_request(text) {
        Ok(q) => {
            write!(out, "taken")?;
            number(out, u64::from(q.n))?;
            number(out, u64::from(q.table))?;
            number(out, u64::from(q.free))?;
            number(out, u64::from(q.r))?;
            number(out, u64::from(q.m))?;
        }
        Err(refusal) => write!(out, "refused {refusal}")?,
    }
    writeln!(out)
}

fn show_test<W: Write>(out: &mut W, n: u8, table: u16, free: u16, r: u8, m: u8) -> io::Result<()> {
    write!(out, "test")?;
    match Request::new(n, table, free, r, m).test() {
        Ok(_) => writeln!(out, " 0"),
        Err(refusal) => writeln!(out, " {refusal}"),
    }
}

fn show_check<W: Write>(out: &mut W, q: Request, w: Network) -> io::Result<()> {
    match network_check::check_network(q, w) {
        Ok(None) => writeln!(out, "does"),
        Ok(Some(row)) => writeln!(out, "row {row}"),
        Err(refusal) => writeln!(out, "refused {refusal}"),
    }
}

fn show_same<W: Write>(out: &mut W, a: Network, b: Network) -> io::Result<()> {
    if network::value::same_network(a, b) {
        writeln!(out, "same")
    } else {
        writeln!(out, "other")
    }
}

fn show_part<W: Write>(
    out: &mut W,
    text: &[u8],
    records: &[u32],
    c: u32,
    a: u32,
    id: u32,
) -> io::Result<()> {
    write!(out, "part ")?;
    out.write_all(added::part(text, records, c, a, id))?;
    writeln!(out, ".")
}

// Requests as text: document 01's, then one for each way in which the form or a number is refused, then free rows.
fn requests<W: Write>(out: &mut W) -> io::Result<()> {
    show_reading(out, b"1 00 0 0\n")?;
    show_reading(out, b"2 0110 4 2\n")?;
    show_reading(out, b"4 1000000000000001 7 7\n")?;
    show_reading(out, b"")?;
    show_reading(out, b"5 01 1 1\n")?;
    show_reading(out, b"1 011 1 1\n")?;
    show_reading(out, b"1 01 8 1\n")?;
    show_reading(out, b"1 01 1 8\n")?;
    show_reading(out, b"1 01 1 1")?;
    show_reading(out, b"1 01 1 1\n\n")?;
    show_reading(out, b"1 01 1 1 \n")?;
    show_reading(out, b" 1 01 1 1\n")?;
    show_reading(out, b"1  01 1 1\n")?;
    show_reading(out, b"1 01 1\n")?;
    show_reading(out, b"1 01 1 1\r\n")?;
    show_reading(out, b"1 02 1 1\n")?;
    show_reading(out, b"2 01 1 1\n")?;
    show_reading(out, b"9 2 9 9\n")?;
    show_reading(out, b"1 9 9 9\n")?;
    show_reading(out, b"01 01 1 1\n")?;
    show_reading(out, b"1 01 00 1\n")?;
    show_reading(out, b"1 01 1 01\n")?;
    show_reading(
        out,
        b"1 01 1 000000000000000000000000000000000000000000000000000000000000000000000000\n",
    )?;
    show_reading(out, b"1 0- 1 1\n")?;
    show_reading(out, b"1 -- 0 0\n")?;
    show_reading(out, b"4 1010001010------ 3 2\n")?;
    show_reading(out, b"1 -2 1 1\n")?;
    show_reading(out, b"1 0-- 1 1\n")?;
    show_reading(out, b"9 -- 1 1\n")?;
    show_reading(out, b"1 -- 8 8\n")?;
    show_reading(out, b"1 01 - 1\n")?;
    show_reading(out, b"1 01 1 -\n")?;
    show_reading(out, b"- 01 1 1\n")
}

// Requests as numbers, at the bounds; then with free rows.
fn numbers<W: Write>(out: &mut W) -> io::Result<()> {
    show_test(out, 0, 0, 0, 0, 0)?;
    show_test(out, 5, 0, 0, 8, 8)?;
    show_test(out, 1, 3, 0, 7, 7)?;
    show_test(out, 1, 4, 0, 8, 8)?;
    show_test(out, 3, 255, 0, 7, 7)?;
    show_test(out, 3, 256, 0, 7, 7)?;
    show_test(out, 4, 65535, 0, 8, 8)?;
    show_test(out, 4, 65535, 0, 7, 8)?;
    show_test(out, 4, 65535, 0, 7, 7)?;
    show_test(out, 4, 0, 65535, 7, 7)?;
    show_test(out, 1, 5, 1, 1, 1)?;
    show_test(out, 1, 0, 5, 1, 1)?;
    show_test(out, 1, 1, 1, 9, 1)?;
    show_test(out, 1, 1, 2, 9, 9)?;
    show_test(out, 2, 6, 9, 4, 8)?;
    show_test(out, 2, 6, 9, 4, 2)?;
    show_test(out, 5, 1, 1, 9, 9)
}

// Two inputs that differ: P9 and P10, then the same network with its parts changed.
fn exclusive<W: Write>(out: &mut W) -> io::Result<()> {
    let literals = [0u8, 3, 2, 1, 9, 9, 9];
    let labels = [0u8, 0, 2, 2, 4, 0, 6, 6, 4, 4, 99, 99, 99, 99, 99, 99];
    let w = Network {
        r: 4,
        literals: literals,
        labels: labels,
    };
    show_check(out, Request::new(2, 6, 0, 4, 2), w)?;
    show_check(out, Request::new(2, 6, 0, 4, 1), w)?;
    show_check(out, Request::new(2, 14, 0, 4, 2), w)?;
    show_check(out, Request::new(2, 4, 0, 4, 2), w)?;
    show_check(out, Request::new(2, 6, 0, 3, 2), w)?;
    show_check(out, Request::new(0, 6, 0, 9, 2), w)?;
    show_check(out, Request::new(1, 3, 0, 4, 2), w)?;
    let mut above = labels;
    above[2] = 3;
    show_check(
        out,
        Request::new(2, 6, 0, 4, 2),
        Network {
            r: 4,
            literals: literals,
            labels: above,
        },
    )?;
    let mut not_lowest = labels;
    not_lowest[9] = 8;
    show_check(
        out,
        Request::new(2, 6, 0, 4, 2),
        Network {
            r: 4,
            literals: literals,
            labels: not_lowest,
        },
    )?;
    // row 1 is free, so row 2 is the lowest wrong one; then rows 1 and 2; then row 3, which is on; then all rows, and M = 0
    show_check(out, Request::new(2, 4, 2, 4, 1), w)?;
    show_check(out, Request::new(2, 0, 6, 4, 1), w)?;
    show_check(out, Request::new(2, 8, 7, 4, 2), w)?;
    show_check(out, Request::new(2, 0, 15, 4, 0), w)?;
    show_check(out, Request::new(2, 6, 2, 4, 2), w)?;
    show_same(out, w, w)?;
    show_same(
        out,
        w,
        Network {
            r: 4,
            literals: literals,
            labels: above,
        },
    )?;
    show_same(out, w, network::value::zero_network())
}

// No switches: P11, and a constant that is off; then a switch entered at its second end.
fn small<W: Write>(out: &mut W) -> io::Result<()> {
    let joined = network::value::zero_network();
    show_check(out, Request::new(1, 3, 0, 0, 0), joined)?;
    show_check(out, Request::new(1, 0, 0, 0, 0), joined)?;
    let literals = [0u8; 7];
    let mut labels = [0u8; 16];
    labels[1] = 1;
    labels[3] = 1;
    show_check(
        out,
        Request::new(1, 2, 0, 1, 1),
        Network {
            r: 1,
            literals: literals,
            labels: labels,
        },
    )?;
    show_check(
        out,
        Request::new(1, 2, 0, 1, 0),
        Network {
            r: 1,
            literals: literals,
            labels: labels,
        },
    )
}

// An original clause of a text over six, added ones whose ids have a gap, a number in the gap, a clause that was deleted, one past a,
// an id at C that has a record, and a past the slice. Then two records of one id, of which the first counts, empty or past the text
// too; then a part that ends with the text, a record whose sum is past 32 bits, and two entries of one.
fn parts<W: Write>(out: &mut W) -> io::Result<()> {
    let text = b"7 1 -2 0 5 6 0\n9 -1 0 7 0\n20 3 0 9 0\n";
    let records = [7u32, 2, 4, 9, 17, 2, 20, 29, 0];
    show_part(out, text, &records, 6, 3, 6)?;
    show_part(out, text, &records, 6, 3, 7)?;
    show_part(out, text, &records, 6, 3, 8)?;
    show_part(out, text, &records, 6, 3, 9)?;
    show_part(out, text, &records, 6, 3, 20)?;
    show_part(out, text, &records, 6, 1, 9)?;
    show_part(out, text, &records, 9, 3, 9)?;
    show_part(out, text, &records, 6, 4294967295, 9)?;
    show_part(out, text, &[9u32, 17, 2, 9, 2, 4], 6, 2, 9)?;
    show_part(out, text, &[9u32, 17, 0, 9, 2, 4], 6, 2, 9)?;
    show_part(out, text, &[9u32, 36, 2, 9, 2, 4], 6, 2, 9)?;
    let outside = [1u32, 29, 8, 2, 4294967295, 4294967295, 3, 2];
    show_part(out, text, &outside, 0, 3, 1)?;
    show_part(out, text, &outside, 0, 3, 2)?;
    show_part(out, text, &outside, 0, 3, 3)
}

// The first values, a digit for each.
fn show_values<W: Write>(out: &mut W, values: Values, count: usize) -> io::Result<()> {
    for value in values.iter().take(count) {
        write!(out, "{value}")?;
    }
    Ok(())
}

// The labels that the X of so many terminals give, after the terminals' number and the values.
fn show_labels<W: Write>(
    out: &mut W,
    terminals: u8,
    pairs: usize,
    values: Values,
) -> io::Result<()> {
    write!(out, "labels")?;
    number(out, u64::from(terminals))?;
    write!(out, " ")?;
    show_values(out, values, pairs)?;
    write!(out, ":")?;
    for label in clusters::find_labels(terminals, values) {
        number(out, u64::from(label))?;
    }
    writeln!(out)
}

// Every assignment of the six X of four terminals; the values past them, which are not theirs, are all true.
fn four_terminals<W: Write>(out: &mut W) -> io::Result<()> {
    for a in 0..64u8 {
        let mut values = [1u8; VALUES];
        values[0] = a % 2;
        values[1] = a / 2 % 2;
        values[2] = a / 4 % 2;
        values[3] = a / 8 % 2;
        values[4] = a / 16 % 2;
        values[5] = a / 32 % 2;
        show_labels(out, 4, 6, values)?;
    }
    Ok(())
}

// Values that follow from a seed: 1, which is true, about once in so many, and 0, 2 and 3, which are not.
fn drawn(seed: u32, once_in: u32) -> Values {
    let mut values = [0u8; VALUES];
    let mut state = seed;
    for value in values.iter_mut() {
        state = (state % 65537 * 75 + 74) % 65537;
        let other = (state / 64 % 3) as u8;
        *value = if state % (once_in % 32 + 1) == 0 {
            1
        } else if other == 1 {
            3
        } else {
            other
        };
    }
    values
}

// Drawn values for so many terminals: many true, then fewer.
fn some_terminals<W: Write>(out: &mut W, terminals: u8, pairs: usize) -> io::Result<()> {
    for k in 0..24u32 {
        let values = drawn(127 * u32::from(terminals) + k, k);
        show_labels(out, terminals, pairs, values)?;
    }
    Ok(())
}

// From no terminals to as many as an array holds, then more.
fn labels<W: Write>(out: &mut W) -> io::Result<()> {
    four_terminals(out)?;
    show_labels(out, 0, 0, [1u8; VALUES])?;
    show_labels(out, 1, 0, [1u8; VALUES])?;
    for terminals in 2..=16u8 {
        let count = usize::from(terminals);
        some_terminals(out, terminals, count * (count - 1) / 2)?;
    }
    show_labels(out, 17, 0, [1u8; VALUES])?;
    show_labels(out, 255, 0, [1u8; VALUES])
}

fn main(rt: HostRuntime) -> io::Result<()> {
    let mut out = io::writer(&rt);
    requests(&mut out)?;
    numbers(&mut out)?;
    exclusive(&mut out)?;
    small(&mut out)?;
    parts(&mut out)?;
    labels(&mut out)
}
