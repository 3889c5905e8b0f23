// Document 01's worked examples, each as the report of one input: those of "Contracts and examples" and "Watch", and a trace for each error of
// "What students hand in".
// Labels: D duty, B ban, P power, with party and action; & both, ; then, / repair, R repeat, W when, U until; A any, T tries; . seq, * star.
// "a/b" is one period, party 1 before the slash; "-" is no attempt.

#![tactic(auto)]

use std::io::Error;
use std::process::ExitCode;

// A label, and the input.
static EXAMPLES: [(&[u8], &[u8]); 26] = [
    (b"D1a:", b"TC\x01\x01\0\0"),
    (b"D1a: a/a", b"TC\x01\x01\0\0TP\x01\0\x01\0"),
    (b"D1a: -/a", b"TC\x01\x01\0\0TP\0\0\x01\0"),
    (b"D1a: -/-", b"TC\x01\x01\0\0TP\0\0\0\0"),
    (b"D1a: a/-", b"TC\x01\x01\0\0TP\x01\0\0\0"),
    (b"P1a: a/-", b"TC\x03\x01\0\0TP\x01\0\0\0"),
    (b"P1a: -/a", b"TC\x03\x01\0\0TP\0\0\x01\0"),
    (b"B1a: a/a", b"TC\x02\x01\0\0TP\x01\0\x01\0"),
    (
        b"P1a D1b &: a/-",
        b"TC\x03\x01\0\0TC\x01\x01\x01\0TC\x04\0\0\0TP\x01\0\0\0",
    ),
    (
        b"D1a P1b D2b ; &: -/a -/-",
        b"TC\x01\x01\0\0TC\x03\x01\x01\0TC\x01\x02\x01\0TC\x05\0\0\0\
            TC\x04\0\0\0\
            TP\0\0\x01\0TP\0\0\0\0",
    ),
    (
        b"D1a D1b /: -/- b/b",
        b"TC\x01\x01\0\0TC\x01\x01\x01\0TC\x06\0\0\0\
            TP\0\0\0\0TP\x02\0\x02\0",
    ),
    (b"D1a R: a/a", b"TC\x01\x01\0\0TC\x07\0\0\0TP\x01\0\x01\0"),
    (
        b"T1b D2a W: -/-",
        b"TC\x11\x01\x01\0TC\x01\x02\0\0TC\x08\0\0\0TP\0\0\0\0",
    ),
    (
        b"D1a R A * T1b . U: a/a ab/a",
        b"TC\x01\x01\0\0TC\x07\0\0\0TC\x10\0\0\0TC\x17\0\0\0\
            TC\x11\x01\x01\0TC\x15\0\0\0TC\x09\0\0\0\
            TP\x01\0\x01\0TP\x03\0\x01\0",
    ),
    (
        b"D1a R A * T1b . U: a/a b/a",
        b"TC\x01\x01\0\0TC\x07\0\0\0TC\x10\0\0\0TC\x17\0\0\0\
            TC\x11\x01\x01\0TC\x15\0\0\0TC\x09\0\0\0\
            TP\x01\0\x01\0TP\x02\0\x01\0",
    ),
    (
        b"D1a D1b / R: a/a -/- b/- a/a",
        b"TC\x01\x01\0\0TC\x01\x01\x01\0TC\x06\0\0\0TC\x07\0\0\0\
            TP\x01\0\x01\0TP\0\0\0\0TP\x02\0\0\0TP\x01\0\x01\0",
    ),
    // What students hand in: traces on which their monitors differ; what these say stands in brackets.
    // A later breach adds no party. (Blame 3 from period 2 on.)
    (
        b"D1a B2b D2b ; &: -/a b/- -/-",
        b"TC\x01\x01\0\0TC\x02\x02\x01\0TC\x01\x02\x01\0TC\x05\0\0\0\
            TC\x04\0\0\0\
            TP\0\0\x01\0TP\x02\0\0\0TP\0\0\0\0",
    ),
    // The half that owes b in period 3 ends with the whole in period 1. (Broken in period 4, blame 1.)
    (
        b"D1a B1b B1b D2b ; ; & B1a / R: -/- -/- a/a a/a",
        b"TC\x01\x01\0\0TC\x02\x01\x01\0TC\x02\x01\x01\0TC\x01\x02\x01\0\
            TC\x05\0\0\0TC\x05\0\0\0TC\x04\0\0\0TC\x02\x01\0\0\
            TC\x06\0\0\0TC\x07\0\0\0\
            TP\0\0\0\0TP\0\0\0\0TP\x01\0\x01\0TP\x01\0\x01\0",
    ),
    // The half that bars b in period 2, either one, ends with the whole in period 1. (Broken in period 3, blame 1.)
    (
        b"B1a B1b B2b ; & B1a B1b ; / R: a/a b/b a/a",
        b"TC\x02\x01\0\0TC\x02\x01\x01\0TC\x02\x02\x01\0TC\x05\0\0\0\
            TC\x04\0\0\0TC\x02\x01\0\0TC\x02\x01\x01\0TC\x05\0\0\0\
            TC\x06\0\0\0TC\x07\0\0\0\
            TP\x01\0\x01\0TP\x02\0\x02\0TP\x01\0\x01\0",
    ),
    (
        b"B1b B2b ; B1a & B1a B1b ; / R: a/a b/b a/a",
        b"TC\x02\x01\x01\0TC\x02\x02\x01\0TC\x05\0\0\0TC\x02\x01\0\0\
            TC\x04\0\0\0TC\x02\x01\0\0TC\x02\x01\x01\0TC\x05\0\0\0\
            TC\x06\0\0\0TC\x07\0\0\0\
            TP\x01\0\x01\0TP\x02\0\x02\0TP\x01\0\x01\0",
    ),
    // The clause that owes a in period 2 ends with the `until` in period 1. (Broken in period 2, blame 2.)
    (
        b"B1a D2a ; T1b U R: b/- -/- a/a",
        b"TC\x02\x01\0\0TC\x01\x02\0\0TC\x05\0\0\0TC\x11\x01\x01\0\
            TC\x09\0\0\0TC\x07\0\0\0\
            TP\x02\0\0\0TP\0\0\0\0TP\x01\0\x01\0",
    ),
    (
        b"B1a D2a ; T1b U B1b ; R: b/- -/-",
        b"TC\x02\x01\0\0TC\x01\x02\0\0TC\x05\0\0\0TC\x11\x01\x01\0\
            TC\x09\0\0\0TC\x02\x01\x01\0TC\x05\0\0\0TC\x07\0\0\0\
            TP\x02\0\0\0TP\0\0\0\0",
    ),
    // The right of `then` and of `repair` reads in period 2 only. (Broken in period 1, blame 1; met in period 1.)
    (
        b"D1a D1b ;: a/a b/b",
        b"TC\x01\x01\0\0TC\x01\x01\x01\0TC\x05\0\0\0\
            TP\x01\0\x01\0TP\x02\0\x02\0",
    ),
    (
        b"D1a D1b /: b/b -/-",
        b"TC\x01\x01\0\0TC\x01\x01\x01\0TC\x06\0\0\0\
            TP\x02\0\x02\0TP\0\0\0\0",
    ),
    // The violation counts, though the period is the accepting one. (Met in period 1.)
    (
        b"D1a T1b U: b/a",
        b"TC\x01\x01\0\0TC\x11\x01\x01\0TC\x09\0\0\0TP\x02\0\x01\0",
    ),
    (
        b"D1a T1b U D2a /: b/a a/-",
        b"TC\x01\x01\0\0TC\x11\x01\x01\0TC\x09\0\0\0TC\x01\x02\0\0\
            TC\x06\0\0\0\
            TP\x02\0\x01\0TP\x01\0\0\0",
    ),
];

fn show(rt: &impl Print, label: &[u8], input: &[u8]) -> Result<(), Error> {
    let mut image = [0u8; report::IMAGE_BYTES];
    let mut state = [0u8; report::STATE_BYTES];
    let mut text = [0u8; report::TEXT_BYTES];
    let length = report::put_report(input, &mut image, &mut state, &mut text);
    rt.write_all(label)?;
    rt.write_all(b"\n")?;
    rt.write_all(&text[..length])
}

fn show_all(rt: &impl Print) -> Result<(), Error> {
    for (label, input) in &EXAMPLES {
        show(rt, label, input)?;
    }
    Ok(())
}

fn main(rt: HostRuntime) -> ExitCode {
    report::exit_status(show_all(&rt))
}
