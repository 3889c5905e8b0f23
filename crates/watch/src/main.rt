// Reads a contract and a trace from standard input, and prints a line for each period. Document 01, "Watch".
#![tactic(auto)]

ghost use Rattle.std.specs.Prelude.{◌≤◌, length, IfOk};

use std::io::{Error, ErrorKind, Read};
use std::process::ExitCode;

// Reads until the buffer is full, the input ends or a read fails, and gives how many bytes were read. Each turn goes on by what a read gave:
// std fills a buffer so only from an input that is as long, or on a heap.
fn read_input(from: &mut impl Read, buffer: &mut [u8]) -> Result<usize, Error>
    ensures { IfOk result (λ n. n ≤ length buffer.new) }
{
    let mut length = 0;
    while length < buffer.len() {
        let more = from.read(&mut buffer[length..])?;
        if more == 0 {
            break;
        }
        length += more;
    }
    Ok(length)
}

fn main(rt: HostRuntime) -> ExitCode {
    // One byte more than an input may have, so that a longer one is seen.
    let mut input = [0u8; report::INPUT_BYTES + 1];
    let mut image = [0u8; report::IMAGE_BYTES];
    let mut state = [0u8; report::STATE_BYTES];
    let mut text = [0u8; report::TEXT_BYTES];
    let Ok(read) = read_input(&mut rt.stdin(), &mut input) else {
        return report::exit_status(rt.eprintln("watch: standard input cannot be read"));
    };
    let length = report::put_report(&input[..read], &mut image, &mut state, &mut text);
    match rt.write_all(&text[..length]) {
        Err(error) if error.kind() != ErrorKind::BrokenPipe => {
            report::exit_status(rt.eprintln("watch: standard output cannot be written"))
        }
        written => report::exit_status(written),
    }
}
