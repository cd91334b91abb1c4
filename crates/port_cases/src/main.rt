// The port's test program: it plays the cases of its standard input and prints the registers after each action, until a byte is lost. The
// file `stdin` beside src/ holds the cases and `stdout` what is due; tools/port_cases.py lists the cases and makes both files.
//
// A case is a line `SS CC DD MM LLLL`, the registers status, control, data and sum and the length of the listing, in hexadecimal digits;
// then so many bytes of listing and a line feed; then a line of letters, one for each action: `s` a step, `r` ready again, `o` out of paper,
// `i` paper in, `+` interrupts on, `-` interrupts off. Any other letter changes nothing.
//
// Printed are the registers before the first action, after a `=`, then those after each action, after its letter, and at the end of each
// line how many bytes went out; last `left` and how many bytes are unsent.
#![tactic(auto)]

mod hex;

ghost use Rattle.std.specs.Prelude.{◌≤◌, ◌<◌, length, IfOk};

use case_file::Stop;
use console::Lost;
use plotter::{Event, Port, Stepped};

// The bytes of a case's first line.
const HEADER: usize = 17;

// The bytes of the longest input.
const INPUT: usize = 32768;

fn main(rt: HostRuntime) {
    let mut cases = [0u8; INPUT];
    let n = console::read(&mut rt.stdin(), &mut cases);
    if let Err(stop) = play_cases(&rt, &cases[..n]) {
        let _ = console::write(&rt, stop.message());
    }
}

fn play_cases(rt: &impl Print, input: &[u8]) -> Result<(), Stop> {
    let mut cases = input;
    while !cases.is_empty() {
        cases = play_case(rt, cases)?;
    }
    Ok(())
}

// Plays the first of the cases and answers those after it.
fn play_case<'a>(rt: &impl Print, cases: &'a [u8]) -> Result<&'a [u8], Stop>
    ensures { IfOk result (λ rest. length rest.now < length cases.now) }
{
    let Some((header, rest)) = cases.split_first_chunk::<HEADER>() else {
        return Err(Stop::Malformed);
    };
    let size = u16::from_be_bytes([
        hex::byte(header[12], header[13]),
        hex::byte(header[14], header[15]),
    ]);
    let Some((listing, rest)) = rest.split_at_checked(usize::from(size)) else {
        return Err(Stop::Malformed);
    };
    let Some((_, script)) = rest.split_first() else {
        return Err(Stop::Malformed);
    };
    let port = Port {
        status: hex::byte(header[0], header[1]),
        control: hex::byte(header[3], header[4]),
        data: hex::byte(header[6], header[7]),
        sum: hex::byte(header[9], header[10]),
    };
    play_script(rt, script, port, listing)
}

// Plays the letters up to the end of their line and answers what stands behind it.
fn play_script<'a>(
    rt: &impl Print,
    script: &'a [u8],
    port: Port,
    listing: &[u8],
) -> Result<&'a [u8], Stop>
    ensures { IfOk result (λ rest. length rest.now ≤ length script.now) }
{
    let mut now = Stepped { port, sent: 0 };
    let mut unsent = listing;
    print_registers(rt, b'=', now)?;
    for (i, &letter) in script.iter().enumerate() {
        if letter == b'\n' {
            print_left(rt, unsent.len())?;
            return Ok(&script[i + 1..]);
        }
        now = action(letter, now.port, unsent);
        unsent = &unsent[now.sent..];
        print_registers(rt, letter, now)?;
    }
    Ok(&[])
}

// What a letter's action leaves.
fn action(letter: u8, port: Port, unsent: &[u8]) -> Stepped
    ensures { result.sent ≤ length unsent.now }
{
    if letter == b's' {
        return plotter::step(port, unsent);
    }
    let port = match event(letter) {
        Some(event) => plotter::occur(port, event),
        None => port,
    };
    Stepped { port, sent: 0 }
}

fn event(letter: u8) -> Option<Event> {
    match letter {
        b'r' => Some(Event::ReadyAgain),
        b'o' => Some(Event::OutOfPaper),
        b'i' => Some(Event::PaperIn),
        b'+' => Some(Event::InterruptsOn),
        b'-' => Some(Event::InterruptsOff),
        _ => None,
    }
}

// ---- what is printed; a line goes out in one write, and a letter that is no character as it is

fn print_registers(rt: &impl Print, letter: u8, now: Stepped) -> Result<usize, Lost> {
    let [s1, s0] = hex::digits(now.port.status);
    let [c1, c0] = hex::digits(now.port.control);
    let [d1, d0] = hex::digits(now.port.data);
    let [m1, m0] = hex::digits(now.port.sum);
    let sent = if now.sent == 0 { b'0' } else { b'1' };
    let line = [
        letter, b' ', s1, s0, b' ', c1, c0, b' ', d1, d0, b' ', m1, m0, b' ', sent, b'\n',
    ];
    console::write(rt, &line)
}

fn print_left(rt: &impl Print, n: usize) -> Result<usize, Lost> {
    let [h1, h0] = hex::digits((n / 256 % 256) as u8);
    let [l1, l0] = hex::digits((n % 256) as u8);
    console::write(rt, &[b'l', b'e', b'f', b't', b' ', h1, h0, l1, l0, b'\n'])
}
