// The plotter's port (document 02, Four): the step by which the box sends a listing, byte by byte, and the events from outside. Nothing
// here holds a listing: a step is lent what is still unsent. Bits that have no name here stay what they are.
#![tactic(auto)]

ghost use Rattle.std.specs.Prelude.{◌≡◌, ◌+◌, ◌%◌};
ghost use Rattle.plotter.specs.Port.{port_of, bytes_of, takes, acknowledged, send, Steps, occur};

// The four registers: of status bit 0 is ready, bit 1 paper out and bit 2 interrupt pending; of control bit 0 lets interrupts through; data has
// the byte sent last, and to sum every byte sent is added.
#[derive(Clone, Copy, Debug, PartialEq, Eq)]
pub struct Port {
    pub status: u8,
    pub control: u8,
    pub data: u8,
    pub sum: u8,
}

// What a step leaves: the registers, and how many of the unsent bytes went out, 0 or 1. A number and no flag: what is unsent afterwards begins
// that many bytes on, and C hosts are told it (`vodlasim_step`).
#[derive(Clone, Copy)]
pub struct Stepped {
    pub port: Port,
    pub sent: usize,
}

// What happens to the port from outside.
#[derive(Clone, Copy, Debug, PartialEq, Eq)]
pub enum Event {
    // The device sets ready again, and pending too if control lets interrupts through.
    ReadyAgain,
    OutOfPaper,
    PaperIn,
    // Control lets interrupts through from now on.
    InterruptsOn,
    // Control lets none through from now on.
    InterruptsOff,
}

// ---- the registers as four bytes: status, control, data, sum

impl From<[u8; 4]> for Port {
    ghost from_gives = { λ registers port. port ≡ port_of registers };

    fn from(registers: [u8; 4]) -> Port {
        let [status, control, data, sum] = registers;
        Port {
            status,
            control,
            data,
            sum,
        }
    }
}

impl From<Port> for [u8; 4] {
    ghost from_gives = { λ port registers. registers ≡ bytes_of port };

    fn from(port: Port) -> [u8; 4] {
        [port.status, port.control, port.data, port.sum]
    }
}

// ---- masks: document 02 gives the registers' bits

// The bits of status.
const READY: u8 = 1;

const PAPER_OUT: u8 = 2;

const PENDING: u8 = 4;

// The bit of control.
const INTERRUPTS: u8 = 1;

// ---- the step

// One step: the next byte goes out, if there is one and the plotter takes it.
pub fn step(port: Port, unsent: &[u8]) -> Stepped
    ensures { Steps port unsent.now result }
{
    let seen = acknowledge(port);
    match unsent.first() {
        Some(&byte) if takes(port) => Stepped {
            port: send(seen, byte),
            sent: 1,
        },
        _ => Stepped {
            port: seen,
            sent: 0,
        },
    }
}

// Whether the plotter takes a byte.
fn takes(port: Port) -> bool
    ensures { result ≡ takes port }
{
    port.status & READY != 0 && port.status & PAPER_OUT == 0
}

// The port with pending cleared.
fn acknowledge(port: Port) -> Port
    ensures { result ≡ acknowledged port }
{
    Port {
        status: port.status & !PENDING,
        ..port
    }
}

// The port with a byte sent.
fn send(port: Port, byte: u8) -> Port
    ensures { result ≡ send byte port }
{
    Port {
        status: port.status & !READY,
        data: byte,
        sum: summed(port.sum, byte),
        ..port
    }
}

// A sum with a byte more, wrapping past 255.
fn summed(sum: u8, byte: u8) -> u8
    ensures { result ≡ (sum + byte) % 256 }
{
    sum.wrapping_add(byte)
}

// ---- the events

// The registers after an event.
pub fn occur(port: Port, event: Event) -> Port
    ensures { result ≡ occur event port }
{
    match event {
        Event::ReadyAgain => ready_again(port),
        Event::OutOfPaper => Port {
            status: port.status | PAPER_OUT,
            ..port
        },
        Event::PaperIn => Port {
            status: port.status & !PAPER_OUT,
            ..port
        },
        Event::InterruptsOn => Port {
            control: port.control | INTERRUPTS,
            ..port
        },
        Event::InterruptsOff => Port {
            control: port.control & !INTERRUPTS,
            ..port
        },
    }
}

fn ready_again(port: Port) -> Port
    ensures { result ≡ occur Event.ReadyAgain port }
{
    let ready = Port {
        status: port.status | READY,
        ..port
    };
    if port.control & INTERRUPTS != 0 {
        return Port {
            status: ready.status | PENDING,
            ..ready
        };
    }
    ready
}
