// The plotter's port for C and Rust hosts (crate `plotter`). The registers are four bytes: status, control, data, sum.
ghost use Rattle.std.specs.Prelude.{◌≡◌};
ghost use Rattle.plotter.specs.Port.{port_of, bytes_of, occur};
ghost use Rattle.vodlasim_c.specs.Port.{Sends};

use plotter::{Event, Port};

// `plotter::step`: how many of the unsent bytes went out, 0 or 1. What is unsent afterwards begins behind them.
#[unsafe(no_mangle)]
pub extern "C" fn vodlasim_step(registers: &mut [u8; 4], unsent: &[u8]) -> usize
    ensures { Sends registers.old registers.new unsent.now result }
{
    let stepped = plotter::step(Port::from(*registers), unsent);
    *registers = <[u8; 4]>::from(stepped.port);
    stepped.sent
}

// The events, each by `plotter::occur`: a call for each, since the C interface has their names.
#[unsafe(no_mangle)]
pub extern "C" fn vodlasim_ready_again(registers: &mut [u8; 4])
    ensures { registers.new ≡ bytes_of (occur Event.ReadyAgain (port_of registers.old)) }
{
    occur(registers, Event::ReadyAgain);
}

#[unsafe(no_mangle)]
pub extern "C" fn vodlasim_out_of_paper(registers: &mut [u8; 4])
    ensures { registers.new ≡ bytes_of (occur Event.OutOfPaper (port_of registers.old)) }
{
    occur(registers, Event::OutOfPaper);
}

#[unsafe(no_mangle)]
pub extern "C" fn vodlasim_paper_in(registers: &mut [u8; 4])
    ensures { registers.new ≡ bytes_of (occur Event.PaperIn (port_of registers.old)) }
{
    occur(registers, Event::PaperIn);
}

#[unsafe(no_mangle)]
pub extern "C" fn vodlasim_interrupts_on(registers: &mut [u8; 4])
    ensures { registers.new ≡ bytes_of (occur Event.InterruptsOn (port_of registers.old)) }
{
    occur(registers, Event::InterruptsOn);
}

#[unsafe(no_mangle)]
pub extern "C" fn vodlasim_interrupts_off(registers: &mut [u8; 4])
    ensures { registers.new ≡ bytes_of (occur Event.InterruptsOff (port_of registers.old)) }
{
    occur(registers, Event::InterruptsOff);
}

fn occur(registers: &mut [u8; 4], event: Event)
    ensures { registers.new ≡ bytes_of (occur event (port_of registers.old)) }
{
    *registers = <[u8; 4]>::from(plotter::occur(Port::from(*registers), event));
}
