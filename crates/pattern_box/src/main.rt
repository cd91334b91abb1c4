// The box: it reads a sheet on standard input, runs it and prints its page (document 01, "The walk and the listing").
#![tactic(auto)]

use page::{CLOSING, INPUT, OUTPUT, WORDS};

fn main(rt: HostRuntime) {
    // All the memory that a run has.
    let mut work = [0u32; WORDS];
    let mut sheet = [0u8; INPUT];
    let mut output = [0u8; OUTPUT];
    let mut lines = [0u8; CLOSING];
    let n = console::read(&mut rt.stdin(), &mut sheet);
    let page = page::run_box(&sheet[..n], &mut work, &mut output, &mut lines);
    // The box ends where a byte is lost, and has nobody to tell.
    let _ = console::write_page(&rt, &output[..page.listing], &lines[..page.closing]);
}
