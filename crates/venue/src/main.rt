// Program `venue`: plays the first 65,536 bytes of standard input, at a step of 100.
#![tactic(auto)]

use prices::increments;
use std::io;

fn main(rt: HostRuntime) -> io::Result<()> {
    let mut input = [0u8; 65536];
    let count = console::read_input(&mut rt.reader(), &mut input)?;
    console::print_stream(&rt, increments::CENT, &input[..count])
}
