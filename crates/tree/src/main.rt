//! Reads a term sheet from standard input and prints the listing of its classification, or the line that says why there is none.
#![tactic(auto)]

use console::print_listing;
use std::io;

fn main(rt: HostRuntime) -> io::Result<()> {
    print_listing(&mut rt.stdin(), &mut rt.stdout())
}
