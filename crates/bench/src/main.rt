// The bench program: the cases of document 01 that are not marked P, those that the requests of document 02 name, document 001's Table 2 and turbo
// example, and the lone decoder beside a plain listing of paths. It prints what each call says; crates/bench/stdout is what it must print.
#![tactic(auto)]

mod calls;
mod codes;
mod drawn;
mod frames;
mod listing;
mod numbers;
mod passes;

use std::io;

fn main(rt: HostRuntime) -> io::Result<()> {
    passes::run(&rt)?;
    frames::run(&rt)?;
    codes::run(&rt)?;
    drawn::run(&rt)
}
