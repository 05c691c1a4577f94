// The recorded and made calls of the independent program, through the C boundary: `stdin` and `stdout` are written by tools/feeds.
#![tactic(auto)]

use std::io;

fn main(rt: HostRuntime) -> io::Result<()> {
    let mut input = rt.stdin();
    let mut output = rt.stdout();
    replay::run::run(&mut input, &mut output)
}
