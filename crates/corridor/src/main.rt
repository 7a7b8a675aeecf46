//! The program: a corridor file from standard input to its printed lines.
#![tactic(auto)]

use session::play_file;
use std::io;
use std::io::Read;

fn main(rt: HostRuntime) -> io::Result<()> {
    let mut file = Vec::new(rt.alloc());
    rt.stdin().read_to_end(&mut file)?;
    play_file(&rt, &file)
}
