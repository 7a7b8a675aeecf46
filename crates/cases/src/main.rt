//! Corridor files whose answers are fixed, sound and damaged: what each prints is held to the file
//! stdout. They have every refusal that a file can bring at least once, pairs of faults where the order of the checks
//! decides, and the limits of each range.
#![tactic(auto)]

use session::play_file;
use std::io;

const NONE: &[u8] = b"";

const WORKED: &[u8] =
    b"net 4 3\nlink 1 3 1 2 4 12\nlink 2 3 1 1 2 4\nlink 3 4 2 2 3 8\nmerge fair\n";

const GO: &[u8] =
    b"net 4 3\nlink 1 3 1 2 4 12\nlink 2 3 1 1 2 4\nlink 3 4 2 2 3 8\nmerge fair\ngo\n";

const ONE: &[u8] = b"net 2 1\nlink 1 2 1 1 1 1\nmerge zip\ngo\n";

const FORK: &[u8] = b"net 4 3\nlink 1 2 1 1 1 1\nlink 2 3 1 1 1 1\nlink 2 4 1 1 1 1\n";

/// The files by their heads and tails.
const PLAIN: [(&[u8], &[u8]); 92] = [
    (NONE, b""),
    (NONE, b"\n"),
    (NONE, b" "),
    (NONE, b" \n"),
    (NONE, b"go"),
    (NONE, b"go "),
    (NONE, b"  \xff"),
    (NONE, b"\x80\n"),
    (NONE, b"net 4  3\n"),
    (NONE, b"net 4 3 \n"),
    (NONE, b"net 4 3\x0d\n"),
    (NONE, b"Net 4 3\n"),
    (NONE, b"net\x094 3\n"),
    (NONE, b"net 4 3\x00"),
    (NONE, b"net 4 3\n"),
    (NONE, b"net 4 3\n\n"),
    (NONE, b"7 4 3\n"),
    (NONE, b"00\n"),
    (NONE, b"nets\n"),
    (NONE, b"show\n"),
    (NONE, b"book\n"),
    (NONE, b"net 4\n"),
    (NONE, b"net 04 3\n"),
    (NONE, b"net 4 00\n"),
    (NONE, b"net 0 0\n"),
    (NONE, b"net 1 1\n"),
    (NONE, b"net 33 49\n"),
    (NONE, b"net 32 49\n"),
    (NONE, b"net 32 48\n"),
    (NONE, b"net 12345678901234567890 3\n"),
    (NONE, b"net 65540 3\n"),
    (NONE, b"net 4294967300 3\n"),
    (NONE, b"net 18446744073709551620 3\n"),
    (NONE, b"net 4 65536\n"),
    (NONE, b"net 4 3\nlink 9 3 0 2 4 12\n"),
    (NONE, b"net 4 3\nlink 3 1 0 2 4 12\n"),
    (NONE, b"net 4 3\nlink 3 1 1 2 4 12\n"),
    (NONE, b"net 4 3\nlink 2 2 1 2 4 12\n"),
    (NONE, b"net 4 3\nlink 1 2 63 63 200 2000\n"),
    (NONE, b"net 4 3\nlink 1 2 64 1 1 1\n"),
    (NONE, b"net 4 3\nlink 1 2 1 64 1 1\n"),
    (NONE, b"net 4 3\nlink 1 2 1 1 201 1\n"),
    (NONE, b"net 4 3\nlink 1 2 1 1 1 2001\n"),
    (NONE, b"net 4 3\nlink 1 5 1 1 1 1\n"),
    (NONE, b"net 3 1\nlink 1 2 1 1 1 1\nX"),
    (NONE, b"net 3 1\nlink 2 1 1 1 1 1\n"),
    (
        NONE,
        b"net 4 3\nlink 1 3 1 2 4 12\nlink 2 3 1 1 2 4\nlink 3 4 2 2 3 8\nlink 1 2 1 1 1 1\n",
    ),
    (
        NONE,
        b"net 4 3\nlink 1 3 1 2 4 12\nlink 2 3 1 1 2 4\nmerge fair\n",
    ),
    (WORKED, b""),
    (
        NONE,
        b"net 4 3\nlink 1 3 1 2 4 12\nlink 2 3 1 1 2 4\nlink 3 4 2 2 3 8\nmerge fairs\n",
    ),
    (
        NONE,
        b"net 4 3\nlink 1 3 1 2 4 12\nlink 2 3 1 1 2 4\nlink 3 4 2 2 3 8\nmerge 1\n",
    ),
    (
        NONE,
        b"net 4 3\nlink 1 3 1 2 4 12\nlink 2 3 1 1 2 4\nlink 3 4 2 2 3 8\ngo\n",
    ),
    (
        NONE,
        b"net 4 3\nlink 1 3 1 2 4 12\nlink 2 3 1 1 2 4\nlink 3 4 2 2 3 8\nmeter 3 1 1\n",
    ),
    (WORKED, b"route 3 4 3\n"),
    (
        NONE,
        b"net 4 3\nlink 1 3 1 2 4 12\nlink 2 3 1 1 2 4\nlink 3 4 2 2 3 8\nroute 3 4 3\n",
    ),
    (WORKED, b"meter 1 1 1\n"),
    (WORKED, b"meter 3 1 1\nmeter 3 2 2\n"),
    (WORKED, b"meter 3 201 64\n"),
    (WORKED, b"meter 3 200 64\n"),
    (WORKED, b"meter 3 200 63\n"),
    (WORKED, b"meter 3 0 1\n"),
    (WORKED, b"meter 5 1 1\n"),
    (WORKED, b"go 1\n"),
    (WORKED, b"go"),
    (FORK, b"route 2 3 1\n"),
    (FORK, b"route 2 1 2\n"),
    (FORK, b"route 2 3 4\n"),
    (FORK, b"route 2 3 2\nroute 2 3 2\n"),
    (FORK, b"route 2 3 2\nroute 2 3 1\n"),
    (
        FORK,
        b"route 2 3 3\nmerge zip\ngo\nbook 1 3 1\nbook 1 4 1\n",
    ),
    (GO, b""),
    (GO, b"net 4 3\n"),
    (GO, b"go\n"),
    (GO, b"\n"),
    (GO, b"hello\n"),
    (GO, b"step 0\n"),
    (GO, b"step 65536\n"),
    (GO, b"step 65535\n"),
    (GO, b"step\n"),
    (GO, b"show 1\n"),
    (
        GO,
        b"book 0 99 0\nbook 1 99 0\nbook 1 4 0\nbook 1 4 201\nbook 65535 4 6\n",
    ),
    (GO, b"book 1 4 65536\n"),
    (GO, b"book 01 4 x\n"),
    (GO, b"book 3 4 1\nbook 4 4 1\n"),
    (
        GO,
        b"book 1 4 200\nbook 1 4 200\nbook 1 4 100\nbook 1 4 1\n",
    ),
    (
        GO,
        b"book 1 4 200\nbook 1 4 200\nbook 1 4 101\nbook 1 4 100\n",
    ),
    (GO, b"book 1 4 6\nbook 2 4 3\nstep 4\nshow\n"),
    (
        GO,
        b"book 1 4 6\nbook 2 4 3\nstep 7\nshow\nstep 1\nshow\nBAD\n",
    ),
    (NONE, b"net 2 1\nlink 1 2 1 1 1 2000\nmerge zip\ngo\n"),
    (
        ONE,
        b"step 65535\nstep 65535\nstep 65535\nstep 65535\nstep 65535\nstep 65535\nstep 65535\nstep 65535\nstep 65535\nstep 65535\nstep 65535\nstep 65535\nstep 65535\nstep 65535\nstep 65535\nstep 16975\nstep 2\nstep 1\nshow\n",
    ),
    (
        NONE,
        b"net 4 2\nlink 1 2 1 1 1 2000\nlink 3 4 1 1 1 1000\nmerge fair\ngo\n",
    ),
    (
        NONE,
        b"net 4 2\nlink 1 2 1 1 1 2000\nlink 3 4 1 1 1 1001\nmerge fair\ngo\nBAD",
    ),
];

/// A file as long as one may be, or longer: between head and tail a part that stands there so many times.
struct Long {
    head: &'static [u8],
    part: &'static [u8],
    times: usize,
    tail: &'static [u8],
}

/// They are numbered on behind the others.
const LONG: [Long; 6] = [
    Long {
        head: NONE,
        part: b"x",
        times: 65536,
        tail: b"",
    },
    Long {
        head: NONE,
        part: b"x",
        times: 65535,
        tail: b"",
    },
    Long {
        head: NONE,
        part: b"\xff",
        times: 65536,
        tail: b"",
    },
    Long {
        head: ONE,
        part: b"step 1\n",
        times: 9356,
        tail: b"show\n",
    },
    Long {
        head: ONE,
        part: b"step 1\n",
        times: 9356,
        tail: b"show",
    },
    Long {
        head: ONE,
        part: b"step 1\n",
        times: 9356,
        tail: b"show\n\n",
    },
];

/// Plays the file of these parts, behind a line with its number.
fn play_case(rt: &HostRuntime, number: usize, parts: &[&[u8]]) -> io::Result<()> {
    let file = parts.concat(rt.alloc())?;
    println!(rt; "case {number}")?;
    play_file(rt, &file)
}

fn main(rt: HostRuntime) -> io::Result<()> {
    for (i, (head, tail)) in PLAIN.iter().enumerate() {
        play_case(&rt, i + 1, &[head, tail])?;
    }
    for (i, long) in LONG.iter().enumerate() {
        let middle = long.part.repeat(rt.alloc(), long.times)?;
        play_case(&rt, PLAIN.len() + i + 1, &[long.head, &middle, long.tail])?;
    }
    Ok(())
}
