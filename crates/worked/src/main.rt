//! The worked corridor as one list of calls, step by step: a main line and a ramp merge into a third
//! link. After each step every link, entrance and exit is asked; some calls are refused.
#![tactic(auto)]

use merge::Fair;
use network::{Draft, LINKS, Link, Network};
use newell::{StepRow, Vehicle};
use script::{Answer, Call, Outcome, play};
use std::io;

const SPACE: usize = 1100;

/// As many calls as are made; a list of fixed length takes no memory that may not be there.
const CALLS: usize = 40;

fn link(from: u8, to: u8, free: u8, wave: u8, capacity: u8, storage: u16) -> Link {
    Link {
        from,
        to,
        free,
        wave,
        capacity,
        storage,
    }
}

/// The three links, if the network takes them.
fn three_links() -> Option<Network> {
    let mut draft = Draft::new(4, 3)?;
    draft.add(link(1, 3, 1, 2, 4, 12)).ok()?;
    draft.add(link(2, 3, 1, 1, 2, 4)).ok()?;
    draft.add(link(3, 4, 2, 2, 3, 8)).ok()?;
    draft.finish().ok()
}

/// Two bookings, one that is refused, then eight steps, each with a question to the third link, to
/// the ramp's entrance and to the exit; then questions to a link that is not there.
fn calls() -> [Call; CALLS] {
    let mut calls = [Call::Link { number: 4 }; CALLS];
    for (call, (entrance, count)) in calls.iter_mut().zip([(1, 6), (2, 3), (2, 201)]) {
        *call = Call::Book {
            entrance,
            exit: 4,
            count,
        };
    }
    let turn = [
        Call::Step,
        Call::Link { number: 3 },
        Call::Entrance { node: 2 },
        Call::Exit { node: 4 },
    ];
    for calls in calls[3..35].chunks_exact_mut(turn.len()) {
        calls.copy_from_slice(&turn);
    }
    calls
}

fn show(rt: &HostRuntime, answer: Option<Answer>) -> io::Result<()> {
    match answer {
        None => println!(rt; "nothing"),
        Some(Ok(Outcome::Done)) => println!(rt; "done"),
        Some(Ok(Outcome::Link { state })) => println!(rt; "link {state}"),
        Some(Ok(Outcome::Waiting { count })) => println!(rt; "waiting {count}"),
        Some(Ok(Outcome::Gone { count })) => println!(rt; "gone {count}"),
        Some(Err(refusal)) => println!(rt; "no {}", refusal.number()),
    }
}

fn main(rt: HostRuntime) -> io::Result<()> {
    let mut area = [Vehicle::default(); SPACE];
    let mut rows = [StepRow::default(); LINKS];
    let mut answers = [None; CALLS];
    let opened = play(
        three_links().unwrap_or(Network::fresh()),
        &mut area,
        &mut Fair,
        &mut rows,
        &calls(),
        &mut answers,
    );
    if let Err(refusal) = opened {
        return println!(rt; "no {}", refusal.number());
    }
    for answer in &answers {
        show(&rt, *answer)?;
    }
    Ok(())
}
