//! Prints what the questions tell: the clock, the links in number order, and the nodes where
//! vehicles wait and are gone.
use network::{LINKS, NODES, Network};
use newell::LinkState;
use run::Run;
use std::io;

/// The states of the links, in number order, for as many links as a corridor may have: `show` goes over
/// a slice of them, as a rule of the project has it.
fn ask_links(run: &Run) -> [LinkState; LINKS] {
    let mut states = [LinkState::default(); LINKS];
    for (state, number) in states.iter_mut().zip(1..) {
        if let Ok(told) = run.ask_link(number) {
            *state = told;
        }
    }
    states
}

/// A line for each link.
fn show_links(rt: &HostRuntime, states: &[LinkState]) -> io::Result<()> {
    for (i, state) in states.iter().enumerate() {
        println!(rt; "link {} {state}", i + 1)?;
    }
    Ok(())
}

/// Prints all that a run tells.
pub fn show(rt: &HostRuntime, run: &Run, network: &Network) -> io::Result<()> {
    let states = ask_links(run);
    println!(rt; "clock {}", run.clock())?;
    show_links(rt, &states[..network.links()])?;
    for node in 1..=NODES {
        if let Ok(waiting) = run.ask_entrance(node as u16) {
            println!(rt; "wait {node} {waiting}")?;
        }
    }
    for node in 1..=NODES {
        if let Ok(gone) = run.ask_exit(node as u16) {
            println!(rt; "gone {node} {gone}")?;
        }
    }
    Ok(())
}
