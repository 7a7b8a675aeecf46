//! Reads the file row by row, and does each row before the next is read.
use crate::show::show;
use crate::stop::{No, Stop};
use merge::{Chosen, Meter};
use network::{LINKS, Network};
use newell::{StepRow, Vehicle};
use reader::{CallRow, Corridor, Position, next_row, read_network};
use run::{Refusal, Run};
use std::io;
use words::Reader;

/// How many vehicles there is space for.
const SPACE: usize = 4000;

/// Prints the lines of a corridor file, or its refusal.
pub fn play_file(rt: &HostRuntime, file: &[u8]) -> io::Result<()> {
    print_refusal(rt, play(rt, file))
}

/// Prints a refusal; an output that failed goes on as the error.
fn print_refusal(rt: &HostRuntime, done: Result<(), Stop>) -> io::Result<()> {
    match done {
        Ok(()) => Ok(()),
        Err(Stop::Refused(no)) => println!(rt; "{no}"),
        Err(Stop::Output(error)) => Err(error),
    }
}

/// Reads the head, and does the rows behind it.
fn play(rt: &HostRuntime, file: &[u8]) -> Result<(), Stop> {
    let mut reader = Reader::new(file);
    let mut corridor = Corridor::fresh();
    let go = read_network(&mut reader, &mut corridor)?;
    let mut area = [Vehicle::default(); SPACE];
    Run::check(&corridor.network, &area).map_err(|refusal| No::at(refusal, go))?;
    let mut session = Session {
        run: Run::make(corridor.network, &mut area),
        rule: Meter::over(Chosen::new(corridor.rule), corridor.gates),
        network: corridor.network,
    };
    session.do_rows(rt, &mut reader)
}

/// An open run, and what the file's head says of it.
#[derive(Drop)]
struct Session<'a> {
    run: Run<'a>,
    rule: Meter<Chosen>,
    network: Network,
}

impl<'a> Session<'a> {
    /// Does the rows up to the file's end or the first fault.
    fn do_rows(&mut self, rt: &HostRuntime, reader: &mut Reader) -> Result<(), Stop> {
        loop {
            let at = reader.position();
            let Some(row) = next_row(reader)? else {
                return Ok(());
            };
            print_refusal(rt, self.do_row(rt, row, at))?;
        }
    }

    /// Does the row that starts there.
    fn do_row(&mut self, rt: &HostRuntime, row: CallRow, at: Position) -> Result<(), Stop> {
        let done = match row {
            CallRow::Book {
                entrance,
                exit,
                count,
            } => self.run.book(entrance, exit, count),
            CallRow::Step { count } => self.steps(count),
            CallRow::Show => return Ok(show(rt, &self.run, &self.network)?),
        };
        Ok(done.map_err(|refusal| No::at(refusal, at))?)
    }

    /// So many steps, up to the first that is refused.
    fn steps(&mut self, count: u16) -> Result<(), Refusal> {
        let mut rows = [StepRow::default(); LINKS];
        for _ in 0..count {
            self.run.step(&mut self.rule, &mut rows)?;
        }
        Ok(())
    }
}
