// Writes what a function answered, in document 01's words. Counts, faults, refusals and the search's answers write themselves.
ghost use Rattle.telling.specs.Room.{RoadsFit};

use block::refusal::Refusal;
use full::Fault;
use search::Answer;
use std::fmt::{self, Display};
use std::io;

// What a function answered, or why it refused.
#[derive(Clone, Copy)]
pub struct Said<T>(pub Result<T, Refusal>);

impl<T: Display> Display for Said<T> {
    fn fmt<W: fmt::Write>(&self, f: &mut fmt::Formatter<W>) -> fmt::Result {
        match &self.0 {
            Ok(answer) => write!(f, "{answer}"),
            Err(why) => write!(f, "{why}"),
        }
    }
}

// What the full check finds: the first fault, or none.
#[derive(Clone, Copy)]
pub struct Checked(pub Option<Fault>);

impl Display for Checked {
    fn fmt<W: fmt::Write>(&self, f: &mut fmt::Formatter<W>) -> fmt::Result {
        match self.0 {
            Some(fault) => write!(f, "{fault}"),
            None => write!(f, "full"),
        }
    }
}

// What the search answered: the closed answer is taken apart first and has its roads behind it, which stand in the path list; the others
// are written as they are.
pub fn reply(rt: &impl Print, reply: Result<Answer, Refusal>, path: &[u32]) -> io::Result<()>
    requires { RoadsFit reply path.now }
    ensures { Unit {0} }
{
    let Ok(Answer::Closed(_, _, roads)) = reply else {
        return print!(rt; "{}", Said(reply));
    };
    print!(rt; "{}", Said(reply))?;
    for road in &path[..roads] {
        print!(rt; " {road}")?;
    }
    Ok(())
}
