// The lines of the trials: what was asked, what came out, and what should.
ghost use Rattle.telling.specs.Room.{RoadsFit};

use crate::say;
use block::refusal::Refusal;
use search::Answer;
use std::convert::AsSlice;
use std::fmt::{self, Display};
use std::io::{self, Write};
use std::str;

// A heading, and what a line should say, is a text or any bytes. A text is printed, the line's end with it in one call, since a printer
// may take text alone, or a line at once; other bytes are written as they are.

// Ends a line with bytes that are no text.
fn end_with(rt: &impl Print, bytes: &[u8]) -> io::Result<()> {
    io::writer(rt).write_all(bytes)?;
    println!(rt)
}

// A heading, after an empty line.
pub fn heading<T: AsSlice<u8> + Drop>(rt: &impl Print, t: T) -> io::Result<()>
    ensures { Unit {0} }
{
    let Ok(text) = str::from_utf8(t.as_slice()) else {
        println!(rt)?;
        return end_with(rt, t.as_slice());
    };
    println!(rt; "\n{text}")
}

// Ends a line with what it should say.
pub fn should(rt: &impl Print, line: &[u8]) -> io::Result<()>
    ensures { Unit {0} }
{
    let Ok(text) = str::from_utf8(line) else {
        print!(rt; "; should be ")?;
        return end_with(rt, line);
    };
    println!(rt; "; should be {text}")
}

// What an answer is the answer to, the answer, and what it should say.
pub fn told<L: Display + Drop, T: Display + Drop, S: AsSlice<u8> + Drop>(
    rt: &impl Print,
    label: L,
    answer: T,
    line: S,
) -> io::Result<()>
    ensures { Unit {0} }
{
    let Ok(text) = str::from_utf8(line.as_slice()) else {
        print!(rt; "{label}: {answer}")?;
        return should(rt, line.as_slice());
    };
    println!(rt; "{label}: {answer}; should be {text}")
}

// A question to the search.
#[derive(Clone, Copy)]
pub struct Question {
    pub from: u32,
    pub to: u32,
    pub departure: u32,
    pub budget: u32,
}

impl Display for Question {
    fn fmt<W: fmt::Write>(&self, f: &mut fmt::Formatter<W>) -> fmt::Result {
        let Question {
            from,
            to,
            departure,
            budget,
        } = *self;
        write!(f, "{from} to {to} at {departure} budget {budget}")
    }
}

// The line of a question, with the roads that stand in the path list.
pub fn asked<T: AsSlice<u8> + Drop>(
    rt: &impl Print,
    question: Question,
    reply: Result<Answer, Refusal>,
    path: &[u32],
    line: T,
) -> io::Result<()>
    requires { RoadsFit reply path.now }
    ensures { Unit {0} }
{
    print!(rt; "{question}: ")?;
    say::reply(rt, reply, path)?;
    should(rt, line.as_slice())
}

#[cfg(test)]
mod tests {
    use super::*;
    use std::cell::Cell;

    // A printer that counts its calls.
    #[derive(Default, Drop)]
    struct Calls {
        print: Cell<u8>,
        println: Cell<u8>,
        write_all: Cell<u8>,
    }

    fn count(calls: &Cell<u8>) -> io::Result<()> {
        calls.set(calls.get().saturating_add(1));
        Ok(())
    }

    impl Calls {
        // The counts, which start anew.
        fn taken(&self) -> [u8; 3] {
            [
                self.print.take(),
                self.println.take(),
                self.write_all.take(),
            ]
        }
    }

    impl Print for Calls {
        fn print<D: Display + Drop>(&self, _value: D) -> io::Result<()> {
            count(&self.print)
        }

        fn println<D: Display + Drop>(&self, _value: D) -> io::Result<()> {
            count(&self.println)
        }

        fn write_all(&self, _bytes: &[u8]) -> io::Result<()> {
            count(&self.write_all)
        }
    }

    #[test]
    fn a_text_is_printed_at_once(rt: HostRuntime) -> io::Result<()> {
        let printer = Calls::default();
        heading(&printer, "Sealing")?;
        assert_eq!(rt; printer.taken(), [0, 1, 0]);
        should(&printer, b"sealed")?;
        assert_eq!(rt; printer.taken(), [0, 1, 0]);
        told(&printer, "no block", 0, "refused 1 0")?;
        assert_eq!(rt; printer.taken(), [0, 1, 0]);
        // the question and the reply go before
        let question = Question {
            from: 0,
            to: 1,
            departure: 0,
            budget: 3,
        };
        asked(&printer, question, Err(Refusal::Work), &[], "refused 8 0")?;
        assert_eq!(rt; printer.taken(), [2, 1, 0]);
        Ok(())
    }

    #[test]
    fn other_bytes_are_written(rt: HostRuntime) -> io::Result<()> {
        let printer = Calls::default();
        heading(&printer, b"\xff".as_slice())?;
        assert_eq!(rt; printer.taken(), [0, 2, 1]);
        should(&printer, b"\xff")?;
        assert_eq!(rt; printer.taken(), [1, 1, 1]);
        told(&printer, "no block", 0, b"\xff".as_slice())?;
        assert_eq!(rt; printer.taken(), [2, 1, 1]);
        Ok(())
    }
}
