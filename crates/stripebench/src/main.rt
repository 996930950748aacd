// Drives the library from records on standard input, and prints a line for each.
#![tactic(auto)]

mod acting;
mod calling;
mod reading;
mod records;
mod replies;
mod ruining;

ghost use Rattle.std.specs.Prelude.{IfOk, OnErr};
ghost use Rattle.stripebench.specs.Following.{Left, Passes};

use acting::Room;
use records::Record;
use replies::{Refused, Reply};
use std::io::{self, Read};
use std::ops::ControlFlow;

// Prints the line of a record that was read whole. The kind is the byte as it came in, and no enum: `bad` and `cut` print it too.
fn line(rt: &impl Print, kind: u8, answer: Result<Reply, Refused>) -> io::Result<()> {
    match answer {
        Ok(reply) => println!(rt; "{kind} {reply}"),
        Err(refused) => println!(rt; "{kind} {refused}"),
    }
}

// Reads one record, does what it says and prints its line. `Break` ends the run, and so does a failed read or write, as an error.
fn one<R: Read>(rt: &impl Print, input: &mut R, room: &mut Room) -> io::Result<ControlFlow<()>>
    ensures record { IfOk result (λ next. Passes (R.remaining input.old) (R.remaining input.new) room.old next room.new) }
    ensures err { OnErr result (Left (R.remaining input.old) (R.remaining input.new) room.old room.new) }
{
    let mut first = [0u8; 1];
    let got = reading::read_full(input, &mut first)?;
    if got < 1 {
        return Ok(ControlFlow::Break(()));
    }
    let kind = first[0];
    let Ok(record) = Record::try_from(kind) else {
        println!(rt; "bad {kind}")?;
        return Ok(ControlFlow::Break(()));
    };
    let length = record.length;
    let mut body = [0u8; 8];
    let whole = reading::read_full(input, &mut body[..length])?;
    if whole < length {
        println!(rt; "cut {kind}")?;
        return Ok(ControlFlow::Break(()));
    }
    let answer = room.act(record.action, &body);
    line(rt, kind, answer)?;
    Ok(ControlFlow::Continue(()))
}

fn main(rt: HostRuntime) -> io::Result<()> {
    let mut input = rt.reader();
    let mut room = Room {
        shape: None,
        bytes: [0; 32768],
    };
    // A loop must end: no input has this many records.
    for _ in 0..u64::MAX {
        if one(&rt, &mut input, &mut room)?.is_break() {
            break;
        }
    }
    Ok(())
}
