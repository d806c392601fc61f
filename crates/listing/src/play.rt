// One record run on a machine.
ghost use Rattle.std.specs.Prelude.{◌≡◌, [], ◌∷◌};
ghost use Rattle.listing.specs.Played.{Lists, Plays, Shows, line_for, refused, shown_of};
ghost use Rattle.rules.specs.Calls.{nothing};
ghost use Rattle.lines.specs.declared.line.Level.TheVariants.{NoReference};
ghost use Rattle.machine.specs.Transfers.{read_answer, write_answer};

use crate::shown::Shown;
use base::fault::Fault;
use base::size::BLOCK_WORDS;
use faults::machine_fault::MachineFault;
use faults::trace_fault::TraceFault;
use lines::line::{Level, Line};
use machine::machine::Machine;
use memory::memory::Memory;
use paging::map::ChangeableMap;
use records::record::Record;
use replacement::rule::Rule;
use tables::message::Message;

// What a line shows of a call that answers nothing.
fn silent() -> Shown
    ensures { result ≡ shown_of nothing }
{
    Shown {
        level: Level::NoReference,
        word: 0,
        messages: [0, 0],
    }
}

// What a line shows of a transfer.
fn transferred(word: u32, message: Message) -> Shown
    ensures { result ≡ shown_of (record { level = NoReference; word = word; block = []; sent = message ∷ [] }) }
{
    Shown {
        level: Level::NoReference,
        word,
        messages: [message.word(), 0],
    }
}

// A record played on a machine. A device record takes the bus itself and releases it.
fn play<M: ChangeableMap, S: Memory, V: Rule, R: Rule>(
    machine: &mut Machine<M, S, V, R>,
    record: Record,
) -> Result<Shown, MachineFault>
    ensures { Plays M.Map S.Memory V.Rule R.Rule «record» machine.old machine.new (Shows «record» result) }
{
    match record {
        Record::Read { processor, address } => Ok(Shown::from(machine.read(processor, address)?)),
        Record::Write {
            processor,
            address,
            value,
        } => Ok(Shown::from(machine.write(processor, address, value)?)),
        Record::Switch { processor, process } => {
            machine.switch(processor, process)?;
            Ok(silent())
        }
        Record::Enter {
            process,
            page,
            frame,
        } => {
            machine.enter(process, page, frame)?;
            Ok(silent())
        }
        Record::Erase { process, page } => {
            machine.erase(process, page)?;
            Ok(silent())
        }
        Record::DeviceRead { block } => {
            let mut words = [0; BLOCK_WORDS];
            let message = machine.read_block(block, &mut words)?;
            Ok(transferred(words[0], message))
        }
        Record::DeviceWrite { block, words } => {
            let message = machine.write_block(block, &words)?;
            Ok(transferred(0, message))
        }
    }
}

// The record with a number, run on a machine: its line, or a trace fault that carries the machine's fault whole.
pub fn run_record<M: ChangeableMap, S: Memory, V: Rule, R: Rule>(
    machine: &mut Machine<M, S, V, R>,
    record: Record,
    number: u32,
) -> Result<Line, TraceFault>
    ensures { Plays M.Map S.Memory V.Rule R.Rule «record» machine.old machine.new (Lists number «record» result) }
{
    let Shown {
        level,
        word,
        messages,
    } = play(machine, record).map_err(|fault| (fault, number))?;
    Ok(Line {
        record: number,
        status: 0,
        level,
        word,
        messages,
    })
}

// The line of a refusal at a record, whichever layer's the fault is.
pub(crate) fn refused_line<F: Fault>(record: u32, fault: F) -> Line
    ensures { result ≡ refused «record» (F.number_of fault) }
{
    Line {
        record,
        status: fault.number(),
        level: Level::NoReference,
        word: 0,
        messages: [0, 0],
    }
}

// The line of a record that was run, refused or not.
pub fn line_for(number: u32, run: Result<Line, TraceFault>) -> Line
    ensures { result ≡ line_for number run }
{
    run.unwrap_or_else(|fault| refused_line(number, fault))
}
