ghost use Rattle.std.specs.Prelude.{◌≡◌, ◌≤◌, ◌++◌, OnOk, OnErr, IfOk};
ghost use Rattle.std.specs.String.{string_bytes};
ghost use Rattle.flow_tally.specs.Message.{message_of, cause_text, datagram_line, line_cause_text, bad_line, line_too_many, script_line};
ghost use Rattle.flow_tally.specs.Telling.{Tells, IsToldAs, HasNumbers, line_bytes};

use crate::answer::Ended;
use crate::status::Status;
use call_script::{BadScript, LineCause};
use netflow_five::Malformed;
use std::alloc::{AllocError, Global};
use wire_ports::{Sink, put_all};

const USAGE: &str =
    "flow_tally: usage: tally [--workers W] [--flows F] [--buckets B] FILE... or drive [--buckets B] [--share Q] FILE or trial [--workers W] [--flows F] [--buckets B] START N\n";

const WRITE_FAULT: &str = "flow_tally: output cannot be written\n";

const NO_MEMORY: &str = "flow_tally: out of memory\n";

#[tactic(auto, unfolding(crate::specs::Message::cause_text))]
fn add_cause(text: &mut String, cause: Malformed) -> Result<(), AllocError>
    ensures { OnOk result (string_bytes text.new ≡ string_bytes text.old ++ cause_text cause) }
{
    match cause {
        Malformed::ShortHeader { left } => write!(text, "short header, {left} bytes left"),
        Malformed::Version { found } => write!(text, "version {found}"),
        Malformed::Count { found } => write!(text, "count {found}"),
        Malformed::ShortRecords { left, wanted } => {
            write!(text, "short records, {left} bytes left, {wanted} wanted")
        }
    }
}

#[tactic(auto, unfolding(crate::specs::Message::datagram_line))]
fn bad_datagram(
    alloc: Global,
    file: u32,
    offset: usize,
    cause: Malformed,
) -> Result<String, AllocError>
    ensures { IfOk result (λ text. string_bytes text ≡ datagram_line file offset cause) }
{
    let mut text = format!(in alloc; "flow_tally: file {file} offset {offset}: ")?;
    add_cause(&mut text, cause)?;
    text.push_str("\n")?;
    Ok(text)
}

#[tactic(auto, unfolding(crate::specs::Message::line_cause_text))]
fn name_of(cause: LineCause) -> &'static str
    ensures { result.now ≡ line_cause_text cause }
{
    match cause {
        LineCause::Words => "words",
        LineCause::Number => "number",
        LineCause::Range => "range",
        LineCause::Held => "held",
    }
}

#[tactic(auto, unfolding(crate::specs::Message::bad_line))]
fn bad_line(alloc: Global, line: u32, cause: LineCause) -> Result<String, AllocError>
    ensures { IfOk result (λ text. string_bytes text ≡ bad_line line cause) }
{
    let mut text = format!(in alloc; "flow_tally: script line {line}: ")?;
    text.push_str(name_of(cause))?;
    text.push_str("\n")?;
    Ok(text)
}

#[tactic(auto, unfolding(crate::specs::Message::line_too_many))]
fn too_many(alloc: Global, line: u32) -> Result<String, AllocError>
    ensures { IfOk result (λ text. string_bytes text ≡ line_too_many line) }
{
    format!(in alloc; "flow_tally: script line {line}: too many\n")
}

fn bad_script(alloc: Global, fault: BadScript) -> Result<String, AllocError>
    ensures { IfOk result (λ text. string_bytes text ≡ script_line fault) }
{
    match fault {
        BadScript::BadLine { line, cause } => bad_line(alloc, line, cause),
        BadScript::TooMany { line } => too_many(alloc, line),
        BadScript::NoMemory => String::from_str(alloc, NO_MEMORY),
    }
}

/// A line: as it stands in the program, or written into memory.
#[derive(Drop)]
enum Line {
    Fixed(&'static str),
    Written(String),
}

fn text_of(line: &Line) -> &str
    ensures { result.now ≡ line_bytes line.now }
{
    match line {
        Line::Fixed(text) => text,
        Line::Written(text) => text.as_str(),
    }
}

/// The line of a status.
#[tactic(auto, unfolding(crate::specs::Message::message_of, crate::specs::Message::usage_line))]
fn line_of(alloc: Global, status: Status) -> Result<Line, AllocError>
    ensures line { IfOk result (λ line. line_bytes line ≡ message_of status) }
    ensures fixed { OnErr result (HasNumbers status) }
{
    let text = match status {
        Status::Done => return Ok(Line::Fixed("")),
        Status::Usage => return Ok(Line::Fixed(USAGE)),
        Status::WriteFault { .. } => return Ok(Line::Fixed(WRITE_FAULT)),
        Status::NoMemory => return Ok(Line::Fixed(NO_MEMORY)),
        Status::OpenFault { file } => {
            format!(in alloc; "flow_tally: file {file} cannot be opened\n")?
        }
        Status::ReadFault { file } => {
            format!(in alloc; "flow_tally: file {file} cannot be read\n")?
        }
        Status::BadDatagram {
            file,
            offset,
            cause,
        } => bad_datagram(alloc, file, offset, cause)?,
        Status::TooManyFlows { limit } => {
            format!(in alloc; "flow_tally: more than {limit} flows\n")?
        }
        Status::InputTooLarge { file } => {
            format!(in alloc; "flow_tally: input too large at file {file}\n")?
        }
        Status::BadScript { cause } => bad_script(alloc, cause)?,
        Status::PlanTooLarge { nodes } => {
            format!(in alloc; "flow_tally: plan too large: {nodes} nodes\n")?
        }
    };
    Ok(Line::Written(text))
}

/// Writes a line as far as the sink takes it.
fn write_line<E: Sink>(err: &mut E, line: &str)
    ensures line { Tells line.now (E.taken err.old) (E.taken err.new) (E.faults err.old) (E.faults err.new) }
    ensures later { E.faults err.old ≤ E.faults err.new }
{
    let _ = put_all(err, line.as_bytes());
}

/// Tells how a run ended, and returns that. Where memory runs out for the line, the run ends so;
/// a line that is told once output has begun needs none. A fault of the sink changes nothing.
#[tactic(auto, unfolding(crate::specs::Message::message_of))]
pub(crate) fn tell<E: Sink>(alloc: Global, err: &mut E, ended: Ended) -> Ended
    ensures same { IsToldAs ended.status result.status }
    ensures closed { result.closed ≡ ended.closed }
    ensures line { Tells (message_of result.status) (E.taken err.old) (E.taken err.new) (E.faults err.old) (E.faults err.new) }
    ensures later { E.faults err.old ≤ E.faults err.new }
{
    match line_of(alloc, ended.status) {
        Ok(line) => {
            write_line(err, text_of(&line));
            ended
        }
        Err(_) => {
            write_line(err, NO_MEMORY);
            Ended {
                status: Status::NoMemory,
                closed: ended.closed,
            }
        }
    }
}
