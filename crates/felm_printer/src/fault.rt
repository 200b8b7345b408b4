//! Fault lines.
ghost use Rattle.std.specs.Prelude.{◌≡◌, ◌++◌, map, OnOk, OnErr, decimal};
ghost use Rattle.std.specs.List.{concat};
ghost use Rattle.std.specs.Io.KnownBytes.{Appends};
ghost use Rattle.felm_io.specs.Causes.{CountedPut, AppendsPrefix};
ghost use Rattle.felm_printer.specs.Fault.{at_byte, at_line, stage_line, turn_line, fault_text, FaultPut};

use crate::status::{StageCause, Status};
use arrayvec::ArrayVec;
use felm_io::{Sink, SinkFail, put_all};
use felm_term::Limits;
use itoa::Buffer;

/// A number in decimal.
fn digits(number: u64) -> ArrayVec<u8, 20>
    ensures { result.items ≡ decimal number }
{
    let mut buffer = Buffer::new();
    let mut digits = ArrayVec::new();
    let _ = digits.try_extend_from_slice(buffer.format(number).as_bytes());
    digits
}

/// Puts one piece after another.
fn put_pieces<S: Sink>(sink: &mut S, pieces: &[&[u8]]) -> Result<(), SinkFail>
    ensures ok { OnOk result (Appends (S.bytes sink.old) (S.bytes sink.new) (concat (map (λ piece. piece.now) pieces.now))) }
    ensures err { OnErr result (AppendsPrefix (S.bytes sink.old) (S.bytes sink.new) (concat (map (λ piece. piece.now) pieces.now))) }
    ensures counts { CountedPut (S.faults sink.old) (S.faults sink.new) (S.short sink.old) (S.short sink.new) result }
{
    for piece in pieces {
        put_all(sink, piece)?;
    }
    Ok(())
}

/// Puts words, a number, and the words behind it.
fn put_counted<S: Sink>(
    sink: &mut S,
    before: &str,
    number: u64,
    after: &str,
) -> Result<(), SinkFail>
    ensures ok { OnOk result (Appends (S.bytes sink.old) (S.bytes sink.new) (before.now ++ decimal number ++ after.now)) }
    ensures err { OnErr result (AppendsPrefix (S.bytes sink.old) (S.bytes sink.new) (before.now ++ decimal number ++ after.now)) }
    ensures counts { CountedPut (S.faults sink.old) (S.faults sink.new) (S.short sink.old) (S.short sink.new) result }
{
    let digits = digits(number);
    put_pieces(
        sink,
        &[before.as_bytes(), digits.as_slice(), after.as_bytes()],
    )
}

/// Puts the line of what is wrong with a program's text, and where.
fn put_at_byte<S: Sink>(sink: &mut S, fault: &str, at: usize) -> Result<(), SinkFail>
    ensures ok { OnOk result (Appends (S.bytes sink.old) (S.bytes sink.new) (at_byte fault.now at)) }
    ensures err { OnErr result (AppendsPrefix (S.bytes sink.old) (S.bytes sink.new) (at_byte fault.now at)) }
    ensures counts { CountedPut (S.faults sink.old) (S.faults sink.new) (S.short sink.old) (S.short sink.new) result }
{
    let place = digits(at as u64);
    put_pieces(
        sink,
        &[
            b"felm: ",
            fault.as_bytes(),
            b" at byte ",
            place.as_slice(),
            b"\n",
        ],
    )
}

/// Puts the line of what is wrong with a line of an event script.
fn put_at_line<S: Sink>(sink: &mut S, line: u64, fault: &str) -> Result<(), SinkFail>
    ensures ok { OnOk result (Appends (S.bytes sink.old) (S.bytes sink.new) (at_line line fault.now)) }
    ensures err { OnErr result (AppendsPrefix (S.bytes sink.old) (S.bytes sink.new) (at_line line fault.now)) }
    ensures counts { CountedPut (S.faults sink.old) (S.faults sink.new) (S.short sink.old) (S.short sink.new) result }
{
    let line = digits(line);
    put_pieces(
        sink,
        &[
            b"felm: line ",
            line.as_slice(),
            b" ",
            fault.as_bytes(),
            b"\n",
        ],
    )
}

/// Puts the line of a turn that takes more steps than these.
fn put_turn<S: Sink>(sink: &mut S, node: u32, steps: u64, position: u64) -> Result<(), SinkFail>
    ensures ok { OnOk result (Appends (S.bytes sink.old) (S.bytes sink.new) (turn_line node steps position)) }
    ensures err { OnErr result (AppendsPrefix (S.bytes sink.old) (S.bytes sink.new) (turn_line node steps position)) }
    ensures counts { CountedPut (S.faults sink.old) (S.faults sink.new) (S.short sink.old) (S.short sink.new) result }
{
    let node = digits(u64::from(node));
    let steps = digits(steps);
    let position = digits(position);
    put_pieces(
        sink,
        &[
            b"felm: node ",
            node.as_slice(),
            b" takes more than ",
            steps.as_slice(),
            b" steps at event ",
            position.as_slice(),
            b"\n",
        ],
    )
}

/// Puts the line of why a program has no graph within its limits.
fn put_stage<S: Sink>(sink: &mut S, cause: &StageCause, limits: &Limits) -> Result<(), SinkFail>
    ensures ok { OnOk result (Appends (S.bytes sink.old) (S.bytes sink.new) (stage_line cause.now limits.now)) }
    ensures err { OnErr result (AppendsPrefix (S.bytes sink.old) (S.bytes sink.new) (stage_line cause.now limits.now)) }
    ensures counts { CountedPut (S.faults sink.old) (S.faults sink.new) (S.short sink.old) (S.short sink.new) result }
{
    match cause {
        StageCause::Over => put_counted(
            sink,
            "felm: stage one takes more than ",
            limits.stage_steps,
            " steps\n",
        ),
        StageCause::Large => put_all(sink, b"felm: the graph has more than 16384 nodes\n"),
    }
}

/// Puts the line of a status, with this file name and under these limits, and nothing for success.
///
/// Only a refused put refuses it. It takes no memory of its own.
pub fn put_fault<E: Sink>(
    status: &Status,
    file: &str,
    limits: &Limits,
    err: &mut E,
) -> Result<(), SinkFail>
    ensures ok { OnOk result (Appends (E.bytes err.old) (E.bytes err.new) (fault_text status.now file.now limits.now)) }
    ensures err { OnErr result (AppendsPrefix (E.bytes err.old) (E.bytes err.new) (fault_text status.now file.now limits.now)) }
    ensures counts { CountedPut (E.faults err.old) (E.faults err.new) (E.short err.old) (E.short err.new) result }
{
    match status {
        Status::Success => put_all(err, b""),
        Status::Usage => put_all(err, b"felm: the words name no command of this program\n"),
        Status::Read { .. } => put_pieces(err, &[b"felm: cannot read ", file.as_bytes(), b"\n"]),
        Status::TooLong { .. } => put_pieces(err, &[b"felm: ", file.as_bytes(), b" is too long\n"]),
        Status::Syntax { cause, at } => put_at_byte(err, cause.fault(), *at),
        Status::Typing { cause, at } => put_at_byte(err, cause.fault(), *at),
        Status::Script { cause, line } => put_at_line(err, *line, cause.fault()),
        Status::Stage { cause } => put_stage(err, cause, limits),
        Status::Turn { node, position } => put_turn(err, *node, limits.turn_steps, *position),
        Status::Journal => put_counted(
            err,
            "felm: the journal is full at ",
            limits.journal,
            " events\n",
        ),
        Status::Write => put_all(err, b"felm: cannot write\n"),
        Status::Memory => put_all(err, b"felm: out of memory\n"),
    }
}

/// Puts the line of a status as `put_fault` does. A refused put is passed over: a prefix of the line
/// stands there then.
pub fn tell<E: Sink>(status: &Status, file: &str, limits: &Limits, err: &mut E)
    ensures { FaultPut (fault_text status.now file.now limits.now) (E.bytes err.old) (E.bytes err.new)
        (E.faults err.old) (E.faults err.new) (E.short err.old) (E.short err.new) }
{
    let _ = put_fault(status, file, limits, err);
}
