//! The lines of statuses.
use felm_io::{MemorySink, SinkFail, SureSink};
use felm_printer::{
    ScriptCause, StageCause, Status, SyntaxCause, TypingCause, Which, put_fault, tell,
};
use felm_term::{Limits, Memory};
use std::test::Fail;

const LIMITS: Limits = Limits {
    workers: 2,
    turn_steps: 7,
    stage_steps: 21,
    edge: 1,
    journal: 5,
};

// Each status with its number and its line.
const LINES: [(Status, u8, &str); 22] = [
    (Status::Success, 0, ""),
    (
        Status::Usage,
        2,
        "felm: the words name no command of this program\n",
    ),
    (
        Status::Read {
            which: Which::Program,
        },
        3,
        "felm: cannot read p.felm\n",
    ),
    (
        Status::TooLong {
            which: Which::Script,
        },
        4,
        "felm: p.felm is too long\n",
    ),
    (
        Status::Syntax {
            cause: SyntaxCause::NoToken,
            at: 27,
        },
        5,
        "felm: no token at byte 27\n",
    ),
    (
        Status::Syntax {
            cause: SyntaxCause::Wide,
            at: 40,
        },
        5,
        "felm: number too wide at byte 40\n",
    ),
    (
        Status::Syntax {
            cause: SyntaxCause::Grammar,
            at: 32,
        },
        5,
        "felm: syntax error at byte 32\n",
    ),
    (
        Status::Syntax {
            cause: SyntaxCause::Depth,
            at: 225,
        },
        5,
        "felm: nested too deeply at byte 225\n",
    ),
    (
        Status::Syntax {
            cause: SyntaxCause::Twice,
            at: 24,
        },
        5,
        "felm: input declared twice at byte 24\n",
    ),
    (
        Status::Typing {
            cause: TypingCause::Untyped,
            at: 25,
        },
        6,
        "felm: no type at byte 25\n",
    ),
    (
        Status::Typing {
            cause: TypingCause::Unknown,
            at: 25,
        },
        6,
        "felm: unknown name at byte 25\n",
    ),
    (
        Status::Typing {
            cause: TypingCause::IllFormed,
            at: 35,
        },
        6,
        "felm: ill-formed type at byte 35\n",
    ),
    (
        Status::Typing {
            cause: TypingCause::MainType,
            at: 25,
        },
        6,
        "felm: main is no signal at byte 25\n",
    ),
    (
        Status::Script {
            cause: ScriptCause::Line,
            line: 1,
        },
        7,
        "felm: line 1 is no event\n",
    ),
    (
        Status::Script {
            cause: ScriptCause::Name,
            line: 2,
        },
        7,
        "felm: line 2 names no input\n",
    ),
    (
        Status::Script {
            cause: ScriptCause::Literal,
            line: 3,
        },
        7,
        "felm: line 3 has a wrong value\n",
    ),
    (
        Status::Stage {
            cause: StageCause::Over,
        },
        8,
        "felm: stage one takes more than 21 steps\n",
    ),
    (
        Status::Stage {
            cause: StageCause::Large,
        },
        8,
        "felm: the graph has more than 16384 nodes\n",
    ),
    (
        Status::Turn {
            node: 1,
            position: 0,
        },
        9,
        "felm: node 1 takes more than 7 steps at event 0\n",
    ),
    (
        Status::Journal,
        10,
        "felm: the journal is full at 5 events\n",
    ),
    (Status::Write, 11, "felm: cannot write\n"),
    (Status::Memory, 12, "felm: out of memory\n"),
];

#[test]
fn each_status_has_its_number_and_its_line(rt: HostRuntime) -> Result<(), Fail> {
    for (status, code, line) in LINES {
        let mut err = SureSink::make(rt.alloc());
        assert_eq!(&rt; put_fault(&status, "p.felm", &LIMITS, &mut err), Ok(()));
        assert!(&rt; err.bytes() == line.as_bytes(), "{status:?}");
        assert_eq!(&rt; status.code(), code);
    }
    Ok(())
}

#[test]
fn a_refused_put_leaves_a_prefix(rt: HostRuntime) -> Result<(), Fail> {
    let mut err = MemorySink::make(rt.alloc(), 4);
    err.fail_at(3)?;
    let status = Status::from(Memory);
    assert_eq!(&rt;
        put_fault(&status, "p.felm", &LIMITS, &mut err),
        Err(SinkFail::Failed)
    );
    assert!(&rt; err.bytes() == b"felm: ou".as_slice());
    tell(&status, "p.felm", &LIMITS, &mut err);
    assert!(&rt; err.bytes() == b"felm: oufelm: out of memory\n".as_slice());
    Ok(())
}
