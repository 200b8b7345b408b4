//! Texts that are refused, each with its status and its line.
use super::texts::{Left, PROGRAM, RESULT, SCRIPT, command, is_refused};
use crate::{ScriptCause, Status, SyntaxCause, TypingCause, Which};
use std::alloc::Global;
use std::test::Fail;

#[test]
fn the_first_fault_of_texts_is_told(rt: HostRuntime) -> Result<(), Fail> {
    let syntax = SyntaxCause::NoToken;
    let typing = TypingCause::Untyped;
    let script = ScriptCause::Name;
    let cases: [(&[u8], &[u8], Status, &[u8]); 3] = [
        (
            b"input x : int = 0\nmain = x & x\n",
            b"no script at all\n",
            Status::Syntax {
                cause: syntax,
                at: 27,
            },
            b"felm: no token at byte 27\n",
        ),
        (
            b"input x : int = 0\nmain = x x\n",
            b"no script at all\n",
            Status::Typing {
                cause: typing,
                at: 27,
            },
            b"felm: no type at byte 27\n",
        ),
        (
            PROGRAM,
            b"x 1\nzoom 2\n",
            Status::Script {
                cause: script,
                line: 2,
            },
            b"felm: line 2 names no input\n",
        ),
    ];
    for (program, script, status, line) in cases {
        assert!(rt; is_refused(rt.alloc(), program, script, status, line)?);
    }
    Ok(())
}

/// What `sync` leaves of texts of so many spaces, before the texts given.
fn after_spaces(alloc: Global, before_program: usize, before_script: usize) -> Result<Left, Fail> {
    let mut program = Vec::new(alloc);
    program.resize(before_program, b' ')?;
    program.extend_from_slice(PROGRAM)?;
    let mut script = Vec::new(alloc);
    script.resize(before_script, b' ')?;
    script.extend_from_slice(SCRIPT)?;
    command(
        alloc,
        &["sync", "p", "s"],
        program.as_slice(),
        script.as_slice(),
    )
}

#[test]
fn a_long_program_is_named(rt: HostRuntime) -> Result<(), Fail> {
    // One byte too many, beside a script that is too long as well.
    let left = after_spaces(rt.alloc(), 16_777_217 - PROGRAM.len(), 16_777_217)?;
    let which = Which::Program;
    assert_eq!(rt; left.status, Status::TooLong { which });
    assert_eq!(rt; left.out.bytes(), b"".as_slice());
    assert_eq!(rt; left.err.bytes(), b"felm: p is too long\n".as_slice());
    Ok(())
}

#[test]
fn a_long_script_is_named(rt: HostRuntime) -> Result<(), Fail> {
    let left = after_spaces(rt.alloc(), 1, 16_777_217 - SCRIPT.len())?;
    let which = Which::Script;
    assert_eq!(rt; left.status, Status::TooLong { which });
    assert_eq!(rt; left.out.bytes(), b"".as_slice());
    assert_eq!(rt; left.err.bytes(), b"felm: s is too long\n".as_slice());
    Ok(())
}

#[test]
fn the_longest_texts_are_read(rt: HostRuntime) -> Result<(), Fail> {
    let left = after_spaces(
        rt.alloc(),
        16_777_216 - PROGRAM.len(),
        16_777_216 - SCRIPT.len(),
    )?;
    assert_eq!(rt; left.status, Status::Success);
    assert_eq!(rt; left.out.bytes(), RESULT);
    Ok(())
}
