//! Texts that have no plan, each with the line of its first fault.
use super::texts::{X, leave, left};
use felm_term::Limits;
use std::alloc::{AllocError, Global};
use std::test::Fail;

#[test]
fn faults_of_a_program_are_named_with_their_bytes(rt: HostRuntime) -> Result<(), Fail> {
    leave(
        &rt,
        rt.alloc(),
        "",
        &[
            ("", "no script at all\n", "felm: syntax error at byte 0\n"),
            (
                "input x : int = 0\nmain = let y =",
                "no script at all\n",
                "felm: syntax error at byte 32\n",
            ),
            (
                "main = x\nmain = x\n",
                "no script at all\n",
                "felm: syntax error at byte 9\n",
            ),
            (
                "input merge : int = 0\nmain = merge\n",
                "no script at all\n",
                "felm: syntax error at byte 6\n",
            ),
            (
                "input x : int = 0\ninput x : int = 1\nmain = x\n",
                "no script at all\n",
                "felm: input declared twice at byte 24\n",
            ),
            (
                "input x : int = 0\nmain = x & x\n",
                "no script at all\n",
                "felm: no token at byte 27\n",
            ),
        ],
    )
}

#[test]
fn the_greatest_magnitude_is_a_negative_number(rt: HostRuntime) -> Result<(), Fail> {
    leave(
        &rt,
        rt.alloc(),
        X,
        &[
            (
                "lift1 (\\n:int. 9223372036854775808) x\n",
                "",
                "felm: syntax error at byte 40\n",
            ),
            (
                "lift1 (\\n:int. 9223372036854775809) x\n",
                "",
                "felm: number too wide at byte 40\n",
            ),
            (
                "lift1 (\\n:int. -9223372036854775808) x\n",
                "",
                "felm-result 1\n0 default -9223372036854775808\nend 0\n",
            ),
        ],
    )
}

#[test]
fn faults_of_types_are_named_with_their_bytes(rt: HostRuntime) -> Result<(), Fail> {
    leave(
        &rt,
        rt.alloc(),
        X,
        &[
            (
                "lift1 (\\s:signal int. s) x\n",
                "no script at all\n",
                "felm: no type at byte 25\n",
            ),
            (
                "lift1 (\\s:signal (signal int). 0) x\n",
                "no script at all\n",
                "felm: ill-formed type at byte 35\n",
            ),
            (
                "let y = x in 3\n",
                "no script at all\n",
                "felm: no type at byte 25\n",
            ),
            (
                "3\n",
                "no script at all\n",
                "felm: main is no signal at byte 25\n",
            ),
            (
                "z\n",
                "no script at all\n",
                "felm: unknown name at byte 25\n",
            ),
            ("x x\n", "no script at all\n", "felm: no type at byte 27\n"),
            (
                "async (1 + z)\n",
                "no script at all\n",
                "felm: unknown name at byte 36\n",
            ),
        ],
    )
}

/// A unit input and an input of numbers.
const CLICKS: &str =
    "input click : unit = ()\ninput x : int = 0\nmain = foldp (\\u:unit.\\c:int. c + 1) 0 click\n";

#[test]
fn faults_of_a_script_are_named_with_their_lines(rt: HostRuntime) -> Result<(), Fail> {
    leave(
        &rt,
        rt.alloc(),
        CLICKS,
        &[
            ("", "x 1\nzoom 2\n", "felm: line 2 names no input\n"),
            ("", "click 3\n", "felm: line 1 has a wrong value\n"),
            ("", "x\n", "felm: line 1 has a wrong value\n"),
            ("", "x 1 2\n", "felm: line 1 is no event\n"),
            (
                "",
                "-- x\n\nx 9223372036854775808",
                "felm: line 3 has a wrong value\n",
            ),
            ("", "click\n-- \x01\n", "felm: line 2 is no event\n"),
        ],
    )
}

/// The input `x` in so many brackets.
fn bracketed(alloc: Global, depth: u8) -> Result<String, AllocError> {
    let mut text = String::from_str(alloc, X)?;
    for _bracket in 0..depth {
        text.push_str("(")?;
    }
    text.push_str("x")?;
    for _bracket in 0..depth {
        text.push_str(")")?;
    }
    Ok(text)
}

#[test]
fn brackets_nest_199_deep(rt: HostRuntime) -> Result<(), Fail> {
    let alloc = rt.alloc();
    let rows = [
        (199, "felm-result 1\n0 default 0\n1 x 5 change 5\nend 1\n"),
        (200, "felm: nested too deeply at byte 225\n"),
    ];
    for (depth, text) in rows {
        let program = bracketed(alloc, depth)?;
        let left = left(&rt, alloc, program.as_str(), "x 5\n", &Limits::DEFAULT)?;
        assert!(&rt; left.as_slice() == text.as_bytes(), "{depth}: {left:?}");
    }
    Ok(())
}
