ghost use Rattle.std.specs.Prelude.{◌≡◌, length, IfOk};

use crate::{ScriptFault, read_script};
use felm_term::{Event, InputDecl, InputTy, Inputs, Memory, Name, Value};
use std::alloc::Global;
use std::test::Fail;

/// An event at one of the inputs below.
#[derive(Clone, Copy, Debug)]
enum Said {
    Click,
    X(i64),
}

/// The inputs `click`, of type unit, and `x`, of type int.
fn click_and_x(alloc: Global) -> Result<Inputs, Memory>
    ensures { IfOk result (λ inputs. length inputs.items ≡ 2) }
{
    let mut inputs = Inputs::make(alloc);
    inputs.push(InputDecl {
        name: Name::of(alloc, "click")?,
        ty: InputTy::Unit,
        default: 0,
    })?;
    inputs.push(InputDecl {
        name: Name::of(alloc, "x")?,
        ty: InputTy::Int,
        default: 0,
    })?;
    Ok(inputs)
}

fn is_said(event: &Event, said: Said) -> bool {
    match (&event.value, said) {
        (Value::Unit, Said::Click) => event.source == 0,
        (Value::Int(number), Said::X(wanted)) => event.source == 1 && *number == wanted,
        _ => false,
    }
}

#[test]
fn lines_say_their_events(rt: HostRuntime) -> Result<(), Fail> {
    let cases: [(&str, &[Said]); 16] = [
        ("", &[]),
        ("\n", &[]),
        ("\n \t\r\n\n", &[]),
        ("x 5\nx 5\n", &[Said::X(5), Said::X(5)]),
        ("x 5\nx 6", &[Said::X(5), Said::X(6)]),
        (
            "click\nx 7\nclick ()\n",
            &[Said::Click, Said::X(7), Said::Click],
        ),
        ("x 1\r\nclick\r\n\r\n", &[Said::X(1), Said::Click]),
        (
            "\t click \t()\r \nx\t\t-3 \r\r",
            &[Said::Click, Said::X(-3)],
        ),
        ("x 9223372036854775807", &[Said::X(i64::MAX)]),
        ("x -9223372036854775808", &[Said::X(i64::MIN)]),
        (
            "x 007\nx -0\nx 00000000000000000000000000000000",
            &[Said::X(7), Said::X(0), Said::X(0)],
        ),
        ("-- zoom 1 2 3\nx 1", &[Said::X(1)]),
        ("  --x 1\n--\n---\n-- one two three four", &[]),
        ("x 1\n\n\nx 2\n", &[Said::X(1), Said::X(2)]),
        ("x 1\n--\n", &[Said::X(1)]),
        ("x -1", &[Said::X(-1)]),
    ];
    let inputs = click_and_x(rt.alloc())?;
    for (text, wanted) in cases {
        let script = read_script(rt.alloc(), text.as_bytes(), &inputs)?;
        assert_eq!(rt; script.len(), wanted.len(), "in {text:?}");
        for (event, said) in script.as_slice().iter().zip(wanted) {
            assert!(rt; is_said(event, *said), "no {said:?} in {text:?}");
        }
    }
    Ok(())
}

#[test]
fn the_first_refused_line_is_named(rt: HostRuntime) -> Result<(), Fail> {
    let cases: [(&[u8], ScriptFault); 30] = [
        (b"x 1\nzoom 2", ScriptFault::Name { line: 2 }),
        (b"click 3", ScriptFault::Literal { line: 1 }),
        (b"x", ScriptFault::Literal { line: 1 }),
        (b"x 1 2", ScriptFault::Line { line: 1 }),
        // each cause before those behind it
        (b"zoom 1 2", ScriptFault::Line { line: 1 }),
        (b"zoom \x80", ScriptFault::Line { line: 1 }),
        (b"x a\x7f", ScriptFault::Line { line: 1 }),
        (b"zoom ()", ScriptFault::Name { line: 1 }),
        (b"x + -", ScriptFault::Line { line: 1 }),
        // bytes that aren't allowed, wherever they stand
        (b"\n-- \x00\n", ScriptFault::Line { line: 2 }),
        (b"--\xc3\xa4", ScriptFault::Line { line: 1 }),
        (b"\x0b", ScriptFault::Line { line: 1 }),
        (b"click\x1f\n", ScriptFault::Line { line: 1 }),
        // names are whole and their case counts
        (b"X 1", ScriptFault::Name { line: 1 }),
        (b"xx 1", ScriptFault::Name { line: 1 }),
        (b"clic", ScriptFault::Name { line: 1 }),
        (b"() x", ScriptFault::Name { line: 1 }),
        (b"-", ScriptFault::Name { line: 1 }),
        (b"- -", ScriptFault::Name { line: 1 }),
        // values
        (b"x ()", ScriptFault::Literal { line: 1 }),
        (b"x +1", ScriptFault::Literal { line: 1 }),
        (b"x -", ScriptFault::Literal { line: 1 }),
        (b"x --1", ScriptFault::Literal { line: 1 }),
        (b"x 1a", ScriptFault::Literal { line: 1 }),
        (b"x 9223372036854775808", ScriptFault::Literal { line: 1 }),
        (b"x -9223372036854775809", ScriptFault::Literal { line: 1 }),
        (b"click (", ScriptFault::Literal { line: 1 }),
        (b"click ( )", ScriptFault::Line { line: 1 }),
        // the first of several, and the last line of a text
        (
            b"x 1\n\n-- y\r\nx 1 2\nzoom\n",
            ScriptFault::Line { line: 4 },
        ),
        (b"x 1\nclick\nx y", ScriptFault::Literal { line: 3 }),
    ];
    let inputs = click_and_x(rt.alloc())?;
    for (text, wanted) in cases {
        match read_script(rt.alloc(), text, &inputs) {
            Ok(_) => assert!(rt; false, "no fault where {wanted:?} was wanted"),
            Err(fault) => assert_eq!(rt; fault, wanted),
        }
    }
    Ok(())
}
