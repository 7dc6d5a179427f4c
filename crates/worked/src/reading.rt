// Lines that are written in an odd way, and lines that say nothing.
use commands::{Call, Command, Figure, Lines, next_line, read_line};
use std::test::Fail;

fn lay(a: u64, b: u64, cost: u64) -> Option<Command> {
    let cost = Figure::Money(cost);
    Some(Command::Call(Call::Lay { a, b, cost }))
}

fn mark(junction: u64) -> Option<Command> {
    Some(Command::Call(Call::Mark { junction }))
}

#[test]
fn odd_lines(rt: HostRuntime) {
    assert_eq!(rt; read_line(b""), Some(Command::Nothing));
    assert_eq!(rt; read_line(b" \t\r"), Some(Command::Nothing));
    assert_eq!(rt; read_line(b"# lay 0 1 5"), Some(Command::Nothing));
    assert_eq!(rt; read_line(b"\tlay\t0  1 5 \r"), lay(0, 1, 5));
    assert_eq!(rt; read_line(b"lay 00 0001 5# a comment"), lay(0, 1, 5));
    let most = 18_446_744_073_709_551_615;
    assert_eq!(rt; read_line(b"mark 18446744073709551615"), mark(most));
    assert_eq!(rt; read_line(b"mark 18446744073709551616"), mark(most));
    assert_eq!(rt;
        read_line(b"mark 123456789012345678901234567890"),
        mark(most)
    );
}

#[test]
fn not_understood(rt: HostRuntime) {
    assert!(rt; read_line(b"dig 6").is_none());
    assert!(rt; read_line(b"Lay 0 1 5").is_none());
    assert!(rt; read_line(b"lay 0 1").is_none());
    assert!(rt; read_line(b"lay 0 1 5 5").is_none());
    assert!(rt; read_line(b"lay 0 1 -5").is_none());
    assert!(rt; read_line(b"lay 0 1 5.0").is_none());
    assert!(rt; read_line(b"lay 0 1 1+2+3").is_none());
    assert!(rt; read_line(b"lay 0 1 1+").is_none());
    assert!(rt; read_line(b"lay 0 1 1 +2").is_none());
    assert!(rt; read_line(b"mark 1\x00").is_none());
    assert!(rt; read_line(b"district 4").is_none());
    assert!(rt; read_line(b"district 4 8 money").is_none());
    assert!(rt; read_line(b"plan limit").is_none());
    assert!(rt; read_line(b"plan limit 1 limit 2").is_none());
    assert!(rt; read_line(b"plan queue list").is_none());
}

#[test]
fn last_lines(rt: HostRuntime) -> Result<(), Fail> {
    assert!(rt; next_line(b"").is_none());
    let Some((line, rest)) = next_line(b"plan") else {
        return Err(Fail::new("a text with no line feed is a line"));
    };
    assert!(rt; line == b"plan".as_slice() && rest.is_empty());
    let Some((line, rest)) = next_line(b"\n\nplan") else {
        return Err(Fail::new("an empty line is a line"));
    };
    assert!(rt; line.is_empty() && rest == b"\nplan".as_slice());
    Ok(())
}

#[test]
fn each_line(rt: HostRuntime) {
    let text = b"mark 0\n\nmark 2\n";
    let mut marked = 0;
    for (number, line) in (0..).zip(Lines::of(text)) {
        if read_line(line) == mark(number) {
            marked = number;
        }
    }
    assert_eq!(rt; marked, 2);
    assert_eq!(rt; Lines::of(text).count(), 3);
}
