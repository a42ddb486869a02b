// Lines that are read, and lines that are refused.
use super::*;
use std::process::Abort;
use std::test::Fail;

// Whether the reader answers what Debug shows as `text`.
fn reads(rt: &impl Abort, heap: Global, line: &[u8], text: &str) -> Result<(), Fail> {
    let form = read_line(heap, line)?;
    let shown = format!(in heap; "{form:?}")?;
    assert_eq!(rt; shown.as_str(), text);
    Ok(())
}

// Whether the reader refuses each of the lines.
fn refuses(rt: &impl Abort, heap: Global, lines: &[&str]) -> Result<(), Fail> {
    for line in lines {
        assert!(rt; read_line(heap, line.as_bytes())?.is_none(), "{}", line);
    }
    Ok(())
}

#[test]
fn reads_each_form(rt: HostRuntime) -> Result<(), Fail> {
    let heap = rt.alloc();
    reads(
        &rt,
        heap,
        b"(T 50 0)",
        "Some(Timer { deadline: 50, period: 0 })",
    )?;
    reads(
        &rt,
        heap,
        b"(T 0 18446744073709551615)",
        "Some(Timer { deadline: 0, period: 18446744073709551615 })",
    )?;
    reads(
        &rt,
        heap,
        b"(G 4294967295 X)",
        "Some(Generic { file: 4294967295, action: Remove })",
    )?;
    reads(
        &rt,
        heap,
        b"(G 7 C)",
        "Some(Generic { file: 7, action: Continue })",
    )?;
    reads(
        &rt,
        heap,
        b"(W 60 ())",
        "Some(Wait { clock: 60, files: [] })",
    )?;
    reads(
        &rt,
        heap,
        b"(W 5 (1 20 0))",
        "Some(Wait { clock: 5, files: [1, 20, 0] })",
    )
}

#[test]
fn reads_each_call(rt: HostRuntime) -> Result<(), Fail> {
    let lines: [(&str, &str); 6] = [
        ("(E 0)", "Some(Enable(0))"),
        ("(U 1)", "Some(Update(1))"),
        ("(D 20)", "Some(Disable(20))"),
        ("(R 300)", "Some(Remove(300))"),
        (
            "(E 18446744073709551615)",
            "Some(Enable(18446744073709551615))",
        ),
        (
            "(R 18446744073709551615)",
            "Some(Remove(18446744073709551615))",
        ),
    ];
    for (line, text) in lines {
        reads(&rt, rt.alloc(), line.as_bytes(), text)?;
    }
    Ok(())
}

#[test]
fn refuses_other_lines(rt: HostRuntime) -> Result<(), Fail> {
    let lines: [&str; 20] = [
        "",
        "(",
        "(T",
        "(T 50 0",
        "(T 050 0)",
        "(T 50  0)",
        "(T 50 0) ",
        " (T 50 0)",
        "(T 50)",
        "(T +50 0)",
        "(t 50 0)",
        "(T 18446744073709551616 0)",
        "(G 4294967296 C)",
        "(G 7 Q)",
        "(G 7 CC)",
        "(W 5 (1  2))",
        "(W 5 (1 2 ))",
        "(W 5 ( ))",
        "(W 5 (1)",
        "(Q 1)",
    ];
    refuses(&rt, rt.alloc(), &lines)?;
    assert!(rt; read_line(rt.alloc(), &[0xff; 9])?.is_none());
    Ok(())
}

#[test]
fn refuses_other_calls(rt: HostRuntime) -> Result<(), Fail> {
    let lines: [&str; 18] = [
        "(E 01)",
        "(U 00)",
        "(E  1)",
        "(D 1 )",
        "(R 1) ",
        " (R 1)",
        "( E 1)",
        "(E 1",
        "E 1)",
        "(D 1))",
        "(D 1]",
        "(E )",
        "(E1)",
        "(U 1 2)",
        "(R -1)",
        "(e 1)",
        "(r 1)",
        "(U 18446744073709551616)",
    ];
    refuses(&rt, rt.alloc(), &lines)
}
