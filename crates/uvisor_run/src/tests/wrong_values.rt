use crate::tests::answers::check_text;
use crate::tests::boards::SENSOR_BOARD;
use crate::tests::inputs::joined;
use std::alloc::Global;
use std::process::Abort;
use std::test::Fail;

// A date, a negative number and a nested array: values that no key of the board takes.
const VALUES: [&str; 3] = ["2020-01-01", "-1", "[[1]]"];

// The keys of the board in the order in which they stand: what comes after the value, and the place
// and name of the key.
const KEYS: [(&str, &str); 35] = [
    ("\nscript", "top format"),
    ("\n[board]", "top script"),
    ("\n", "board flash"),
    ("\n", "board sram"),
    ("\n", "board peripherals"),
    ("\n", "board secret"),
    ("\n", "board words"),
    ("\n", "board heap"),
    (", page", "heap base"),
    (", count", "heap page"),
    (" }", "heap count"),
    ("\n", "box 0 name"),
    ("\n", "box 0 size"),
    ("\n[[box]]", "box 0 thread 0 program"),
    ("\n", "box 1 name"),
    ("\n", "box 1 size"),
    ("\n", "box 1 grant 0 base"),
    ("\n", "box 1 grant 0 len"),
    ("\n", "box 1 grant 0 rights"),
    ("\n", "box 1 grant 0 round"),
    ("\n", "box 1 irq 0 line"),
    ("\n", "box 1 irq 0 handler"),
    ("\n[[box]]", "box 1 thread 0 program"),
    ("\n", "box 2 name"),
    ("\n", "box 2 size"),
    ("\n", "box 2 secret"),
    ("\n[[gateway]]", "box 2 thread 0 program"),
    ("\n", "gateway 0 box"),
    ("\n", "gateway 0 function"),
    ("\n", "gateway 0 callers"),
    ("\n", "gateway 1 box"),
    ("\n", "gateway 1 function"),
    ("\n", "gateway 1 callers"),
    ("\n", "device 0 rings"),
    ("\n", "device 1 rings"),
];

// The board with this value behind the key of this number, where `end` comes after the value that
// stands there.
fn with_value(alloc: Global, number: usize, end: &str, value: &str) -> Result<String, Fail> {
    let mut text = String::new(alloc);
    let mut rest = SENSOR_BOARD;
    for _ in 0..=number {
        let (head, tail) = rest.split_once(" = ").ok_or("too few keys")?;
        text.push_str(head)?;
        text.push_str(" = ")?;
        rest = tail;
    }
    let (_, tail) = rest.split_once(end).ok_or("no end of a value")?;
    text.push_str(value)?;
    text.push_str(end)?;
    text.push_str(tail)?;
    Ok(text)
}

// Checks that both commands refuse an input for the value at this place and key.
fn check_bad_value(rt: &impl Abort, alloc: Global, input: &str, key: &str) -> Result<(), Fail> {
    let line = joined(alloc, &["refused BadValue ", key, "\n"])?;
    check_text(rt, alloc, "script", input, 1, line.as_str())?;
    check_text(rt, alloc, "check", input, 1, line.as_str())
}

// Checks that no such value is taken for the key of this number.
fn check_key(
    rt: &impl Abort,
    alloc: Global,
    number: usize,
    end: &str,
    key: &str,
) -> Result<(), Fail> {
    for value in VALUES {
        let input = with_value(alloc, number, end, value)?;
        check_bad_value(rt, alloc, input.as_str(), key)?;
    }
    Ok(())
}

#[test]
fn no_key_of_a_board_takes_a_date_a_negative_number_or_a_nested_array(
    rt: HostRuntime,
) -> Result<(), Fail> {
    for (number, (end, key)) in KEYS.iter().enumerate() {
        check_key(&rt, rt.alloc(), number, end, key)?;
    }
    Ok(())
}

// A key whose value the board writes as tables: where their text begins and ends, and before what
// the key can stand.
#[derive(Clone, Copy)]
struct Tables {
    first: &'static str,
    last: &'static str,
    before: &'static str,
    name: &'static str,
    key: &'static str,
}

const TABLES: [Tables; 9] = [
    Tables {
        first: "[board]",
        last: "count = 16 }\n",
        before: "[[box]]",
        name: "board",
        key: "top board",
    },
    Tables {
        first: "[[box]]",
        last: "jump 0\n\"\"\"\n",
        before: "[board]",
        name: "box",
        key: "top box",
    },
    Tables {
        first: "[[gateway]]",
        last: "\"sensor\"]\n",
        before: "[board]",
        name: "gateway",
        key: "top gateway",
    },
    Tables {
        first: "[[device]]",
        last: "rings = [37]\n",
        before: "[board]",
        name: "device",
        key: "top device",
    },
    Tables {
        first: "[[box.thread]]",
        last: "halt\n\"\"\"\n",
        before: "[[box]]\nname = \"sensor\"",
        name: "thread",
        key: "box 0 thread",
    },
    Tables {
        first: "[[box.grant]]",
        last: "round = \"up\"\n",
        before: "[[box.irq]]",
        name: "grant",
        key: "box 1 grant",
    },
    Tables {
        first: "[[box.irq]]",
        last: "handler = 3\n",
        before: "[[box.grant]]",
        name: "irq",
        key: "box 1 irq",
    },
    Tables {
        first: "[[box.thread]]\nprogram = \"\"\"\nset r4",
        last: "irq_return\n\"\"\"\n",
        before: "[[box.grant]]",
        name: "thread",
        key: "box 1 thread",
    },
    Tables {
        first: "[[box.thread]]\nprogram = \"\"\"\nrpc_take",
        last: "jump 0\n\"\"\"\n",
        before: "[[gateway]]",
        name: "thread",
        key: "box 2 thread",
    },
];

// The board with this value in place of the tables.
fn with_tables_as(alloc: Global, tables: &Tables, value: &str) -> Result<String, Fail> {
    let (head, rest) = SENSOR_BOARD
        .split_once(tables.first)
        .ok_or("no such tables")?;
    let (_, tail) = rest.split_once(tables.last).ok_or("no end of the tables")?;
    let text = joined(alloc, &[head, tail])?;
    let (head, tail) = text
        .as_str()
        .split_once(tables.before)
        .ok_or("no place for the key")?;
    let mut whole = String::from_str(alloc, head)?;
    whole.push_str(tables.name)?;
    whole.push_str(" = ")?;
    whole.push_str(value)?;
    whole.push_str("\n")?;
    whole.push_str(tables.before)?;
    whole.push_str(tail)?;
    Ok(whole)
}

// Checks that no such value is taken in place of the tables.
fn check_tables(rt: &impl Abort, alloc: Global, tables: &Tables) -> Result<(), Fail> {
    for value in VALUES {
        let input = with_tables_as(alloc, tables, value)?;
        check_bad_value(rt, alloc, input.as_str(), tables.key)?;
    }
    Ok(())
}

#[test]
fn no_tables_of_a_board_may_be_a_date_a_negative_number_or_a_nested_array(
    rt: HostRuntime,
) -> Result<(), Fail> {
    for tables in &TABLES {
        check_tables(&rt, rt.alloc(), tables)?;
    }
    Ok(())
}
