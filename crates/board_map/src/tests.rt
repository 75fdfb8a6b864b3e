use super::{check_shape, read_board};
use flat_model::{ConfigErr, Refused};
use std::alloc::Global;
use std::test::Fail;
use toml::Table;

// A head whose board is good.
const GOOD: &str = "format = 1
board = { flash = [0x0, 0x100000], sram = [0x20000000, 0x20000], peripherals = [0x40000000, 0x100000] }
";

// A box with one thread.
const ONE: &str = "{ name = \"a\", size = 256, thread = [{ program = \"halt\" }] }";

// Each case: its line of text, where GOOD stands for the head and ONE for the box, and behind `=>`
// what `check_shape` answers.
const SHAPES: &str = r#" => Err(MissingKey { spot: Top, key: Format })
zz = 1 => Err(UnknownKey { spot: Top })
board = { zz = 1 } => Err(UnknownKey { spot: Board })
board = { heap = { zz = 1 } } => Err(UnknownKey { spot: Heap })
box = [{ zz = 1 }] => Err(UnknownKey { spot: AtBox(0) })
box = [1, { zz = 1 }] => Err(UnknownKey { spot: AtBox(1) })
box = [{}, { thread = [{}, { zz = 1 }] }] => Err(UnknownKey { spot: Thread(1, 1) })
box = [{}, { grant = [{}, { zz = 1 }] }] => Err(UnknownKey { spot: Grant(1, 1) })
box = [{}, { irq = [{ zz = 1 }], grant = [{ zz = 1 }] }] => Err(UnknownKey { spot: Grant(1, 0) })
box = [{ irq = [{}, {}, { zz = 1 }] }] => Err(UnknownKey { spot: Irq(0, 2) })
register = [{}, { zz = 1 }] => Err(UnknownKey { spot: Register(1) })
gateway = [{ zz = 1 }] => Err(UnknownKey { spot: Gateway(0) })
device = [{}, { zz = 1 }] => Err(UnknownKey { spot: Device(1) })
format = 2 => Err(MissingKey { spot: Top, key: Board })
format = 1 | board = {} => Err(MissingKey { spot: Top, key: AtBox })
format = 1 | board = {} | box = [] => Err(MissingKey { spot: Board, key: Flash })
format = 1 | board = { flash = [0x0, 0x100000], peripherals = [0x40000000, 0x100000] } | box = [ONE] => Err(MissingKey { spot: Board, key: Sram })
format = 1 | board = { flash = [], sram = [], peripherals = [], heap = { base = 0 } } | box = [] => Err(MissingKey { spot: Heap, key: Page })
GOOD | box = [ONE, {}] => Err(MissingKey { spot: AtBox(1), key: Name })
GOOD | box = [{ name = "a", size = 256, thread = [{}] }] => Err(MissingKey { spot: Thread(0, 0), key: Program })
GOOD | box = [{ name = "a", size = 256, thread = [], grant = [{ base = 0, rights = "r" }] }] => Err(MissingKey { spot: Grant(0, 0), key: Len })
GOOD | box = [{ name = "a", size = 256, thread = [], irq = [{ line = 1 }] }] => Err(MissingKey { spot: Irq(0, 0), key: Handler })
GOOD | box = [ONE] | register = [{ at = 0, op = "read" }] => Err(MissingKey { spot: Register(0), key: Boxes })
GOOD | box = [ONE] | gateway = [{ function = 1, callers = [] }] => Err(MissingKey { spot: Gateway(0), key: AtBox })
GOOD | box = [ONE] | device = [{ rings = [] }, {}] => Err(MissingKey { spot: Device(1), key: Rings })
format = 2 | board = 1 | box = [] => Err(BadValue { spot: Top, key: Format })
format = 1.0 | board = 1 | box = [] => Err(BadValue { spot: Top, key: Format })
format = 1 | board = 1 | box = [] => Err(BadValue { spot: Top, key: Board })
GOOD | box = [] => Err(BadValue { spot: Top, key: AtBox })
GOOD | box = [1] => Err(BadValue { spot: Top, key: AtBox })
GOOD | box = [ONE] | script = ["a.0", 1] => Err(BadValue { spot: Top, key: Script })
format = 1 | board = { flash = [0], sram = [0, 0], peripherals = [0, 0] } | box = [ONE] => Err(BadValue { spot: Board, key: Flash })
format = 1 | board = { flash = [0, 0], sram = [0, 4294967296], peripherals = [0, 0] } | box = [ONE] => Err(BadValue { spot: Board, key: Sram })
format = 1 | board = { flash = [0, 0], sram = [0, 0], peripherals = [0, 0], words = [[0, 0], [-1, 0]] } | box = [ONE] => Err(BadValue { spot: Board, key: Words })
format = 1 | board = { flash = [0, 0], sram = [0, 0], peripherals = [0, 0], heap = { base = 0, page = true, count = 0 } } | box = [ONE] => Err(BadValue { spot: Heap, key: Page })
GOOD | box = [ONE, { name = "b", size = 0, thread = [{ program = "" }] }] => Err(BadValue { spot: AtBox(1), key: Size })
GOOD | box = [{ name = "b", size = 1048577, thread = [{ program = "" }] }] => Err(BadValue { spot: AtBox(0), key: Size })
GOOD | box = [{ name = "b", size = 1, secret = true, thread = [{ program = "" }] }] => Err(BadValue { spot: AtBox(0), key: Secret })
format = 1 | board = { flash = [0, 0], sram = [0, 0], peripherals = [0, 0], secret = [0, 0] } | box = [{ name = "b", size = 1, secret = true, thread = [{ program = "" }] }, { name = "c", size = 1, secret = true, thread = [{ program = "" }] }] => Err(BadValue { spot: AtBox(1), key: Secret })
GOOD | box = [{ name = "b", size = 1, server = 1, thread = [{ program = "" }] }] => Err(BadValue { spot: AtBox(0), key: Server })
GOOD | box = [{ name = "b", size = 1, server = 0, thread = [] }] => Err(BadValue { spot: AtBox(0), key: Server })
GOOD | box = [{ name = "b", size = 1, server = 7, thread = 1 }] => Err(BadValue { spot: AtBox(0), key: Thread })
GOOD | box = [{ name = "b", size = 1, thread = [{ program = "", steps = 0 }] }] => Err(BadValue { spot: Thread(0, 0), key: Steps })
GOOD | box = [{ name = "b", size = 1, thread = [{ program = "" }, { program = "", steps = 100001 }] }] => Err(BadValue { spot: Thread(0, 1), key: Steps })
GOOD | box = [{ name = "b", size = 1, thread = [{ program = "" }], grant = [{ base = 0, len = 0, rights = "w" }] }] => Err(BadValue { spot: Grant(0, 0), key: Rights })
GOOD | box = [{ name = "b", size = 1, thread = [{ program = "" }], grant = [{ base = 0, len = 0, rights = "rwx", round = "Up" }] }] => Err(BadValue { spot: Grant(0, 0), key: Round })
GOOD | box = [{ name = "b", size = 1, thread = [{ program = "" }], grant = [{ base = 0, len = 0, rights = "rx", shared = 1 }] }] => Err(BadValue { spot: Grant(0, 0), key: Shared })
GOOD | box = [{ name = "b", size = 1, thread = [{ program = "" }], irq = [{ line = 64, handler = 0 }] }] => Err(BadValue { spot: Irq(0, 0), key: Line })
GOOD | box = [{ name = "b", size = 1, thread = [{ program = "" }], irq = [{ line = 63, handler = 65536 }] }] => Err(BadValue { spot: Irq(0, 0), key: Handler })
GOOD | box = [ONE] | register = [{ at = 0, op = "inc", boxes = [] }] => Err(BadValue { spot: Register(0), key: Op })
GOOD | box = [ONE] | register = [{ at = 0, op = "replace", mask = -1, boxes = [] }] => Err(BadValue { spot: Register(0), key: Mask })
GOOD | box = [ONE] | gateway = [{ box = "a", function = 0, callers = "a" }] => Err(BadValue { spot: Gateway(0), key: Callers })
GOOD | box = [ONE] | device = [{ rings = [] }, { rings = [64] }] => Err(BadValue { spot: Device(1), key: Rings })
GOOD | box = [ONE, ONE, ONE, ONE, ONE, ONE, ONE, ONE, ONE] => Err(TooMany { spot: Top, key: AtBox })
GOOD | box = [ONE] | device = [{ rings = [] }, { rings = [] }, { rings = [] }, { rings = [] }, { rings = [] }] => Err(TooMany { spot: Top, key: Device })
GOOD | box = [{ name = "b", size = 1, thread = [{ program = "", steps = 100000 }, { program = "", steps = 100000 }, { program = "", steps = 50001 }] }] => Err(TooMany { spot: Thread(0, 2), key: Steps })
GOOD | box = [{ name = "b", size = 1, thread = [{ program = "", steps = 100000 }, { program = "", steps = 100000 }, { program = "", steps = 50000 }] }] => Ok(())
GOOD | box = [ONE] | register = [{ at = 0, op = "read", boxes = ["a", "a", "a", "a", "a", "a", "a", "a", "a"] }] => Err(TooMany { spot: Register(0), key: Boxes })
GOOD | box = [ONE] | gateway = [{ box = "", function = 0, callers = ["a", "a", "a", "a", "a", "a", "a", "a", "a"] }] => Err(TooMany { spot: Gateway(0), key: Callers })
GOOD | box = [ONE] | register = [] | gateway = [] | device = [] | script = ["a.0"] => Ok(())
"#;

// Each case: the keys of a board, and behind `=>` the key that is at fault, or the board that is read.
const BOARDS: &str =
    r#"flash = [0x0, 0x100000], sram = [0x20000000, 0x20000], peripherals = [0x40000000, 0x100000] => Board { flash: Range { base: 0, len: 1048576 }, sram: Range { base: 536870912, len: 131072 }, peripherals: Range { base: 1073741824, len: 1048576 }, secret: None, words: Items { items: [] }, heap: None }
flash = [0x0, 0x18000], sram = [0, 0], peripherals = [0, 0] => Flash
flash = [0x8000, 0x10000], sram = [0, 0], peripherals = [0, 0] => Flash
flash = [0x0, 0x200000], sram = [0, 0], peripherals = [0, 0] => Flash
flash = [0xE0000000, 0x20], sram = [0, 0], peripherals = [0, 0] => Flash
flash = [0x0, 0x10000], sram = [0x20000010, 0x20000], peripherals = [0, 0] => Sram
flash = [0x0, 0x10000], sram = [0xFFE0, 0x40], peripherals = [0, 0] => Sram
flash = [0x0, 0x10000], sram = [0x10000, 0x20000], peripherals = [0x2FFE0, 0x40] => Peripherals
flash = [0x0, 0x10000], sram = [0x10000, 0x20000], peripherals = [0xDFFFFFE0, 0x40] => Peripherals
flash = [0x0, 0x10000], sram = [0x10000, 0x20000], peripherals = [0x40000000, 0x20], secret = [0x8000, 0x10000] => Secret
flash = [0x0, 0x10000], sram = [0x10000, 0x20000], peripherals = [0x40000000, 0x20], secret = [0x0, 0x10000], words = [[0xFFFC, 1], [0x4000001C, 2]] => Board { flash: Range { base: 0, len: 65536 }, sram: Range { base: 65536, len: 131072 }, peripherals: Range { base: 1073741824, len: 32 }, secret: Some(Range { base: 0, len: 65536 }), words: Items { items: [Word { at: 65532, value: 1 }, Word { at: 1073741852, value: 2 }] }, heap: None }
flash = [0x0, 0x10000], sram = [0x10000, 0x20000], peripherals = [0x40000000, 0x20], words = [[0x10000, 1]] => Words
flash = [0x0, 0x10000], sram = [0x10000, 0x20000], peripherals = [0x40000000, 0x20], words = [[0x0, 1], [0x4, 1], [0x0, 1]] => Words
flash = [0x0, 0x10000], sram = [0x10000, 0x20000], peripherals = [0x40000000, 0x20], heap = { base = 0x18000, page = 1024, count = 16 } => Board { flash: Range { base: 0, len: 65536 }, sram: Range { base: 65536, len: 131072 }, peripherals: Range { base: 1073741824, len: 32 }, secret: None, words: Items { items: [] }, heap: Some(HeapPart { base: 98304, page: 1024, count: 16 }) }
flash = [0x0, 0x10000], sram = [0x10000, 0x20000], peripherals = [0x40000000, 0x20], heap = { base = 0x18000, page = 1024, count = 12 } => Heap
flash = [0x0, 0x10000], sram = [0x10000, 0x20000], peripherals = [0x40000000, 0x20], heap = { base = 0x19000, page = 1024, count = 8 } => Heap
flash = [0x0, 0x10000], sram = [0x10000, 0x20000], peripherals = [0x40000000, 0x20], heap = { base = 0x2E000, page = 1024, count = 16 } => Heap
"#;

// The document of a case: ` | ` stands for a line end.
fn document(alloc: Global, line: &str) -> Result<Table, Fail> {
    let mut text = String::new(alloc);
    for part in line.split(" | ") {
        for (i, piece) in part.split("ONE").enumerate() {
            if i > 0 {
                text.push_str(ONE)?;
            }
            text.push_str(if piece == "GOOD" { GOOD } else { piece })?;
        }
        text.push_str("\n")?;
    }
    Ok(toml::table_from_str(alloc, text.as_str())?)
}

// What `check_shape` answers to a case.
fn shape_of(alloc: Global, line: &str) -> Result<String, Fail> {
    let shape = check_shape(&document(alloc, line)?);
    Ok(format!(in alloc; "{shape:?}")?)
}

#[test]
fn each_shape_is_refused_at_its_first_table(rt: HostRuntime) -> Result<(), Fail> {
    let alloc = rt.alloc();
    for case in SHAPES.lines() {
        let (line, answer) = case.split_once(" => ").ok_or("no answer")?;
        assert_eq!(rt; shape_of(alloc, line)?.as_str(), answer, "of {line}");
    }
    Ok(())
}

// What `read_board` answers to a case: the key that is at fault, or the board.
fn board_answer(alloc: Global, line: &str) -> Result<String, Fail> {
    let text = format!(in alloc; "board = {{ {line} }}\n")?;
    let answer = match read_board(alloc, &toml::table_from_str(alloc, text.as_str())?) {
        Ok(board) => format!(in alloc; "{board:?}")?,
        Err(ConfigErr::Refused(Refused::BadBoard { key })) => format!(in alloc; "{key:?}")?,
        Err(_) => format!(in alloc; "another error")?,
    };
    Ok(answer)
}

#[test]
fn each_board_rule_is_refused_at_its_key(rt: HostRuntime) -> Result<(), Fail> {
    let alloc = rt.alloc();
    for case in BOARDS.lines() {
        let (line, answer) = case.split_once(" => ").ok_or("no answer")?;
        assert_eq!(rt; board_answer(alloc, line)?.as_str(), answer, "of {line}");
    }
    Ok(())
}

// Long lists: a line of text in which `@` stands for so many elements, the element, how many are
// accepted, and what one more is refused for.
const LISTS: &str =
    r#"format = 1 | board = { flash = [0, 0], sram = [0, 0], peripherals = [0, 0], words = [@] } | box = [ONE] ; [0, 0], ; 64 => Err(TooMany { spot: Board, key: Words })
GOOD | box = [{ name = "b", size = 1, thread = [@] }] ; { program = "", steps = 1 }, ; 16 => Err(TooMany { spot: AtBox(0), key: Thread })
GOOD | box = [ONE, { name = "b", size = 1, thread = [@] }] ; { program = "", steps = 1 }, ; 15 => Err(TooMany { spot: AtBox(1), key: Thread })
GOOD | box = [ONE, { name = "b", size = 1, thread = [{ program = "" }], grant = [@] }] ; { base = 0, len = 0, rights = "r" }, ; 64 => Err(TooMany { spot: AtBox(1), key: Grant })
GOOD | box = [{ name = "b", size = 1, thread = [{ program = "" }], irq = [@] }] ; { line = 0, handler = 0 }, ; 64 => Err(TooMany { spot: AtBox(0), key: Irq })
GOOD | box = [ONE] | register = [@] ; { at = 0, op = "xor", boxes = [] }, ; 32 => Err(TooMany { spot: Top, key: Register })
GOOD | box = [ONE] | gateway = [@] ; { box = "", function = 0, callers = [] }, ; 32 => Err(TooMany { spot: Top, key: Gateway })
GOOD | box = [ONE] | device = [{ rings = [] }, { rings = [@] }] ; 5, ; 10000 => Err(TooMany { spot: Device(1), key: Rings })
GOOD | box = [ONE] | script = ["ring", @] ; "ring 5", ; 10000 => Err(TooMany { spot: Top, key: Script })
GOOD | box = [ONE] | script = [@] ; "a.0", ; 250000 => Err(TooMany { spot: Top, key: Script })
"#;

// The line with so many elements in place of `@`.
fn with_elements(alloc: Global, line: &str, element: &str, count: usize) -> Result<String, Fail> {
    let (head, tail) = line.split_once("@").ok_or("no place for the elements")?;
    let mut text = String::new(alloc);
    text.push_str(head)?;
    for _ in 0..count {
        text.push_str(element)?;
    }
    text.push_str(tail)?;
    Ok(text)
}

#[test]
fn each_list_is_refused_one_past_its_limit(rt: HostRuntime) -> Result<(), Fail> {
    let alloc = rt.alloc();
    for case in LISTS.lines() {
        let (start, answer) = case.split_once(" => ").ok_or("no answer")?;
        let (line, rest) = start.split_once(" ; ").ok_or("no element")?;
        let (element, limit) = rest.split_once(" ; ").ok_or("no limit")?;
        let limit = limit.parse::<u32>()? as usize;
        let most = with_elements(alloc, line, element, limit)?;
        assert_eq!(rt;
            shape_of(alloc, most.as_str())?.as_str(),
            "Ok(())",
            "at {line}"
        );
        let more = with_elements(alloc, line, element, limit + 1)?;
        assert_eq!(rt;
            shape_of(alloc, more.as_str())?.as_str(),
            answer,
            "past {line}"
        );
    }
    Ok(())
}
