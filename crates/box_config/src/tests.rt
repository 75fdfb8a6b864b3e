use super::{read_boxes, read_devices, read_gates, read_script};
use flat_model::ConfigErr;
use std::alloc::Global;
use std::test::Fail;

// Each case: the boxes of a document, and behind `=>` what their names are refused for.
const NAMES: &str = r#"box = [{ name = "a" }, { name = "b" }] => none
box = [{ name = "a" }, { name = "a" }] => TwiceNamed { at_box: 1 }
box = [{ name = "a" }, { name = "b" }, { name = "c" }, { name = "b" }, { name = "a" }] => TwiceNamed { at_box: 3 }
box = [{ name = "" }] => BadName { at_box: 0 }
box = [{ name = "a" }, { name = "a" }, { name = "9a" }] => BadName { at_box: 2 }
box = [{ name = "a" }, { name = "_a" }] => BadName { at_box: 1 }
box = [{ name = "aB" }] => BadName { at_box: 0 }
box = [{ name = "a-b" }] => BadName { at_box: 0 }
box = [{ name = "abcdefghijklmno_" }] => none
box = [{ name = "abcdefghijklmno_0" }] => BadName { at_box: 0 }
"#;

// What the names of a case are refused for.
fn names_answer(alloc: Global, line: &str) -> Result<String, Fail> {
    let answer = match read_boxes(alloc, &toml::table_from_str(alloc, line)?) {
        Ok(_) => format!(in alloc; "none")?,
        Err(ConfigErr::Refused(refused)) => format!(in alloc; "{refused:?}")?,
        Err(ConfigErr::Memory) => format!(in alloc; "no memory")?,
    };
    Ok(answer)
}

#[test]
fn each_name_is_refused_at_its_box(rt: HostRuntime) -> Result<(), Fail> {
    let alloc = rt.alloc();
    for case in NAMES.lines() {
        let (line, answer) = case.split_once(" => ").ok_or("no answer")?;
        assert_eq!(rt; names_answer(alloc, line)?.as_str(), answer, "of {line}");
    }
    Ok(())
}

const WHOLE: &str = r#"
script = ["a.0", "ring 37", "a.0"]
[[box]]
name = "a"
size = 300
secret = true
server = 1
[[box.thread]]
program = "halt"
[[box.thread]]
program = "jump 0"
steps = 7
[[box.grant]]
base = 0x40011000
len = 0x1C
rights = "rw"
round = "up"
[[box.grant]]
base = 0x40012000
len = 0x20
rights = "rx"
shared = true
[[box.irq]]
line = 37
handler = 3
[[register]]
at = 0x40000100
op = "replace"
mask = 0xFF00
boxes = ["a", "b"]
[[register]]
at = 0x40000104
op = "read_and"
boxes = []
[[gateway]]
box = "a"
function = 2
callers = ["b"]
[[device]]
rings = [37, 0, 63]
[[device]]
rings = []
"#;

const BOXES: &str = "[BoxText { name: Text { text: \"a\" }, size: 300, secret: true, server: 1, \
    threads: Items { items: [ThreadText { program: Text { text: \"halt\" }, steps: 10000 }, \
    ThreadText { program: Text { text: \"jump 0\" }, steps: 7 }] }, \
    grants: Items { items: [GrantText { base: 1073811456, len: 28, rights: Rights { bits: 3 }, round: Up, shared: false }, \
    GrantText { base: 1073815552, len: 32, rights: Rights { bits: 5 }, round: Plain, shared: true }] }, \
    irqs: Items { items: [IrqPart { line: Line(37), handler: 3 }] } }]";

const GATES: &str = "GateTexts { registers: Items { items: [\
    RegText { at: 1073742080, op: Replace, mask: 65280, boxes: Items { items: [Text { text: \"a\" }, Text { text: \"b\" }] } }, \
    RegText { at: 1073742084, op: ReadAnd, mask: 4294967295, boxes: Items { items: [] } }] }, \
    gateways: Items { items: [RpcText { target: Text { text: \"a\" }, function: 2, callers: Items { items: [Text { text: \"b\" }] } }] } }";

const DEVICES: &str = "[DevicePart { rings: Items { items: [Line(37), Line(0), Line(63)] } }, \
    DevicePart { rings: Items { items: [] } }]";

const SCRIPT: &str = "[\"a.0\", \"ring 37\", \"a.0\"]";

#[test]
fn a_document_is_read_whole(rt: HostRuntime) -> Result<(), Fail> {
    let alloc = rt.alloc();
    let document = toml::table_from_str(alloc, WHOLE)?;
    let boxes = format!(in alloc; "{:?}", read_boxes(alloc, &document)?)?;
    assert_eq!(rt; boxes.as_str(), BOXES);
    let gates = format!(in alloc; "{:?}", read_gates(alloc, &document)?)?;
    assert_eq!(rt; gates.as_str(), GATES);
    let devices = format!(in alloc; "{:?}", read_devices(alloc, &document)?)?;
    assert_eq!(rt; devices.as_str(), DEVICES);
    let script = format!(in alloc; "{:?}", read_script(alloc, &document)?)?;
    assert_eq!(rt; script.as_str(), SCRIPT);
    Ok(())
}

const FIRST: &str = r#"
format = 1
script = ["a.0", "a.0", "a.0", "a.0"]
[board]
flash = [0x0, 0x100000]
sram = [0x20000000, 0x20000]
peripherals = [0x40000000, 0x100000]
[[box]]
name = "a"
size = 256
[[box.thread]]
program = "set r0 0x20000000\nhalt"
"#;

#[test]
fn what_a_document_leaves_out_is_empty(rt: HostRuntime) -> Result<(), Fail> {
    let alloc = rt.alloc();
    let document = toml::table_from_str(alloc, FIRST)?;
    assert_eq!(rt; read_boxes(alloc, &document)?.len(), 1);
    let gates = read_gates(alloc, &document)?;
    assert_eq!(rt; gates.registers.len() + gates.gateways.len(), 0);
    assert_eq!(rt; read_devices(alloc, &document)?.len(), 0);
    assert_eq!(rt; read_script(alloc, &document)?.len(), 4);
    Ok(())
}
