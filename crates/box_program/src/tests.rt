use crate::{assemble, show};
use arrayvec::ArrayString;
use flat_model::{AssembleErr, BadLine, Instr, Why};
use std::alloc::{AllocError, Global};
use std::process::Abort;
use std::test::Fail;

fn refusal(alloc: Global, text: &str) -> Option<BadLine> {
    match assemble(alloc, text) {
        Err(AssembleErr::Bad(bad)) => Some(bad),
        _ => None,
    }
}

fn instructions(alloc: Global, text: &str, wanted: &[Instr]) -> bool {
    match assemble(alloc, text) {
        Ok(program) => program.as_slice() == wanted,
        Err(_) => false,
    }
}

/// Whether a text is that instruction alone, which is shown as that text.
fn is_spelling(alloc: Global, text: &str, wanted: Instr) -> bool {
    match assemble(alloc, text) {
        Ok(program) => {
            if program.len() != 1 {
                return false;
            }
            let instr = program[0];
            let mut shown = ArrayString::new();
            show(&instr, &mut shown);
            instr == wanted && shown.as_str() == text
        }
        Err(_) => false,
    }
}

fn halts(alloc: Global, count: u32) -> Result<String, AllocError> {
    let mut text = String::new(alloc);
    for _ in 0..count {
        text.push_str("halt\n")?;
    }
    Ok(text)
}

#[test]
fn each_instruction_has_one_spelling_which_is_read_again(rt: HostRuntime) {
    let table = [
        (Instr::Set(0, 0x2000_0A0F), "set r0 0x20000A0F"),
        (Instr::Mov(7, 6), "mov r7 r6"),
        (Instr::Add(1, 2, 3), "add r1 r2 r3"),
        (Instr::Sub(2, 3, 4), "sub r2 r3 r4"),
        (Instr::And(3, 4, 5), "and r3 r4 r5"),
        (Instr::Orr(4, 5, 6), "orr r4 r5 r6"),
        (Instr::Eor(5, 6, 7), "eor r5 r6 r7"),
        (Instr::Load8(0, 1, 0xFFFF_FFFF), "load8 r0 r1 0xFFFFFFFF"),
        (Instr::Load16(1, 2, 0), "load16 r1 r2 0x00000000"),
        (Instr::Load32(2, 3, 4), "load32 r2 r3 0x00000004"),
        (Instr::Store8(3, 4, 10), "store8 r3 r4 0x0000000A"),
        (
            Instr::Store16(4, 5, 0xABCD_EF01),
            "store16 r4 r5 0xABCDEF01",
        ),
        (Instr::Store32(5, 6, 0x1000), "store32 r5 r6 0x00001000"),
        (Instr::Exec(6, 1), "exec r6 0x00000001"),
        (Instr::Jump(65535), "jump 65535"),
        (Instr::Jz(0, 0), "jz r0 0"),
        (Instr::Jnz(7, 10), "jnz r7 10"),
        (Instr::BoxId(3), "box_id r3"),
        (Instr::PagesAlloc(0, 1), "pages_alloc r0 r1"),
        (Instr::PageFree(2), "page_free r2"),
        (Instr::IrqOn(37), "irq_on 37"),
        (Instr::IrqOff(63), "irq_off 63"),
        (Instr::IrqReturn, "irq_return"),
        (Instr::GwRead(1, 9), "gw_read r1 9"),
        (Instr::GwWrite(2, 31), "gw_write r2 31"),
        (Instr::RpcCall(3, 100), "rpc_call r3 100"),
        (Instr::RpcSync(0, 20), "rpc_sync 0 20"),
        (Instr::RpcTake, "rpc_take"),
        (Instr::RpcReturn(4), "rpc_return r4"),
        (Instr::RpcResult(5, 6), "rpc_result r5 r6"),
        (Instr::Halt, "halt"),
    ];
    for (instr, text) in table {
        assert!(rt; is_spelling(rt.alloc(), text, instr), "{text}");
    }
}

#[test]
fn other_spellings_are_read_too(rt: HostRuntime) {
    let table = [
        ("set r0 0", Instr::Set(0, 0)),
        ("set r0 4294967295", Instr::Set(0, 4_294_967_295)),
        ("set r0 0xF", Instr::Set(0, 15)),
        ("set r0 0xdeadBEEF", Instr::Set(0, 0xDEAD_BEEF)),
        ("set r0 0x00000000", Instr::Set(0, 0)),
        ("jump 0", Instr::Jump(0)),
        ("jump 65535", Instr::Jump(65535)),
        ("jump 0xffff", Instr::Jump(65535)),
        ("irq_on 0x00000005", Instr::IrqOn(5)),
        ("rpc_sync 0 1", Instr::RpcSync(0, 1)),
        ("rpc_sync 65535 65535", Instr::RpcSync(65535, 65535)),
        ("\t mov  r1\tr2\r", Instr::Mov(1, 2)),
        ("halt;halt", Instr::Halt),
        (" ; the end\n\nhalt ; here\n", Instr::Halt),
    ];
    for (text, instr) in table {
        assert!(rt; instructions(rt.alloc(), text, &[instr]), "{text}");
    }
}

// The first bad line of each text, and what is bad about it.
fn check_refusals(rt: &impl Abort, alloc: Global, table: &[(&str, u32, Why, &str)]) {
    for (text, line, why, case) in table {
        let bad = BadLine {
            line: *line,
            why: *why,
        };
        assert_eq!(rt; refusal(alloc, text), Some(bad), "{case}: {text}");
    }
}

#[test]
fn a_wrong_word_and_a_wrong_count_are_answered(rt: HostRuntime) {
    let table = [
        ("fly", 1, Why::Word, "an unknown word"),
        ("SET r0 1", 1, Why::Word, "a word in upper case"),
        ("halt\u{b}", 1, Why::Word, "a vertical tab is no blank"),
        (
            "fly r9 r9 r9 r9",
            1,
            Why::Word,
            "the word comes before the count",
        ),
        ("halt 0", 1, Why::Count, "an operand too many"),
        ("set r0", 1, Why::Count, "an operand too few"),
        (
            "set r9",
            1,
            Why::Count,
            "the count comes before the register",
        ),
        (
            "set r0 x 1",
            1,
            Why::Count,
            "the count comes before the number",
        ),
    ];
    check_refusals(&rt, rt.alloc(), &table);
}

#[test]
fn a_wrong_register_is_answered(rt: HostRuntime) {
    let table = [
        ("set r9 1", 1, Why::Register, "there is no r9"),
        ("mov r0 r8", 1, Why::Register, "there is no r8"),
        ("mov r00 r1", 1, Why::Register, "a register has one digit"),
        ("mov R0 r1", 1, Why::Register, "a register in upper case"),
        ("add r0 r1 7", 1, Why::Register, "a number is no register"),
        (
            "set r9 x",
            1,
            Why::Register,
            "operands are read from the left",
        ),
        (
            "load32 r0 r8 4294967296",
            1,
            Why::Register,
            "the second operand comes before the third",
        ),
    ];
    check_refusals(&rt, rt.alloc(), &table);
}

#[test]
fn a_number_that_is_too_large_or_too_small_is_answered(rt: HostRuntime) {
    let table = [
        ("rpc_sync 65536 0", 1, Why::Number, "both numbers are bad"),
        ("rpc_sync 0 0", 1, Why::Number, "no look is left"),
        ("rpc_sync 0 65536", 1, Why::Number, "too many looks"),
        (
            "jump 65536",
            1,
            Why::Number,
            "a small number is at most 65535",
        ),
        (
            "set r0 4294967296",
            1,
            Why::Number,
            "a word is at most 4294967295",
        ),
        (
            "set r0 18446744073709551616",
            1,
            Why::Number,
            "a number of more than 64 bits",
        ),
        (
            "set r0 99999999999999999999999999999999999999999",
            1,
            Why::Number,
            "a very long number",
        ),
    ];
    check_refusals(&rt, rt.alloc(), &table);
}

#[test]
fn a_number_that_is_spelled_wrong_is_answered(rt: HostRuntime) {
    let table = [
        ("jump 0x10000", 1, Why::Number, "in hexadecimal too"),
        (
            "set r0 0x100000000",
            1,
            Why::Number,
            "nine hexadecimal digits",
        ),
        (
            "set r0 0x000000001",
            1,
            Why::Number,
            "nine hexadecimal digits with zeros",
        ),
        ("set r0 0x", 1, Why::Number, "no hexadecimal digit"),
        ("set r0 0X1", 1, Why::Number, "an X in upper case"),
        ("set r0 0xG", 1, Why::Number, "no hexadecimal digit"),
        ("set r0 01", 1, Why::Number, "a leading zero"),
        ("set r0 00", 1, Why::Number, "a leading zero before a zero"),
        ("set r0 +1", 1, Why::Number, "a sign"),
        ("set r0 1a", 1, Why::Number, "no decimal digit"),
    ];
    check_refusals(&rt, rt.alloc(), &table);
}

#[test]
fn the_first_bad_line_is_answered(rt: HostRuntime) {
    let table = [
        (
            "halt\n\n; fly\n\tfly\nset r9 1",
            4,
            Why::Word,
            "lines count from 1",
        ),
        (
            "halt\r\nhalt\r\njump -1\r\n",
            3,
            Why::Number,
            "lines end in a line feed",
        ),
    ];
    check_refusals(&rt, rt.alloc(), &table);
}

#[test]
fn a_257th_instruction_is_refused_at_its_line(rt: HostRuntime) -> Result<(), Fail> {
    let mut text = halts(rt.alloc(), 256)?;
    text.push_str("; no instruction\n\n")?;
    match assemble(rt.alloc(), text.as_str()) {
        Ok(program) => assert_eq!(rt; program.len(), 256),
        Err(_) => assert!(rt; false, "256 instructions are a program"),
    }
    text.push_str("fly r9 r9\n")?;
    let refused = refusal(rt.alloc(), text.as_str());
    assert_eq!(rt;
        refused,
        Some(BadLine {
            line: 259,
            why: Why::TooMany
        })
    );
    let mut earlier = String::from_str(rt.alloc(), "fly\n")?;
    earlier.push_str(text.as_str())?;
    let refused = refusal(rt.alloc(), earlier.as_str());
    assert_eq!(rt;
        refused,
        Some(BadLine {
            line: 1,
            why: Why::Word
        })
    );
    Ok(())
}

#[test]
fn a_text_without_words_is_the_empty_program(rt: HostRuntime) {
    for text in ["", "\n", " \t\r\n; halt", ";"] {
        assert!(rt; instructions(rt.alloc(), text, &[]), "{text}");
    }
}
