use std::alloc::{AllocError, Global};

/// The board of most tests: 1 MiB of flash and of peripherals, 128 KiB of SRAM.
pub const BOARD: &str = "[board]
flash = [0x0, 0x100000]
sram = [0x20000000, 0x20000]
peripherals = [0x40000000, 0x100000]
";

/// A box of a test: 256 bytes, a thread for each program, and the text of its other keys and tables.
#[derive(Clone, Copy)]
pub struct Sketch<'a> {
    /// Its name.
    pub name: &'a str,
    /// The lines of keys that stand before its tables.
    pub keys: &'a str,
    /// The programs of its threads.
    pub programs: &'a [&'a str],
    /// The lines of its grants and interrupt lines.
    pub tables: &'a str,
}

/// An input of a test: so many script words of each of these threads, and the text of the rest.
#[derive(Clone, Copy)]
pub struct Case<'a> {
    /// The words of the script, and how often each comes.
    pub script: &'a [(&'a str, usize)],
    /// The lines of the board behind the three of `BOARD`.
    pub board: &'a str,
    /// The boxes.
    pub boxes: &'a [Sketch<'a>],
    /// The lines of gateways and devices.
    pub rest: &'a str,
}

/// A box with one program and nothing else.
pub fn plain<'a>(name: &'a str, programs: &'a [&'a str]) -> Sketch<'a> {
    Sketch {
        name,
        keys: "",
        programs,
        tables: "",
    }
}

/// A box with grants or interrupt lines.
pub fn with_tables<'a>(name: &'a str, programs: &'a [&'a str], tables: &'a str) -> Sketch<'a> {
    Sketch {
        name,
        keys: "",
        programs,
        tables,
    }
}

/// The texts one after another.
pub fn joined(alloc: Global, texts: &[&str]) -> Result<String, AllocError> {
    let mut whole = String::new(alloc);
    for text in texts {
        whole.push_str(text)?;
    }
    Ok(whole)
}

// Puts a word of the script so often behind others.
fn push_word(text: &mut String, word: &str, times: usize) -> Result<(), AllocError> {
    for _ in 0..times {
        text.push_str("\"")?;
        text.push_str(word)?;
        text.push_str("\", ")?;
    }
    Ok(())
}

// Puts the key of the script behind a text.
fn push_script(text: &mut String, script: &[(&str, usize)]) -> Result<(), AllocError> {
    text.push_str("script = [")?;
    for (word, times) in script {
        push_word(text, word, *times)?;
    }
    text.push_str("]\n")
}

// Puts the table of a thread behind a text.
fn push_thread(text: &mut String, program: &str) -> Result<(), AllocError> {
    text.push_str("[[box.thread]]\nprogram = \"\"\"\n")?;
    text.push_str(program)?;
    text.push_str("\"\"\"\n")
}

// Puts the tables of a box behind a text.
fn push_box(text: &mut String, sketch: &Sketch) -> Result<(), AllocError> {
    text.push_str("[[box]]\nname = \"")?;
    text.push_str(sketch.name)?;
    text.push_str("\"\nsize = 256\n")?;
    text.push_str(sketch.keys)?;
    for program in sketch.programs {
        push_thread(text, program)?;
    }
    text.push_str(sketch.tables)
}

/// The text of an input.
pub fn input_of(alloc: Global, case: &Case) -> Result<String, AllocError> {
    let mut text = String::from_str(alloc, "format = 1\n")?;
    push_script(&mut text, case.script)?;
    text.push_str(BOARD)?;
    text.push_str(case.board)?;
    for sketch in case.boxes {
        push_box(&mut text, sketch)?;
    }
    text.push_str(case.rest)?;
    Ok(text)
}
