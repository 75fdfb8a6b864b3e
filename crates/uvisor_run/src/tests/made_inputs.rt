use crate::tests::made_texts::{
    BOARD, BURSTS, GATEWAYS, KINDS, LINES, SERVING, TABLES_OF_A, TABLES_OF_B, TABLES_OF_C,
    TEMPLATES, WORDS,
};
use std::alloc::{AllocError, Global};

// A generator of numbers.
#[derive(Drop)]
struct Draws {
    state: u32,
}

impl Draws {
    // A number below a bound, or 0 where there is none.
    fn below(&mut self, bound: u32) -> u32 {
        self.state = self
            .state
            .wrapping_mul(1_664_525)
            .wrapping_add(1_013_904_223);
        if bound == 0 {
            0
        } else {
            (self.state >> 16) % bound
        }
    }
}

// Where a box mostly goes: its own memory, its largest grant, and its line.
#[derive(Clone, Copy)]
struct Home {
    own: u32,
    granted: u32,
    span: u32,
    line: u32,
}

const HOME_OF_A: Home = Home {
    own: 0x2000_0000,
    granted: 0x4000_0020,
    span: 0x80,
    line: 3,
};

const HOME_OF_B: Home = Home {
    own: 0x2000_0100,
    granted: 0x4000_0220,
    span: 0x1A0,
    line: 9,
};

const HOME_OF_C: Home = Home {
    own: 0x2000_0200,
    granted: 0x2000_0420,
    span: 0x3C0,
    line: 5,
};

// A number below a length, or one that is aligned too.
fn offset(draws: &mut Draws, length: u32, is_aligned: bool) -> u32 {
    if is_aligned {
        draws.below(length / 4).wrapping_mul(4)
    } else {
        draws.below(length)
    }
}

// The address of one of the first four pages.
fn page(draws: &mut Draws) -> u32 {
    draws.below(4).wrapping_mul(32).wrapping_add(0x2000_0800)
}

// An address: the larger the bound, the more of them are not the box's.
fn address(draws: &mut Draws, home: Home, is_aligned: bool, bound: u32) -> u32 {
    match draws.below(bound) {
        0..=5 => offset(draws, 256, is_aligned).wrapping_add(home.own),
        6..=12 => offset(draws, home.span, is_aligned).wrapping_add(home.granted),
        13 => page(draws),
        14 => offset(draws, 1024, is_aligned),
        _ => draws.below(1024).wrapping_add(0x4000_0000),
    }
}

// The number of a register: mostly one of four, so that the others keep addresses and tickets.
fn register(draws: &mut Draws) -> u32 {
    if draws.below(10) == 0 {
        return draws.below(8);
    }
    let place = draws.below(4);
    if place < 2 {
        place
    } else {
        place.wrapping_add(1)
    }
}

// The number of the register that is mostly 0, or another.
fn base_register(draws: &mut Draws) -> u32 {
    if draws.below(16) == 0 {
        draws.below(8)
    } else {
        6
    }
}

// A line, which mostly is the box's own.
fn line(draws: &mut Draws, home: Home) -> u32 {
    if draws.below(5) == 0 {
        draws.below(4).wrapping_mul(2).wrapping_add(3)
    } else {
        home.line
    }
}

// The number of a call gateway, which mostly is there.
fn call_gateway(draws: &mut Draws) -> u32 {
    if draws.below(4) == 0 {
        draws.below(4)
    } else {
        draws.below(3)
    }
}

// The number that a letter of a line stands for, if it stands for one.
fn drawn(draws: &mut Draws, home: Home, letter: char) -> Option<u32> {
    match letter {
        'R' => Some(register(draws)),
        'B' => Some(base_register(draws)),
        'W' => Some(address(draws, home, false, 16)),
        'E' => Some(address(draws, home, true, 16)),
        'O' => Some(address(draws, home, true, 13)),
        'T' => Some(draws.below(48).wrapping_mul(4).wrapping_add(home.own)),
        'P' => Some(page(draws)),
        'F' => Some(draws.below(256).wrapping_mul(2)),
        'V' => Some(draws.below(5)),
        'K' => Some(draws.below(18)),
        'N' => Some(draws.below(24)),
        'L' => Some(line(draws, home)),
        'G' => Some(draws.below(8)),
        'C' => Some(call_gateway(draws)),
        'M' => Some(draws.below(6).wrapping_add(1)),
        _ => None,
    }
}

// Puts a line behind a program, with its letters drawn.
fn push_line(
    text: &mut String,
    alloc: Global,
    draws: &mut Draws,
    home: Home,
    template: &str,
) -> Result<(), AllocError> {
    for letter in template.chars() {
        match drawn(draws, home, letter) {
            Some(number) => text.push_str(format!(in alloc; "{number}")?.as_str())?,
            None => text.push(letter)?,
        }
    }
    text.push('\n')
}

// Puts the lines of a program behind a text.
fn push_lines(
    text: &mut String,
    alloc: Global,
    draws: &mut Draws,
    home: Home,
) -> Result<(), AllocError> {
    for _ in 0..LINES {
        let kind = draws.below(KINDS) as usize;
        if let Some(template) = TEMPLATES.get(kind).copied() {
            push_line(text, alloc, draws, home, template)?;
        }
    }
    Ok(())
}

// Puts a thread behind a text: a quarter begin as servers do, and most go round.
fn push_thread(
    text: &mut String,
    alloc: Global,
    draws: &mut Draws,
    home: Home,
) -> Result<(), AllocError> {
    text.push_str("[[box.thread]]\nsteps = 64\nprogram = \"\"\"\n")?;
    if draws.below(4) == 0 {
        text.push_str(SERVING)?;
    }
    push_lines(text, alloc, draws, home)?;
    if draws.below(8) > 0 {
        text.push_str("jump 0\n")?;
    }
    text.push_str("\"\"\"\n")
}

// Puts a word of the script so often behind others.
fn push_burst(text: &mut String, word: &str, times: u32) -> Result<(), AllocError> {
    for _ in 0..times {
        text.push_str("\"")?;
        text.push_str(word)?;
        text.push_str("\", ")?;
    }
    Ok(())
}

// Puts the script behind a text.
fn push_script(text: &mut String, draws: &mut Draws) -> Result<(), AllocError> {
    text.push_str("script = [")?;
    for _ in 0..BURSTS {
        let place = draws.below(15) as usize;
        let times = draws.below(4).wrapping_add(1);
        if let Some(word) = WORDS.get(place).copied() {
            push_burst(text, word, times)?;
        }
    }
    text.push_str("]\n")
}

/// The made input of this number: three boxes of five threads, whose programs and script are drawn.
pub fn made_input(alloc: Global, number: u32) -> Result<String, AllocError> {
    let mut draws = Draws { state: number };
    let mut text = String::from_str(alloc, "format = 1\n")?;
    push_script(&mut text, &mut draws)?;
    text.push_str(BOARD)?;
    text.push_str("[[box]]\nname = \"a\"\nsize = 256\nsecret = true\n")?;
    push_thread(&mut text, alloc, &mut draws, HOME_OF_A)?;
    push_thread(&mut text, alloc, &mut draws, HOME_OF_A)?;
    text.push_str(TABLES_OF_A)?;
    text.push_str("[[box]]\nname = \"b\"\nsize = 256\n")?;
    push_thread(&mut text, alloc, &mut draws, HOME_OF_B)?;
    text.push_str(TABLES_OF_B)?;
    text.push_str("[[box]]\nname = \"c\"\nsize = 256\nserver = 1\n")?;
    push_thread(&mut text, alloc, &mut draws, HOME_OF_C)?;
    push_thread(&mut text, alloc, &mut draws, HOME_OF_C)?;
    text.push_str(TABLES_OF_C)?;
    text.push_str(GATEWAYS)?;
    Ok(text)
}
