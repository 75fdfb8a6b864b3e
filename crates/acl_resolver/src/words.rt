ghost use Rattle.std.specs.Prelude.{◌≡◌, ◌+◌, ◌≤◌, ◌<◌, ◌++◌, IfOk, OnOk, length, map};
ghost use Rattle.acl_resolver.specs.Naming.{ring_word, rings_words, script_words, thread_word, thread_words, threads_words};
ghost use Rattle.acl_resolver.specs.Resolvable.{threads_of};

use crate::spelling::Spelled;
use addr_base::ThreadId;
use flat_model::{BoxText, IrqPart, ScriptWord, Text, ThreadText};
use std::alloc::{AllocError, Global};

// The word of thread k of a box with this name, whose number is t.
fn thread_word(alloc: Global, name: &str, k: usize, t: u8) -> Result<Spelled, AllocError>
    ensures { IfOk result (λ spelled. spelled ≡ thread_word name.now k t) }
{
    let text = format!(in alloc; "{name}.{k}")?;
    Ok(Spelled {
        text: Text::from_string(text),
        word: ScriptWord::Thread(ThreadId(t)),
    })
}

// Puts the words of a box's threads, the first of which has the number t, behind others.
fn push_thread_words(
    alloc: Global,
    name: &str,
    t: usize,
    threads: &[ThreadText],
    table: &mut Vec<Spelled>,
) -> Result<(), AllocError>
    requires { t + length threads.now ≤ 16 }
    ensures { OnOk result
        (table.new.items ≡ table.old.items ++ thread_words name.now 0 t threads.now) }
{
    for (k, _) in threads.iter().enumerate() {
        let word = thread_word(alloc, name, k, (t + k) as u8)?;
        table.push(word)?;
    }
    Ok(())
}

// Puts the words of the threads of the boxes behind others.
fn push_threads_words(
    alloc: Global,
    boxes: &[BoxText],
    table: &mut Vec<Spelled>,
) -> Result<(), AllocError>
    requires { threads_of boxes.now ≤ 16 }
    ensures { OnOk result (table.new.items ≡ table.old.items ++ threads_words 0 boxes.now) }
{
    let mut t = 0;
    for part in boxes {
        push_thread_words(alloc, part.name.as_str(), t, part.threads.as_slice(), table)?;
        t += part.threads.len();
    }
    Ok(())
}

// The word that rings an interrupt line.
fn ring_word(alloc: Global, irq: IrqPart) -> Result<Spelled, AllocError>
    ensures { IfOk result (λ spelled. spelled ≡ ring_word irq) }
{
    let line = irq.line;
    let number = line.0;
    let text = format!(in alloc; "ring {number}")?;
    Ok(Spelled {
        text: Text::from_string(text),
        word: ScriptWord::Ring(line),
    })
}

// Puts the words that ring these lines behind others.
fn push_ring_words(
    alloc: Global,
    irqs: &[IrqPart],
    table: &mut Vec<Spelled>,
) -> Result<(), AllocError>
    ensures { OnOk result (table.new.items ≡ table.old.items ++ map ring_word irqs.now) }
{
    for irq in irqs {
        let word = ring_word(alloc, *irq)?;
        table.push(word)?;
    }
    Ok(())
}

// Puts the words that ring the lines of the boxes behind others.
fn push_rings_words(
    alloc: Global,
    boxes: &[BoxText],
    table: &mut Vec<Spelled>,
) -> Result<(), AllocError>
    ensures { OnOk result (table.new.items ≡ table.old.items ++ rings_words boxes.now) }
{
    for part in boxes {
        push_ring_words(alloc, part.irqs.as_slice(), table)?;
    }
    Ok(())
}

/// The words that a script may have.
#[tactic(auto, unfolding(crate::specs::Naming::script_words))]
pub fn script_words(alloc: Global, boxes: &[BoxText]) -> Result<Vec<Spelled>, AllocError>
    requires { threads_of boxes.now ≤ 16 }
    ensures { IfOk result (λ v. v.items ≡ script_words boxes.now) }
{
    let mut table = Vec::new(alloc);
    push_threads_words(alloc, boxes, &mut table)?;
    push_rings_words(alloc, boxes, &mut table)?;
    Ok(table)
}
