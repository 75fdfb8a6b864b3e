ghost use Rattle.std.specs.Prelude.{◌≡◌, ◌<◌, ◌≤◌, ◌∷◌, [], ◌++◌, None, IfOk, IfErr, OnOk, length, map};
ghost use Rattle.flat_model.specs.First.{number};
ghost use Rattle.acl_resolver.specs.Refusals.{first_numbered};
ghost use Rattle.acl_resolver.specs.Resolve.{IsDue, bad_program, bad_program_at, thread_part, thread_parts};

use crate::placing::numbered;
use addr_base::BoxId;
use box_program::assemble;
use flat_model::{AssembleErr, BoxText, ConfigErr, Items, Refused, ThreadPart, ThreadText};
use std::alloc::Global;

// A thread of box i, with its program.
fn thread_part(
    alloc: Global,
    i: usize,
    j: usize,
    thread: &ThreadText,
) -> Result<ThreadPart, ConfigErr>
    requires { i < 8 }
    ensures none { OnOk result (bad_program_at (number i) (number j) thread.now ≡ None) }
    ensures ok { IfOk result (λ part. part ≡ thread_part i thread.now) }
    ensures err { IfErr result (IsDue (bad_program_at (number i) (number j) thread.now)) }
{
    match assemble(alloc, thread.program.as_str()) {
        Ok(program) => Ok(ThreadPart {
            home: BoxId(i as u8),
            program: Items::from_vec(program),
            steps: thread.steps,
        }),
        Err(AssembleErr::Bad(bad)) => Err(ConfigErr::Refused(Refused::BadProgram {
            at_box: numbered(i),
            thread: numbered(j),
            line: bad.line,
        })),
        Err(AssembleErr::Memory) => Err(ConfigErr::Memory),
    }
}

// Puts a thread behind others.
fn push_thread(parts: &mut Vec<ThreadPart>, part: ThreadPart) -> Result<(), ConfigErr>
    ensures ok { OnOk result (parts.new.items ≡ parts.old.items ++ part ∷ []) }
    ensures err { IfErr result (λ e. e ≡ ConfigErr.Memory) }
{
    parts.push(part).map_err(|_| ConfigErr::Memory)
}

// Puts the threads of box i behind others.
fn push_threads(
    alloc: Global,
    i: usize,
    threads: &[ThreadText],
    parts: &mut Vec<ThreadPart>,
) -> Result<(), ConfigErr>
    requires { i < 8 }
    ensures none { OnOk result (first_numbered (bad_program_at (number i)) 0 threads.now ≡ None) }
    ensures ok { OnOk result
        (parts.new.items ≡ parts.old.items ++ map (thread_part i) threads.now) }
    ensures err { IfErr result (IsDue (first_numbered (bad_program_at (number i)) 0 threads.now)) }
{
    for (j, thread) in threads.iter().enumerate() {
        let part = thread_part(alloc, i, j, thread)?;
        push_thread(parts, part)?;
    }
    Ok(())
}

/// The threads of all boxes in order, each with its program.
pub fn thread_parts(alloc: Global, boxes: &[BoxText]) -> Result<Vec<ThreadPart>, ConfigErr>
    requires { length boxes.now ≤ 8 }
    ensures none { OnOk result (bad_program boxes.now ≡ None) }
    ensures ok { IfOk result (λ v. v.items ≡ thread_parts 0 boxes.now) }
    ensures err { IfErr result (IsDue (bad_program boxes.now)) }
{
    let mut parts = Vec::new(alloc);
    for (i, part) in boxes.iter().enumerate() {
        push_threads(alloc, i, part.threads.as_slice(), &mut parts)?;
    }
    Ok(parts)
}
