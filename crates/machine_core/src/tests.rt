ghost use Rattle.std.specs.Prelude.{◌≡◌, IfOk};
ghost use Rattle.machine_core.specs.Fixture as fixture;

use crate::Machine;
use flat_model::{
    BoxId, BoxPart, Choice, Config, Drive, End, Entry, FlatState, Flaw, Instr, IrqPart, Items,
    Kind, Line, Log, Logged, Mode, OutOfMemory, Pair, Reply, RpcGate, ThreadId, UnitLine, Verdict,
    Want, flat_step,
};
use sample_board::{config, part, thread};
use std::alloc::Global;
use std::test::Fail;

const LINE: Line = Line(5);

const IRQ: IrqPart = IrqPart {
    line: LINE,
    handler: 0,
};

// A gateway to the second box, for the first.
const GATE: RpcGate = RpcGate {
    target: BoxId(1),
    function: 7,
    callers: 1,
};

const RING: Choice = Choice::Ring { line: LINE, by: 0 };

// The threads that step, in order.
const STEPS: [u8; 11] = [0, 0, 2, 2, 0, 1, 1, 3, 3, 3, 0];

// The two boxes `a` and `b`, the first with the line.
fn boxes(alloc: Global) -> Result<Items<BoxPart>, OutOfMemory>
    ensures { IfOk result (λ boxes. boxes ≡ fixture.two_boxes.boxes) }
{
    let a = part(alloc, 0, 0, 2, &[IRQ])?;
    let b = part(alloc, 1, 2, 2, &[])?;
    Ok(Items::from_vec(vec![in alloc; a, b]?))
}

// Two boxes of two threads: `a` stores and loads in its own memory and by its grant, and comes to a
// call; `b` reads of `a` and runs out of steps.
fn two_boxes(alloc: Global) -> Result<Config, OutOfMemory>
    ensures { IfOk result (λ config. config ≡ fixture.two_boxes) }
{
    let storing = [
        Instr::Set(0, 0x2000_0000),
        Instr::Store32(0, 0, 4),
        Instr::Load32(1, 0, 4),
        Instr::Halt,
    ];
    let using = [
        Instr::Set(0, 0x4000_0020),
        Instr::Load32(3, 0, 0xDC),
        Instr::RpcCall(1, 0),
    ];
    let prying = [Instr::Set(0, 0x2000_0000), Instr::Load32(1, 0, 0)];
    let turning = [Instr::Set(1, 1), Instr::Jump(0)];
    let first = thread(alloc, 0, &storing, 100)?;
    let second = thread(alloc, 0, &using, 100)?;
    let third = thread(alloc, 1, &prying, 100)?;
    let fourth = thread(alloc, 1, &turning, 2)?;
    let threads = vec![in alloc; first, second, third, fourth]?;
    let mut cfg = config(alloc, boxes(alloc)?, Items::from_vec(threads));
    cfg.gateways = Items::from_vec(vec![in alloc; GATE]?);
    Ok(cfg)
}

// A step of a thread that is there, and has not ended where no extra event may come.
fn step(machine: &mut Machine, t: ThreadId)
    requires { machine.old.drive ≡ Drive.Script }
    ensures drive { machine.new.drive ≡ Drive.Script }
    ensures config { machine.new.config ≡ machine.old.config }
{
    let is_there = (t.0 as usize) < machine.config().threads.len();
    let may_step = !machine.ended(t) || machine.extra() > 0;
    if is_there && may_step {
        machine.script_step(t);
    }
}

// A ring of the first box's line, where an extra event may come.
fn ring(machine: &mut Machine)
    requires drive { machine.old.drive ≡ Drive.Script }
    requires config { machine.old.config ≡ fixture.two_boxes }
{
    if machine.extra() > 0 {
        machine.ring_plain(LINE);
    }
}

fn turn(t: u8, reply: Reply) -> Logged {
    Logged::Core(Entry {
        choice: Choice::Turn {
            t: ThreadId(t),
            room: true,
        },
        reply,
    })
}

fn switch(b: u8) -> Logged {
    Logged::Unit(UnitLine::Switch(BoxId(b)))
}

fn access(kind: Kind, at: u32, verdict: Verdict) -> Logged {
    Logged::Unit(UnitLine::Access {
        kind,
        size: 4,
        at,
        verdict,
    })
}

// The machine of the two boxes after all steps and a ring.
fn stepped_machine(alloc: Global) -> Result<Machine, OutOfMemory> {
    let config = two_boxes(alloc)?;
    let mut machine = Machine::boot(alloc, config, Drive::Script, 2)?;
    for t in STEPS {
        step(&mut machine, ThreadId(t));
    }
    ring(&mut machine);
    Ok(machine)
}

fn wanted_items() -> [Logged; 22] {
    let fault = Reply::Fault {
        why: Flaw::Daccviol,
        at: 0x2000_0000,
    };
    let pair = Pair {
        rbar: 0x4000_0080,
        rasr: 0x1300_000D,
    };
    [
        switch(0),
        turn(0, Reply::Done),
        access(Kind::Write, 0x2000_0004, Verdict::Granted(1)),
        turn(0, Reply::Done),
        switch(1),
        turn(2, Reply::Done),
        access(Kind::Read, 0x2000_0000, Verdict::Denied),
        turn(2, fault),
        switch(0),
        access(Kind::Read, 0x2000_0004, Verdict::Granted(1)),
        turn(0, Reply::Value(0x2000_0000)),
        turn(1, Reply::Done),
        Logged::Unit(UnitLine::Rotate { slot: 2, pair }),
        access(Kind::Read, 0x4000_00FC, Verdict::Granted(2)),
        turn(1, Reply::Value(0)),
        switch(1),
        turn(3, Reply::Done),
        turn(3, Reply::Done),
        turn(3, Reply::Ended),
        switch(0),
        turn(0, Reply::Halted),
        Logged::Core(Entry {
            choice: RING,
            reply: Reply::Done,
        }),
    ]
}

fn end(mode: Mode, steps: u32, regs: [u32; 8]) -> End {
    End { mode, steps, regs }
}

fn wanted_ends() -> [End; 4] {
    [
        end(
            Mode::Halted,
            4,
            [0x2000_0000, 0x2000_0000, 0, 0, 0, 0, 0, 0],
        ),
        end(Mode::Ready, 2, [0x4000_0020, 0, 0, 0, 0, 0, 0, 0]),
        end(Mode::Faulted, 2, [0x2000_0000, 0, 0, 0, 0, 0, 0, 0]),
        end(Mode::Spent, 2, [0, 1, 0, 0, 0, 0, 0, 0]),
    ]
}

#[test]
fn two_boxes_run_by_the_script(rt: HostRuntime) -> Result<(), Fail> {
    let machine = stepped_machine(rt.alloc())?;
    assert_eq!(rt;
        machine.extra(),
        0,
        "one event of a thread that had ended, and a ring"
    );
    assert_eq!(rt;
        machine.wants(ThreadId(1)),
        Want::Room(BoxId(1)),
        "a call of the second box"
    );
    assert_eq!(rt;
        machine.wants(ThreadId(0)),
        Want::Plain,
        "nothing, for it has ended"
    );
    let (config, log) = machine.into_log();
    assert_eq!(rt; config.threads.len(), 4);
    assert_eq!(rt; log.items.as_slice(), wanted_items().as_slice());
    assert_eq!(rt; log.ends.as_slice(), wanted_ends().as_slice());
    Ok(())
}

// The replies of a log's entries, in order.
fn replies_of(alloc: Global, log: &Log) -> Result<Vec<Reply>, OutOfMemory> {
    let mut replies = Vec::new(alloc);
    for item in log.items.as_slice() {
        if let Logged::Core(entry) = item {
            replies.push(entry.reply)?;
        }
    }
    Ok(replies)
}

// What the plain evaluator answers to the same steps.
fn evaluated_replies(alloc: Global) -> Result<Vec<Reply>, OutOfMemory> {
    let config = two_boxes(alloc)?;
    let mut state = FlatState::opening(alloc, &config)?;
    let mut replies = Vec::new(alloc);
    for t in STEPS {
        let choice = Choice::Turn {
            t: ThreadId(t),
            room: true,
        };
        replies.push(flat_step(&mut state, &config, &choice))?;
    }
    replies.push(flat_step(&mut state, &config, &RING))?;
    Ok(replies)
}

#[test]
fn the_machine_replies_as_the_plain_evaluator(rt: HostRuntime) -> Result<(), Fail> {
    let (_, log) = stepped_machine(rt.alloc())?.into_log();
    let replies = replies_of(rt.alloc(), &log)?;
    let evaluated = evaluated_replies(rt.alloc())?;
    assert_eq!(rt; replies.as_slice(), evaluated.as_slice());
    Ok(())
}
