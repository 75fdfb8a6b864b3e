ghost use Rattle.std.specs.Prelude.{◌≡◌};
ghost use Rattle.flat_model.specs.Local as spec;

use crate::classes::LocalInstr;
use crate::events::{Mode, Reply};
use crate::states::ThreadState;
use addr_base::BoxId;

// Puts a value into a register and moves on.
fn assigned_row(thread: &mut ThreadState, r: u8, value: u32) -> Reply
    ensures { spec.assigned_row thread.old r value ≡ (thread.new, result) }
{
    thread.set_register(r, value);
    thread.move_on();
    Reply::Done
}

// Goes on at a place.
fn jump_row(thread: &mut ThreadState, place: u32) -> Reply
    ensures { spec.jump_row thread.old place ≡ (thread.new, result) }
{
    thread.pc = place;
    Reply::Done
}

// Goes on at a place where the test holds, else at the next one.
fn branch_row(thread: &mut ThreadState, test: bool, place: u32) -> Reply
    ensures { spec.branch_row thread.old test place ≡ (thread.new, result) }
{
    if test {
        thread.pc = place;
    } else {
        thread.move_on();
    }
    Reply::Done
}

// Puts the number of the thread's box into a register.
fn box_id_row(thread: &mut ThreadState, r: u8, home: BoxId) -> Reply
    ensures { spec.box_id_row thread.old r home.0 ≡ (thread.new, result) }
{
    thread.give_result(r, home.0 as u32);
    Reply::Value(home.0 as u32)
}

// Halts the thread at its place.
fn halt_row(thread: &mut ThreadState) -> Reply
    ensures { spec.halt_row thread.old ≡ (thread.new, result) }
{
    thread.mode = Mode::Halted;
    Reply::Halted
}

/// What an instruction does that reads and changes its thread alone.
pub fn local_row(thread: &mut ThreadState, home: BoxId, instr: LocalInstr) -> Reply
    ensures { spec.local_row thread.old home.0 instr ≡ (thread.new, result) }
{
    match instr {
        LocalInstr::Set(d, w) => assigned_row(thread, d, w),
        LocalInstr::Mov(d, s) => {
            let value = thread.register(s);
            assigned_row(thread, d, value)
        }
        LocalInstr::Add(d, a, b) => {
            let value = thread.register(a).wrapping_add(thread.register(b));
            assigned_row(thread, d, value)
        }
        LocalInstr::Sub(d, a, b) => {
            let value = thread.register(a).wrapping_sub(thread.register(b));
            assigned_row(thread, d, value)
        }
        LocalInstr::And(d, a, b) => {
            let value = thread.register(a) & thread.register(b);
            assigned_row(thread, d, value)
        }
        LocalInstr::Orr(d, a, b) => {
            let value = thread.register(a) | thread.register(b);
            assigned_row(thread, d, value)
        }
        LocalInstr::Eor(d, a, b) => {
            let value = thread.register(a) ^ thread.register(b);
            assigned_row(thread, d, value)
        }
        LocalInstr::Jump(place) => jump_row(thread, place),
        LocalInstr::Jz(a, place) => {
            let test = thread.register(a) == 0;
            branch_row(thread, test, place)
        }
        LocalInstr::Jnz(a, place) => {
            let test = thread.register(a) != 0;
            branch_row(thread, test, place)
        }
        LocalInstr::BoxId(d) => box_id_row(thread, d, home),
        LocalInstr::Halt => halt_row(thread),
    }
}
