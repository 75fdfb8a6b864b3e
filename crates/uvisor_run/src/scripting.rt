ghost use Rattle.std.specs.Prelude.{◌≡◌, ◌+◌, ◌<◌, ◌≤◌, IfOk, Some, slice_get};
ghost use Rattle.box_isolation.specs.Isolation.{Isolated};
ghost use Rattle.flat_model.specs.Legal.{IsLegal};
ghost use Rattle.flat_model.specs.Log.{choices_of};
ghost use Rattle.flat_model.specs.Script.{choice_of_word, script_choices};
ghost use Rattle.flat_model.specs.Sound.{IsScriptWord, IsSound};
ghost use Rattle.machine_core.specs.View.{with_event, world_of};
ghost use Rattle.uvisor_run.specs.Scripting.{IsFresh};

use flat_model::{Config, Drive, Log, OutOfMemory, ScriptWord, ThreadId};
use machine_core::Machine;
use std::alloc::Global;

// The event that a word of the script stands for.
fn run_word(machine: &mut Machine, word: ScriptWord)
    requires word { IsScriptWord machine.old.config word }
    requires drive { machine.old.drive ≡ Drive.Script }
    requires extra { 1 ≤ machine.old.extra }

    ensures config { machine.new.config ≡ machine.old.config }
    ensures drive { machine.new.drive ≡ machine.old.drive }
    ensures extra { machine.old.extra ≤ machine.new.extra + 1 }
    ensures items { machine.new.items
        ≡ with_event machine.old
        (choice_of_word machine.old.config (world_of machine.old).flat word) }
{
    match word {
        ScriptWord::Thread(t) => machine.script_step(t),
        ScriptWord::Ring(line) => machine.ring_plain(line),
    }
}

// The word of the script at this place.
fn word_at(config: &Config, i: usize) -> Option<ScriptWord>
    ensures { result ≡ slice_get config.now.script i }
{
    config.script.as_slice().get(i).copied()
}

// The events of the script.
fn run_words(machine: &mut Machine, words: usize)
    requires fresh { IsFresh machine.old words }
    requires sound { IsSound machine.old.config }

    ensures config { machine.new.config ≡ machine.old.config }
    ensures choices { choices_of machine.new.items ≡ script_choices machine.old.config }
{
    for i in 0..words {
        match word_at(machine.config(), i) {
            Some(word) => run_word(machine, word),
            None => {}
        }
    }
}

/// Runs the boxes of a configuration by its script, and answers the configuration as it was and the
/// log.
pub fn run_script(alloc: Global, config: Config) -> Result<(Config, Log), OutOfMemory>
    requires sound { IsSound config }

    ensures config { IfOk result (λ run. run.0 ≡ config) }
    ensures legal { IfOk result (λ run. IsLegal config run.1) }
    ensures choices { IfOk result (λ run. choices_of run.1.items ≡ script_choices config) }
    ensures isolated { IfOk result (λ run. Isolated config run.1) }
{
    let words = config.script.len();
    let mut machine = Machine::boot(alloc, config, Drive::Script, words as u32)?;
    run_words(&mut machine, words);
    Ok(machine.into_log())
}
