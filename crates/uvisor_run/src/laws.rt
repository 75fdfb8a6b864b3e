ghost use Rattle.std.specs.Prelude.{◌≡◌, true};
ghost use Rattle.flat_model.specs.declared.logs.Log.{Log};
ghost use Rattle.flat_model.specs.declared.parts.Config.{Config};
ghost use Rattle.flat_model.specs.Legal.{IsLegal};
ghost use Rattle.flat_model.specs.Log.{IsNamed, choices_of, entries_of, events_of};
ghost use Rattle.flat_model.specs.OneLog.{log_of_choices, script_log};
ghost use Rattle.flat_model.specs.Run.{opening_state};
ghost use Rattle.flat_model.specs.Script.{script_choices};
ghost use Rattle.flat_model.specs.Sound.{IsSound};
ghost use Rattle.uvisor_run.specs.FrameLaws.{AllArriveZeroed, KeepOneOwner};
ghost use Rattle.uvisor_run.specs.Laws.{are_granted_as_held};

/// Each access of a legal log is granted exactly where the acting box holds its bytes in the state
/// that the choices before it reached: whatever rotated in or was thrown out before makes no
/// difference.
pub fn grants_need_no_history()
    ensures { (config : Config) (log : Log) → IsSound config → IsLegal config log
        → are_granted_as_held config (opening_state config) (events_of log.items) ≡ true }
{}

/// A legal log names boxes, threads, lines and slots that are there, so it has a text.
pub fn legal_logs_are_named()
    ensures { (config : Config) (log : Log) → IsSound config → IsLegal config log
        → IsNamed config log }
{}

/// There is one legal log of a list of choices.
pub fn a_legal_log_is_the_log_of_its_choices()
    ensures { (config : Config) (log : Log) → IsLegal config log
        → log ≡ log_of_choices config (choices_of log.items) }
{}

/// The one log of a script is legal and has the script's choices. So what `script` is due to write is the text of a legal log, also where a write
/// fails before its end or memory is refused.
pub fn script_logs_are_legal()
    ensures legal { (config : Config) → IsSound config
        → IsLegal config (script_log config) }
    ensures choices { (config : Config)
        → choices_of (script_log config).items ≡ script_choices config }
{}

/// A frame has at most one owner in each state that a legal log reaches: the heap has one place for the owner of each
/// frame, and no two boxes hold the same byte of it. Owners change at page calls alone: a box gains the frames that a
/// reply gives it, and loses a frame that it gives back.
pub fn a_frame_has_one_owner()
    ensures { (config : Config) (log : Log) → IsSound config → IsLegal config log
        → KeepOneOwner config (opening_state config) (entries_of log.items) }
{}

/// Pages arrive with zero bytes: right after an entry of a legal log whose reply gives frames, each byte of their pages
/// is 0, also where a page table was written. The frames ascend, were the least without an owner, and are the acting
/// box's now.
pub fn pages_arrive_zeroed()
    ensures { (config : Config) (log : Log) → IsSound config → IsLegal config log
        → AllArriveZeroed config (opening_state config) (entries_of log.items) }
{}
