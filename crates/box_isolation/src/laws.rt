ghost use Rattle.std.specs.Prelude.{◌≡◌, ℕ};
ghost use Rattle.box_isolation.specs.Isolation.{AreAlike, Isolated, replies_to_box};
ghost use Rattle.flat_model.specs.declared.logs.Log.{Log};
ghost use Rattle.flat_model.specs.declared.parts.BoxPart.{BoxPart};
ghost use Rattle.flat_model.specs.declared.parts.Config.{Config};
ghost use Rattle.flat_model.specs.Legal.{IsLegal};
ghost use Rattle.flat_model.specs.Sound.{IsSound};

/// Every answer that a box gets in a legal log is the one that the box by itself gives to what reached it: a function
/// of its own part and of that, and of nothing else. See docs/ISOLATION.md.
pub fn a_box_answers_from_its_part_and_its_reach()
    ensures { (config : Config) (log : Log) → IsSound config → IsLegal config log
        → Isolated config log }
{}

/// Where a box has the same part in two configurations, and the same reached it in a legal log of each, it got the
/// same replies in both.
pub fn equal_reach_gives_equal_replies()
    ensures { (first : Config) (first_log : Log) (second : Config) (second_log : Log)
        (b : ℕ) (box : BoxPart) (twin : BoxPart) → IsSound first → IsSound second
        → IsLegal first first_log → IsLegal second second_log
        → AreAlike first first_log second second_log b box twin
        → replies_to_box box first_log ≡ replies_to_box twin second_log }
{}
