ghost use Rattle.std.specs.Prelude.{◌≡◌};
ghost use Rattle.flat_model.specs.declared.logs.Log.{Log};
ghost use Rattle.flat_model.specs.declared.parts.Config.{Config};
ghost use Rattle.flat_model.specs.Log.{IsNamed};
ghost use Rattle.flat_model.specs.Sound.{IsSound};
ghost use Rattle.flat_model.specs.Text.{text_of};
ghost use Rattle.run_log.specs.Typed.{IsTyped};

/// Over a sound configuration, two named logs with the same text are the same log.
pub fn a_text_has_one_log()
    ensures { (config : Config) (log other : Log) → IsSound config
        → IsNamed config log → IsTyped log → IsNamed config other → IsTyped other
        → text_of config log ≡ text_of config other → log ≡ other }
{}
