//! Laws over the definitions: functions with empty bodies, whose contracts are the laws.

ghost use Rattle.fst_player.specs.Law.{CrashIsTold, ScriptIsRun};

/// What a script's lines come to is a run of the cache from its opening, and the changes that contracts see of the player
/// are those that the run made.
pub fn script_is_run()
    ensures { ScriptIsRun }
{}

/// Whatever the lines before it were, what the reply to `crash` tells of a block is what the crash leaves of it.
pub fn crash_is_told()
    ensures { CrashIsTold }
{}
