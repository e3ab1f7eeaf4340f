//! Laws of the texts of runs: functions with no body, whose contracts are what was proved.

ghost use Rattle.eds_script.specs.Alike.{AlikeEvents, AlikeScripts, AlikeStates};
ghost use Rattle.eds_script.specs.Handing.{ScriptsMayRun};
ghost use Rattle.eds_script.specs.Joined.{LinesBegin, MoreMayHappen, TextsJoin};
ghost use Rattle.eds_script.specs.Laws.{FramesRead, OneLine};

/// The hex of a frame is read as octets that begin with the frame's bits, with at most 7 more.
pub fn frames_read()
    ensures { FramesRead }
{}

/// What leaves a run has one line at most.
pub fn one_line()
    ensures { OneLine }
{}

/// What a script has happen fits its plan, keeps away from the ends of its wires, and stays within the time.
pub fn scripts_may_run()
    ensures { ScriptsMayRun }
{}

/// Over plans that differ at most in the room of their vectors a text stands for the same script, what leaves a run has the
/// same line, and where a component stands is told in the same lines.
pub fn alike_plans_are_told_alike()
    ensures scripts { AlikeScripts }
    ensures events { AlikeEvents }
    ensures states { AlikeStates }
{}

/// The script of joined texts is that of the first one with what the second one has happen that goes on from its end. What a
/// text has happen that goes on behind wires fits its plan, keeps away from their ends, and stays within the time.
pub fn texts_join()
    ensures join { TextsJoin }
    ensures more { MoreMayHappen }
{}

/// A line behind those that begin a script comes at their time, and a wire is too late where one of them is no wire.
pub fn lines_begin()
    ensures { LinesBegin }
{}
