//! Laws of sessions: functions with no body, whose contracts are what was proved.

ghost use Rattle.eds_replay.specs.Alike.{AlikeAgreement, AlikeDifferences};
ghost use Rattle.eds_replay.specs.Laws.{AgreeOrDiffer, LinesStay, NoneForgotten, OneOutcome, ShownIsExact, SomeOutcome};

use eds_overlap::law::one_outcome as reading_has_one_outcome;
use eds_script::law::{alike_plans_are_told_alike, one_line};

/// Read from the left, a whole character shows itself, and an octet that begins no whole character shows U+FFFD.
pub fn shown_is_exact()
    ensures { ShownIsExact }
{}

/// The script of a session has exactly the lines of the session that are no recordings, under their numbers.
pub fn lines_stay()
    ensures { LinesStay }
{}

/// Where the script of a session means something, each recording belongs to one of its lines that happen.
pub fn none_forgotten()
    ensures { NoneForgotten }
{}

/// Where recordings agree with what left a run, nothing is the first difference.
pub fn agree_or_differ()
    ensures { AgreeOrDiffer }
{}

/// There is one first difference at most, and one number of recordings that are spelled otherwise.
pub fn one_outcome()
    ensures { OneOutcome }
{
    one_line();
}

/// Recordings agree with what left a run, or there is a first difference.
pub fn some_outcome()
    ensures { SomeOutcome }
{
    one_line();
    reading_has_one_outcome();
}

/// Recordings agree with what left a run, or don't, over all plans that are seen alike.
pub fn alike_plans_agree_alike()
    ensures agree { AlikeAgreement }
    ensures differ { AlikeDifferences }
{
    alike_plans_are_told_alike();
}
