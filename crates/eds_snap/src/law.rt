//! Laws of snapshots: functions whose contracts are what was proved.

ghost use Rattle.eds_snap.specs.Laws.{SnapsMayGoOn, TextsAreRead};
ghost use Rattle.eds_snap.specs.Written.{LinesSay, TextsAreLines, TextsHaveLines};

use eds_types::packs::packed_sizes;
use eds_value::law::{texts_are_one_line, texts_read_back};

/// Lines may go on from each snapshot that a text stands for.
pub fn snaps_may_go_on()
    ensures { SnapsMayGoOn }
{
    packed_sizes();
}

/// Each line of a snapshot's text says what it was made of, where names are words; a text of lines in a row has these lines; and the
/// text of a snapshot is that of its lines.
pub fn lines_are_read()
    ensures say { LinesSay }
    ensures lines { TextsHaveLines }
    ensures texts { TextsAreLines }
{}

/// Where the names of a plan are words, each one once where it is looked for, the text of a snapshot as a run leaves it stands for
/// that snapshot, with the lines of its wires in that text.
pub fn texts_are_read()
    ensures { TextsAreRead }
{
    packed_sizes();
    texts_are_one_line();
    texts_read_back();
}
