//! The first difference.

use eds_base::Text;

/// The first pair of a recording and an event that don't agree: the line of the recording, or that of the script where nothing is
/// recorded; the recording, and the event's text. What isn't there is `nothing`.
#[derive(Drop)]
pub struct Differs {
    pub line: u32,
    pub want: Text,
    pub got: Text,
}
