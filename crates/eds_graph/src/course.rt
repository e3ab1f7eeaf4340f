//! Where the ways from a number go.

ghost use Rattle.std.specs.Prelude.{◌≡◌};
ghost use Rattle.eds_graph.specs.Ways.{is_circular, is_endless};

/// Where the ways from a number go.
#[derive(Clone, Copy, PartialEq, Eq)]
pub enum Course {
    /// The number leads to itself over one step or more.
    OnCircle,
    /// It doesn't, but leads to a number that does.
    ToCircle,
    /// All ways from it end, and the longest has so many numbers, counted with it.
    Ends(usize),
}

impl Course {
    /// Whether the number leads to itself.
    pub fn is_on_circle(self) -> bool
        ensures { result ≡ is_circular self }
    {
        match self {
            Course::OnCircle => true,
            Course::ToCircle => false,
            Course::Ends(_) => false,
        }
    }

    /// Whether the number leads to itself, or to one that does.
    pub fn reaches_circle(self) -> bool
        ensures { result ≡ is_endless self }
    {
        match self {
            Course::OnCircle => true,
            Course::ToCircle => true,
            Course::Ends(_) => false,
        }
    }
}
