//! The laws of packets in pieces: functions with no body, whose contracts are what was proved.

ghost use Rattle.eds_unpack.specs.Pieces.{OneCut, OneSplit, PiecesDontMatter, WholeCut};

/// Octets are split into packets, and a rest that begins with none, in just one way.
pub fn one_split()
    ensures { OneSplit }
{}

/// Octets are packets and nothing else exactly where that split leaves no rest, and then they are its packets.
pub fn whole_cut()
    ensures { WholeCut }
{}

/// Octets behind which no more come are packets and nothing else, or are packets up to one fault, and not both: behind the
/// most packets that any front of them is.
pub fn one_cut()
    ensures { OneCut }
{}

/// In whatever pieces octets come, and whenever packets are taken: those that were taken are the first ones of all octets;
/// and where the next answer is that more is wanted, or a fault, the packets, this answer and the octets that are held are
/// those of all octets.
pub fn pieces_dont_matter()
    ensures { PiecesDontMatter }
{}
