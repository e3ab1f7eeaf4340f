//! Gathering an interface with all its bases.

ghost use Rattle.std.specs.Prelude.{◌≡◌, ◌≤◌, ◌<◌, [], true, OnOk};
ghost use Rattle.std.specs.List.{flat_map, list_all};
ghost use Rattle.eds_generic.specs.declared.face.Base.{Base as base_of};
ghost use Rattle.eds_generic.specs.Faces.{bases as bases_of};
ghost use Rattle.eds_generic.specs.Members.{declared_count};
ghost use Rattle.eds_generic.specs.Stops.{OnNamed};
ghost use Rattle.eds_generic.specs.Pairs.{below, gathered as gathered_of, ends_within, most, put as put_in, put_all, IsClosed};

use crate::face::{Face, bases, own};
use crate::found::Found;
use crate::pair::{Pair, below_by, places_of};
use eds_base::Fail;
use std::alloc::Global;

/// An interface has more members than it may have.
#[derive(Clone, Copy)]
pub(crate) struct TooMany;

/// How many members an interface may have.
const MEMBERS: usize = 1024;

/// The interfaces under maps that are gathered, and how many members they declare.
#[derive(Drop)]
pub(crate) struct Gathered {
    pub(crate) found: Found,
    members: usize,
}

impl Gathered {
    /// None; the bases of those to come may have so many places for types.
    pub(crate) fn new(alloc: Global, left: u64) -> Gathered
        ensures found { result.found ≡ [] }
        ensures members { result.members ≡ 0 }
    {
        Gathered {
            found: Found::new(alloc, left),
            members: 0,
        }
    }
}

/// Puts an interface under a map last, unless it is there.
fn put(gathered: &mut Gathered, faces: &[Face], pair: Pair) -> Result<(), Fail<TooMany>>
    requires counted { declared_count faces.now gathered.old.found ≡ gathered.old.members }
    requires few { gathered.old.members ≤ 1024 }
    ensures found { OnOk result (gathered.new.found ≡ put_in gathered.old.found pair) }
    ensures counted { OnOk result (declared_count faces.now gathered.new.found ≡ gathered.new.members) }
    ensures few { OnOk result (gathered.new.members ≤ 1024) }
    ensures many { OnNamed result (1024 < declared_count faces.now (put_in gathered.old.found pair)) }
{
    let members = own(faces, pair.face).len();
    let places = places_of(faces, pair.face);
    if gathered.found.put(pair, places)? {
        if members > MEMBERS - gathered.members {
            return Err(Fail::Named(TooMany));
        }
        gathered.members += members;
    }
    Ok(())
}

/// Puts an interface under a map behind all its bases, each of these behind its own; each is put once. What is there already has
/// all its bases there, so it is not gathered again. It stops where there are too many members.
#[cycle(gather)]
pub(crate) fn gather(
    alloc: Global,
    gathered: &mut Gathered,
    faces: &[Face],
    depth: usize,
    pair: Pair,
) -> Result<(), Fail<TooMany>>
    requires ends { ends_within depth faces.now pair.face.0 ≡ true }
    requires short { depth ≤ most faces.now }
    requires closed { IsClosed faces.now gathered.old.found }
    requires counted { declared_count faces.now gathered.old.found ≡ gathered.old.members }
    requires few { gathered.old.members ≤ 1024 }
    ensures found { OnOk result (gathered.new.found ≡ put_all gathered.old.found (gathered_of depth faces.now pair)) }
    ensures closed { OnOk result (IsClosed faces.now gathered.new.found) }
    ensures counted { OnOk result (declared_count faces.now gathered.new.found ≡ gathered.new.members) }
    ensures few { OnOk result (gathered.new.members ≤ 1024) }
    ensures many { OnNamed result (1024 < declared_count faces.now (put_all gathered.old.found (gathered_of depth faces.now pair))) }
{
    if gathered.found.has(&pair) {
        return Ok(());
    }
    if depth == 0 {
        return Ok(());
    }
    gather_bases(alloc, gathered, faces, depth - 1, &pair)?;
    put(gathered, faces, pair)?;
    Ok(())
}

#[cycle(gather)]
fn gather_bases(
    alloc: Global,
    gathered: &mut Gathered,
    faces: &[Face],
    depth: usize,
    pair: &Pair,
) -> Result<(), Fail<TooMany>>
    requires ends { list_all (λ (b : base_of). ends_within depth faces.now b.face.0) (bases_of faces.now pair.now.face.0) ≡ true }
    requires short { depth ≤ most faces.now }
    requires closed { IsClosed faces.now gathered.old.found }
    requires counted { declared_count faces.now gathered.old.found ≡ gathered.old.members }
    requires few { gathered.old.members ≤ 1024 }
    ensures found { OnOk result (gathered.new.found ≡ put_all gathered.old.found (flat_map (gathered_of depth faces.now) (below faces.now pair.now))) }
    ensures closed { OnOk result (IsClosed faces.now gathered.new.found) }
    ensures counted { OnOk result (declared_count faces.now gathered.new.found ≡ gathered.new.members) }
    ensures few { OnOk result (gathered.new.members ≤ 1024) }
    ensures many { OnNamed result (1024 < declared_count faces.now (put_all gathered.old.found (flat_map (gathered_of depth faces.now) (below faces.now pair.now)))) }
{
    for base in bases(faces, pair.face) {
        let under = below_by(alloc, faces, pair.face, pair.types.as_slice(), base)?;
        gather(alloc, gathered, faces, depth, under)?;
    }
    Ok(())
}
