//! A shelf and a sink that note whether a call failed.

use eds_base::Text;
use eds_io::{Got, Shelf, Sink, Wrote};
use std::alloc::Global;

/// A shelf, and the name in its first read that failed.
#[derive(Drop)]
pub(crate) struct NotedShelf<S> {
    alloc: Global,
    shelf: S,
    pub failed: Option<Text>,
}

impl<S> NotedShelf<S> {
    /// A shelf of which no read has failed.
    pub(crate) fn new(alloc: Global, shelf: S) -> NotedShelf<S> {
        NotedShelf {
            alloc,
            shelf,
            failed: None,
        }
    }
}

impl<S: Shelf> Shelf for NotedShelf<S> {
    ghost files = { λ noted. S.files noted.shelf };

    ghost faults = { λ noted. S.faults noted.shelf };

    ghost gives = { λ before name from given after. S.gives before.shelf name from given after.shelf };

    fn read_at(&mut self, name: &str, from: u64, room: &mut [u8]) -> Got {
        let got = self.shelf.read_at(name, from, room);
        if got == Got::Failed && self.failed.is_none() {
            self.failed = Text::of(self.alloc, name).ok();
        }
        got
    }
}

/// A sink, and whether one of its writes failed.
#[derive(Drop)]
pub(crate) struct NotedSink<K> {
    pub sink: K,
    pub has_failed: bool,
}

impl<K> NotedSink<K> {
    /// A sink of which no write has failed.
    pub(crate) fn new(sink: K) -> NotedSink<K> {
        NotedSink {
            sink,
            has_failed: false,
        }
    }
}

impl<K: Sink> Sink for NotedSink<K> {
    ghost written = { λ noted. K.written noted.sink };

    ghost faults = { λ noted. K.faults noted.sink };

    fn write(&mut self, piece: &[u8]) -> Wrote {
        let wrote = self.sink.write(piece);
        self.has_failed = self.has_failed || wrote == Wrote::Failed;
        wrote
    }
}
