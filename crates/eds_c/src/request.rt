//! A request: words, and files in memory.

ghost use Rattle.std.specs.Prelude.{◌≡◌, ℕ, List, IfErr, IfOk};
ghost use Rattle.eds_io.specs.Files.{Files, HaveOwnNames};
ghost use Rattle.eds_c.specs.Blocks.{IsRequest};
ghost use Rattle.eds_c.specs.Calls.{OnNoRequest};

use crate::block::{NoRequest, files_of, words_of};
use eds_base::Fail;
use eds_cmd::Words;
use eds_io::{NamedFiles, have_own_names};
use std::alloc::Global;

/// The words of a command, and files, of which no two have one name.
#[derive(Drop)]
pub(crate) struct Request {
    pub words: Words,
    pub files: NamedFiles,
}

/// The request that two blocks spell: words, and files.
pub(crate) fn request_of(
    alloc: Global,
    words: &[u8],
    files: &[u8],
) -> Result<Request, Fail<NoRequest>>
    ensures ok { IfOk result (λ r. IsRequest words.now files.now r.words r.files) }
    ensures none { IfErr result (λ e. OnNoRequest e ((ws : List (List ℕ)) (fs : Files) → ¬ (IsRequest words.now files.now ws fs))) }
{
    let words = words_of(alloc, words)?;
    let files = files_of(alloc, files)?;
    if !have_own_names(files.as_slice()) {
        return Err(Fail::Named(NoRequest));
    }
    Ok(Request { words, files })
}
