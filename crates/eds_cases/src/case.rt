//! A case: the words, the files, how the calls behave, and the answer that is wanted.

ghost use Rattle.std.specs.Prelude.{IfOk};
ghost use Rattle.eds_io.specs.Files.{HaveOwnNames};

use crate::calls::Calls;
use crate::content::{octets, text_of};
use crate::parts::Parts;
use anyhow::{Context, Result, ensure};
use eds_base::{Items, Octets, Text};
use eds_cmd::Words;
use eds_io::{NamedFile, NamedFiles, have_own_names};
use serde_json::Value;
use std::alloc::Global;

/// The number of a status, and a report.
#[derive(PartialEq, Eq, Drop)]
pub(crate) struct Answer {
    pub status: u64,
    pub report: Vec<u8>,
}

/// A case of a file of cases.
#[derive(Clone, Copy)]
pub(crate) struct Case<'a> {
    /// What it has in common with others.
    pub group: &'a Value,
    /// What it has of its own.
    pub own: &'a Value,
}

impl<'a> Case<'a> {
    // Its own member of a name, or that of its group.
    fn member(&self, name: &str) -> Option<&'a Value> {
        match self.own.get(name) {
            Some(value) => Some(value),
            None => self.group.get(name),
        }
    }

    /// The text of its words.
    pub(crate) fn line(&self, alloc: Global, parts: &Parts) -> Result<String> {
        let line = self.member("words").context("no words")?;
        text_of(alloc, parts, line)
    }

    /// Its files: those of its group that it has none of its own for, and its own.
    pub(crate) fn files(&self, alloc: Global, parts: &Parts) -> Result<NamedFiles>
        ensures { IfOk result HaveOwnNames }
    {
        let mut files = Items::new(alloc);
        let own = self.own.get("files");
        push_files(alloc, parts, &mut files, own, None)?;
        push_files(alloc, parts, &mut files, self.group.get("files"), own)?;
        ensure!(have_own_names(files.as_slice()), "two files of one name");
        Ok(files)
    }

    /// How its reads or its writes behave.
    pub(crate) fn calls(&self, name: &str) -> Result<Calls> {
        match self.member(name) {
            None => Ok(Calls::calm()),
            Some(calls) => Calls::read(calls),
        }
    }

    // What is wanted: what `today` says where it is there, until that part is built.
    fn wanted(&self, name: &str) -> Option<&'a Value> {
        match self.member("today") {
            Some(today) => today.get(name),
            None => self.member(name),
        }
    }

    /// The answer that is wanted.
    pub(crate) fn answer(&self, alloc: Global, parts: &Parts) -> Result<Answer> {
        let status = match self.wanted("status") {
            None => 0,
            Some(number) => number.as_u64().context("status is a number")?,
        };
        let report = match self.wanted("written") {
            Some(written) => text_of(alloc, parts, written)?,
            None => lines(alloc, parts, self.wanted("report").context("no report")?)?,
        };
        Ok(Answer {
            status,
            report: report.as_bytes().to_vec(alloc)?,
        })
    }
}

// Adds the files of an object, but for those that another object has.
fn push_files(
    alloc: Global,
    parts: &Parts,
    files: &mut NamedFiles,
    members: Option<&Value>,
    but: Option<&Value>,
) -> Result<()> {
    let Some(members) = members.and_then(Value::as_object) else {
        return Ok(());
    };
    for (name, content) in members {
        let name = name.as_str();
        if but.and_then(|but| but.get(name)).is_none() {
            let octets = octets(alloc, parts, content).context(format_args!("file {name}"))?;
            let octets = Octets::from_vec(octets);
            let name = Text::from_string(String::from_str(alloc, name)?);
            let pushed = files.push(NamedFile { name, octets });
            ensure!(pushed.is_ok(), "no memory");
        }
    }
    Ok(())
}

// The lines of a report, each with its line feed. One line may stand without a list.
fn lines(alloc: Global, parts: &Parts, report: &Value) -> Result<String> {
    let mut text = String::new(alloc);
    match report {
        Value::Array(lines) => {
            for line in lines {
                text.push_str(text_of(alloc, parts, line)?.as_str())?;
                text.push_str("\n")?;
            }
        }
        line => {
            text.push_str(text_of(alloc, parts, line)?.as_str())?;
            text.push_str("\n")?;
        }
    }
    Ok(text)
}

/// The words of a line, which is cut at each space. An empty line has none.
pub(crate) fn words_of(alloc: Global, line: &str) -> Result<Words> {
    let mut words = Words::new(alloc);
    if !line.is_empty() {
        for word in line.split(' ') {
            ensure!(words.push(word).is_ok(), "no memory");
        }
    }
    Ok(words)
}
