//! Answers as JSON: an object in a line for each file.
//!
//! It stands on no crate of this project, below what has answers to write. An object's members stand in the order of the bytes of their
//! names.
//!
//! The main contract: [`Members`] are the members that were put in, and [`Members::line`] is the line of their object (`IsLine` of
//! `specs/Lines.antt`): its text by the kit's `serde_json`, of which is read what the object is.
#![tactic(auto)]

ghost use Rattle.std.specs.Prelude.{◌≡◌, string_bytes, IfOk, OnOk};
ghost use Rattle.serde_json.specs.Data.{no_members, object, put as with_member, string};
ghost use Rattle.serde_json.specs.View.{view};
ghost use Rattle.holzikra_json.specs.Lines.{IsLine, file_members, members_of, whole_or_null};

use serde_json::{Map, Value, put};
use std::alloc::{AllocError, Global};

/// The name of the form of these lines.
const FORMAT: &str = "holzikra-1";

/// The members of an object.
#[derive(Drop)]
pub struct Members {
    alloc: Global,
    map: Map<String, Value>,
}

impl Members {
    /// No members.
    pub fn new(alloc: Global) -> Members
        ensures { members_of result ≡ no_members }
    {
        Members {
            alloc,
            map: Map::new(alloc),
        }
    }

    /// The members that the object of each file has: its name, the name of the form of these lines, and what the object is.
    pub fn of_file(alloc: Global, name: &str, kind: &str) -> Result<Members, AllocError>
        ensures { IfOk result (λ members. members_of members ≡ file_members name.now kind.now) }
    {
        let mut members = Members::new(alloc);
        members.text("file", name)?;
        members.text("format", FORMAT)?;
        members.text("kind", kind)?;
        Ok(members)
    }

    /// One more member.
    pub fn put(&mut self, key: &str, value: Value) -> Result<(), AllocError>
        ensures { OnOk result (members_of self.new ≡ with_member key.now (view value) (members_of self.old)) }
    {
        put(&mut self.map, self.alloc, key, value)?;
        Ok(())
    }

    /// One more member, which is a text.
    pub fn text(&mut self, key: &str, text: &str) -> Result<(), AllocError>
        ensures { OnOk result (members_of self.new ≡ with_member key.now (string text.now) (members_of self.old)) }
    {
        let value = Value::try_from_str(self.alloc, text)?;
        self.put(key, value)?;
        Ok(())
    }

    /// One more member, which is a number, or null.
    pub fn number(&mut self, key: &str, number: Option<u64>) -> Result<(), AllocError>
        ensures { OnOk result (members_of self.new ≡ with_member key.now (whole_or_null number) (members_of self.old)) }
    {
        match number {
            None => self.put(key, Value::Null)?,
            Some(number) => self.put(key, Value::from(number))?,
        }
        Ok(())
    }

    /// The object.
    pub fn object(self) -> Value
        ensures { view result ≡ object (members_of self) }
    {
        let Members { map, alloc: _ } = self;
        Value::from(map)
    }

    /// The object in a line, with its line feed.
    pub fn line(self) -> Result<String, AllocError>
        ensures { IfOk result (λ line. IsLine (object (members_of self)) (string_bytes line)) }
    {
        let alloc = self.alloc;
        let mut line = self.object().to_string(alloc)?;
        line.push('\n')?;
        Ok(line)
    }
}
