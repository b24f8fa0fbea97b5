// Answers as JSON.
use anyhow::Result;
use serde::Serialize;
use std::alloc::Global;

/// What is shown as JSON.
pub trait ToJson {
    /// It as JSON.
    fn json(&self, alloc: Global) -> Result<String>;
}

/// An object of JSON, member by member. It keeps the first error until it is closed.
#[derive(Drop)]
pub struct Object {
    alloc: Global,
    members: Result<String>,
}

impl Object {
    /// An object without members.
    pub fn new(alloc: Global) -> Object {
        Object {
            alloc,
            members: Ok(String::new(alloc)),
        }
    }

    /// The object with this member too.
    pub fn member<T: Serialize>(self, name: &str, value: &T) -> Object {
        let alloc = self.alloc;
        self.shown(name, of_value(alloc, value))
    }

    /// The object with a member too whose value is JSON already.
    pub fn shown(self, name: &str, value: Result<String>) -> Object {
        Object {
            alloc: self.alloc,
            members: with_member(self.members, name, value),
        }
    }

    /// The object, as JSON.
    pub fn close(self) -> Result<String> {
        let members = self.members?;
        Ok(format!(in self.alloc; "{{{members}}}")?)
    }
}

fn of_value<T: Serialize>(alloc: Global, value: &T) -> Result<String> {
    Ok(serde_json::to_string(alloc, value)?)
}

fn with_member(members: Result<String>, name: &str, value: Result<String>) -> Result<String> {
    let mut members = members?;
    let value = value?;
    let before = if members.is_empty() { "" } else { ", " };
    write!(members, "{before}\"{name}\": {value}")?;
    Ok(members)
}

/// A value as JSON, or `null`.
pub fn optional<T: ToJson>(alloc: Global, value: &Option<T>) -> Result<String> {
    match value {
        Some(value) => value.json(alloc),
        None => Ok(String::from_str(alloc, "null")?),
    }
}

/// A list of JSON.
pub fn list<T: ToJson>(alloc: Global, values: &[T]) -> Result<String> {
    let mut text = String::new(alloc);
    for value in values {
        let before = if text.is_empty() { "" } else { ", " };
        let value = value.json(alloc)?;
        write!(text, "{before}{value}")?;
    }
    Ok(format!(in alloc; "[{text}]")?)
}
