// A table of a file, of which each error names the key.
use crate::limits::MOST_DRAWS;
use crate::numbers::{items, number};
use anyhow::{Context, Result, bail};
use std::alloc::Global;
use toml::{Table, Value};

// What the reader of TOML says before the line and the column of an error.
const PARSE_ERROR: &str = "TOML parse error at ";

/// The table that a text in TOML says. Where it says none, the error has the line and the column.
pub fn parse_table(alloc: Global, text: &str) -> Result<Table> {
    match toml::table_from_str(alloc, text) {
        Ok(table) => Ok(table),
        Err(error) => refuse(format!(in alloc; "{error}")?.as_str()),
    }
}

// Refuses a text of which the reader of TOML says this: the place on a line, and what is wrong below it.
fn refuse(told: &str) -> Result<Table> {
    match told.trim_end().split_once('\n') {
        Some((place, what)) => bail!("{}: {what}", place.trim_start_matches(PARSE_ERROR)),
        None => bail!("{told}"),
    }
}

/// A table of a file.
#[derive(Clone, Copy)]
pub struct Entry<'a> {
    table: &'a Table,
}

impl<'a> Entry<'a> {
    /// The table itself.
    pub fn new(table: &'a Table) -> Entry<'a> {
        Entry { table }
    }

    /// The table that a value is.
    pub fn of(value: &'a Value) -> Result<Entry<'a>> {
        Ok(Entry {
            table: value.as_table().context("expected a table")?,
        })
    }

    /// Whether something stands at the key.
    pub fn has(&self, key: &'static str) -> bool {
        self.table.get(key).is_some()
    }

    /// What stands at the key.
    pub fn value(&self, key: &'static str) -> Result<&'a Value> {
        self.table.get(key).context("missing").context(key)
    }

    /// The text at the key.
    pub fn text(&self, key: &'static str) -> Result<&'a str> {
        self.value(key)?
            .as_str()
            .context("expected a text")
            .context(key)
    }

    /// The number at the key.
    pub fn number(&self, key: &'static str) -> Result<u64> {
        number(self.value(key)?).context(key)
    }

    /// The count at the key.
    pub fn count(&self, key: &'static str) -> Result<usize> {
        usize::try_from(self.number(key)?)
            .context("expected a count")
            .context(key)
    }

    /// How many values a step draws.
    pub fn draws(&self) -> Result<usize> {
        let n = self.count("n")?;
        if n > MOST_DRAWS {
            bail!("n: more than {MOST_DRAWS}");
        }
        Ok(n)
    }

    /// The list at the key.
    pub fn list(&self, key: &'static str) -> Result<&'a [Value]> {
        items(self.value(key)?).context(key)
    }

    /// The list at the key, or none where nothing is.
    pub fn list_or_none(&self, key: &'static str) -> Result<&'a [Value]> {
        match self.table.get(key) {
            Some(value) => items(value).context(key),
            None => Ok(&[]),
        }
    }

    /// Refuses the table where it has a key that is none of these.
    pub fn only(&self, keys: &[&str]) -> Result<()> {
        for key in self.table.keys() {
            if !(&*keys).contains(&key.as_str()) {
                bail!("unknown key `{key}`");
            }
        }
        Ok(())
    }
}
