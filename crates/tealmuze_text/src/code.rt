// A protocol as code: its suite, its steps and its separator.
use crate::entry::Entry;
use crate::imports::Imports;
use crate::line::OneLine;
use crate::numbers::bytes;
use crate::step_code::StepWriter;
use crate::suite_code::SuiteCode;
use anyhow::Result;
use std::alloc::{AllocError, Global};
use toml::Value;

/// The code of a file's protocol, which the suite plays: a file of Rust with contracts.
pub fn code(alloc: Global, suite: SuiteCode, file: Entry<'_>) -> Result<String> {
    let body = body(alloc, suite, file)?;
    let (text, code) = (file.text("name")?, body.as_str());
    Ok(format!(in alloc;
        "//! The protocol `{}`, as `tealmuze rust` prints it.\n\n{}{code}",
        OneLine { text },
        Imports { code }
    )?)
}

// What stands below the imports.
fn body(alloc: Global, suite: SuiteCode, file: Entry<'_>) -> Result<String> {
    let mut text = String::new(alloc);
    write_suite(&mut text, suite)?;
    write_types(&mut text, suite)?;
    StepWriter { alloc, suite }.write_steps(&mut text, file)?;
    write_separator(alloc, &mut text, file)?;
    Ok(text)
}

// ---- the suite

const HEAD: &str = "
/// The types that play the protocol.
#[derive(Clone, Copy, Debug)]
pub struct Protocol;

impl Suite for Protocol {
";

fn write_suite(text: &mut String, suite: SuiteCode) -> Result<(), AllocError> {
    let ghosts = suite.ghosts();
    write!(text, "{HEAD}{}\n", ghosts.uses)?;
    write_members(text, suite)?;
    write!(
        text,
        "    ghost is_own = {{ λ {} }};\n\n{}",
        ghosts.own, ghosts.others
    )
}

fn write_members(text: &mut String, suite: SuiteCode) -> Result<(), AllocError> {
    let members = [
        ("Field", suite.field.name()),
        ("Extension", suite.field.extension()),
        ("Unit", suite.alphabet()),
        ("Opaque", suite.opaque()),
        ("Challenger", "Challenger"),
        ("Codec", suite.codec()),
        ("Accept", "AcceptAll"),
        ("Digest", suite.digest()),
        ("Group", suite.group()),
    ];
    for (name, value) in &members {
        writeln!(text, "    type {name} = {value};\n")?;
    }
    Ok(())
}

// The types of the challenger and of separators, and what both sides begin with.
fn write_types(text: &mut String, suite: SuiteCode) -> Result<(), AllocError> {
    let (challenger, new) = (suite.challenger_type(), suite.new_challenger());
    let (alphabet, digest) = (suite.alphabet(), suite.digest());
    write!(
        text,
        "
/// The challenger.
pub type Challenger = {challenger};

/// What binds a transcript to the protocol.
pub type Separator = DomainSeparator<{alphabet}, {digest}>;

/// What both sides begin with: a challenger that observed nothing.
{new}
"
    )
}

// ---- the separator

const SEPARATOR: &str =
    "/// The version and the name of the protocol, the pattern of its steps, and the instance.
pub fn separator<S: Suite>(
    alloc: Global,
    steps: &[Step<S>],
) -> Result<DomainSeparator<S::Unit, S::Digest>, TranscriptError> {
    let pattern = script::pattern::<S>(alloc, steps)?;
";

fn write_separator(alloc: Global, text: &mut String, file: Entry<'_>) -> Result<()> {
    let (version, name) = (file.number("version")?, file.text("name")?);
    let chunks = file.list_or_none("instance")?;
    if chunks.is_empty() {
        return Ok(write!(
            text,
            "{SEPARATOR}    DomainSeparator::new(alloc, {version}, {name:?}.as_bytes(), pattern)\n}}\n"
        )?);
    }
    writeln!(
        text,
        "{SEPARATOR}    let mut separator = DomainSeparator::new(alloc, {version}, {name:?}.as_bytes(), pattern)?;"
    )?;
    write_instance(alloc, text, chunks)
}

fn write_instance(alloc: Global, text: &mut String, chunks: &[Value]) -> Result<()> {
    for chunk in chunks {
        let chunk = bytes(alloc, chunk)?;
        writeln!(text, "    separator.instance(&{chunk:?})?;")?;
    }
    Ok(text.push_str("    Ok(separator)\n}\n")?)
}
