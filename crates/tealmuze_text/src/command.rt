// What the command line asks for.
use anyhow::{Context, Result};
use clap::{Arg, ArgAction, ArgMatches, Error};
use std::alloc::{AllocError, Global};

/// What is to be done with a protocol.
#[derive(Clone, Copy)]
pub enum Command {
    /// Its pattern is shown, with the digest and the seed.
    Pattern,
    /// A proof is made of values.
    Prove,
    /// A proof is verified.
    Verify,
    /// A proof is verified, and what each of its steps did is shown.
    Explain,
    /// Its code is printed.
    Rust,
}

/// What the command line asks for.
#[derive(Drop)]
pub struct Request<'a> {
    /// What is to be done.
    pub command: Command,
    /// The path of the protocol's file.
    pub file: &'a str,
    /// The path of the file of values or of the proof, if the command has one.
    pub second: Option<&'a str>,
    /// Whether the answer is JSON.
    pub json: bool,
    /// Whether proofs are in hexadecimal.
    pub hex: bool,
    /// Whether long cells of a table are shown whole.
    pub whole: bool,
    /// The witnesses that are carried beside the proof.
    pub carried: Vec<u64>,
}

/// Reads a command line, with the name of the program first. The error is a usage line, or the help that was asked for.
pub fn parse<'a>(alloc: Global, words: &'a [&'a str]) -> Result<ArgMatches<'a>, Error> {
    grammar(alloc)?.try_get_matches_from(words)
}

// A command as a command line has it, and what it takes.
struct Usage {
    name: &'static str,
    about: &'static str,
    words: &'static [Word],
}

// What a command takes: a file that it needs, which is set, or an option by its name.
struct Word {
    name: &'static str,
    help: &'static str,
    action: ArgAction,
    // whether it stands before or after any command
    is_global: bool,
}

const FILE: Word = Word {
    name: "FILE",
    help: "the protocol, in TOML",
    action: ArgAction::Set,
    is_global: false,
};

const VALUES: Word = Word {
    name: "VALUES",
    help: "what the steps send, in TOML",
    action: ArgAction::Set,
    is_global: false,
};

const PROOF: Word = Word {
    name: "PROOF",
    help: "the proof",
    action: ArgAction::Set,
    is_global: false,
};

const CARRIED: Word = Word {
    name: "carried",
    help: "A witness that is carried beside the proof, once for each `observe_pow`",
    action: ArgAction::Append,
    is_global: false,
};

const WHOLE: Word = Word {
    name: "whole",
    help: "Shows long cells of the table whole",
    action: ArgAction::SetTrue,
    is_global: false,
};

const JSON: Word = Word {
    name: "json",
    help: "Answers in JSON",
    action: ArgAction::SetTrue,
    is_global: true,
};

const HEX: Word = Word {
    name: "hex",
    help: "Reads and writes proofs in hexadecimal",
    action: ArgAction::SetTrue,
    is_global: true,
};

const PROGRAM: Usage = Usage {
    name: "tealmuze",
    about: "Plays the transcript of a protocol that stands in a file",
    words: &[JSON, HEX],
};

const COMMANDS: [Usage; 5] = [
    Usage {
        name: "pattern",
        about: "Shows the pattern, its digest and the seed",
        words: &[FILE],
    },
    Usage {
        name: "prove",
        about: "Makes a proof",
        words: &[FILE, VALUES],
    },
    Usage {
        name: "verify",
        about: "Verifies a proof",
        words: &[FILE, PROOF, CARRIED],
    },
    Usage {
        name: "explain",
        about: "Shows what each step of a proof read, fed and drew",
        words: &[FILE, PROOF, CARRIED, WHOLE],
    },
    Usage {
        name: "rust",
        about: "Prints the suite, the steps and the separator as code",
        words: &[FILE],
    },
];

fn grammar<'a>(alloc: Global) -> Result<clap::Command<'a>, AllocError> {
    let mut commands = Vec::new(alloc);
    for usage in &COMMANDS {
        commands.push(built(alloc, usage)?)?;
    }
    built(alloc, &PROGRAM)?
        .subcommand_required(true)
        .subcommands(commands)
}

fn built<'a>(alloc: Global, usage: &Usage) -> Result<clap::Command<'a>, AllocError> {
    let arguments = arguments(alloc, usage.words)?;
    clap::Command::new(alloc, usage.name)
        .about(usage.about)
        .args(arguments)
}

fn arguments<'a>(alloc: Global, words: &[Word]) -> Result<Vec<Arg<'a>>, AllocError> {
    let mut arguments = Vec::new(alloc);
    for word in words {
        arguments.push(argument(alloc, word))?;
    }
    Ok(arguments)
}

fn argument<'a>(alloc: Global, word: &Word) -> Arg<'a> {
    let argument = Arg::new(alloc, word.name)
        .help(word.help)
        .action(word.action)
        .global(word.is_global);
    match word.action {
        ArgAction::Set => argument.required(true),
        ArgAction::Append => argument
            .long(word.name)
            .value_parser(clap::value_parser!(u64)),
        _ => argument.long(word.name),
    }
}

/// What a command line asks for that was read.
pub fn request_of<'a>(alloc: Global, matches: &ArgMatches<'a>) -> Result<Request<'a>> {
    let (name, matches) = matches.subcommand().context("no command")?;
    let (command, second) = match name {
        "pattern" => (Command::Pattern, None),
        "prove" => (Command::Prove, matches.get_str("VALUES")),
        "verify" => (Command::Verify, matches.get_str("PROOF")),
        "rust" => (Command::Rust, None),
        _ => (Command::Explain, matches.get_str("PROOF")),
    };
    Ok(Request {
        command,
        file: matches.get_str("FILE").context("no file")?,
        second,
        json: matches.get_flag("json"),
        hex: matches.get_flag("hex"),
        whole: matches.get_flag("whole"),
        carried: carried(alloc, matches)?,
    })
}

// The witnesses that are carried beside the proof.
fn carried(alloc: Global, matches: &ArgMatches<'_>) -> Result<Vec<u64>> {
    let mut carried = Vec::new(alloc);
    if let Some(numbers) = matches.get_many::<u64>("carried") {
        for number in numbers {
            carried.push(number?)?;
        }
    }
    Ok(carried)
}
