//! The text of a whole pattern, and its digest.
ghost use Rattle.std.specs.{Prelude.{◌≡◌, ◌↔◌, ◌<◌, ◌^◌, List, Some, map, length, IfOk, IfErr, string_bytes}, Fmt.decimal};
ghost use Rattle.std.specs.List.{repeat};
ghost use Rattle.p3_fs_core.specs.{Steps.{Step, plain_text}, Interactions.step_of};
ghost use Rattle.p3_fs_core.specs.declared.error.TranscriptError.TheVariants.{OutOfMemory};
ghost use Rattle.p3_patterns.specs.{PatternSteps.steps_of, Rendering.{SameButTypeNames, AllFitTypes}};
ghost use Rattle.p3_patterns.specs.Rendering.{depth_after, indentation, text_of, line, rendering, hashed_text};

use crate::InteractionPattern;
use p3_fs_core::{Alternate, Hierarchy, Interaction, TranscriptError};
use p3_symmetric::DigestHasher;
use std::fmt;

impl fmt::Display for InteractionPattern {
    ghost output = { λ pattern. Some (rendering plain_text (steps_of pattern)) };

    // The alternate form, `{:#}`, is the one that is hashed.
    fn fmt<W: fmt::Write>(&self, f: &mut fmt::Formatter<W>) -> fmt::Result {
        let rendering = Rendering {
            steps: self.interactions(),
            alternate: f.alternate(),
        };
        write!(f, "{rendering}")
    }
}

impl InteractionPattern {
    /// Returns the text of the pattern that is hashed, as `{:#}` prints it. Below a header with the number of steps
    /// each step has a line. The line has the step's position, with as many digits as the last one, two spaces for
    /// each enclosing container, and the step's alternate text. That text has the tag of the type, and not its name.
    ///
    /// The one error is [`TranscriptError::OutOfMemory`]. The pattern stays as it is. Not in the Rust crate, where
    /// only `{:#}` prints this text.
    pub fn alternate(&self) -> Result<String, TranscriptError>
        ensures ok { IfOk result (λ text. string_bytes text ≡ hashed_text self.now.steps) }
        ensures err { IfErr result (λ e. e ≡ OutOfMemory) }
    {
        let rendering = Rendering {
            steps: self.interactions(),
            alternate: true,
        };
        Ok(rendering.to_string(self.allocator())?)
    }

    /// Returns the digest of the pattern's alternate text, 32 bytes.
    ///
    /// Two patterns have the same text exactly where their steps are the same except for the names of their types.
    /// Where the texts differ, the digests differ too, unless `D` maps both texts to one digest.
    ///
    /// The one error is [`TranscriptError::OutOfMemory`], where memory for the text is refused. The pattern stays as
    /// it is. In the Rust crate the hash function is Keccak-256, and there is no error.
    pub fn pattern_hash<D: DigestHasher>(&self) -> Result<[u8; 32], TranscriptError>
        ensures digest { IfOk result (λ digest. digest ≡ D.digest_of (hashed_text self.now.steps)) }
        ensures err { IfErr result (λ e. e ≡ OutOfMemory) }
        ensures fits { AllFitTypes (steps_of self.now) × (length (steps_of self.now) < 2 ^ 64) }
        // What is hashed tells this pattern from every other, but for the names of types.
        ensures injective { (other : InteractionPattern) → hashed_text self.now.steps ≡ hashed_text other.steps
            ↔ SameButTypeNames (steps_of self.now) (steps_of other) }
    {
        let text = self.alternate()?;
        Ok(D::digest(text.as_bytes()))
    }
}

/// Two lists of steps have one alternate rendering exactly if they are the same except for the names of their types.
/// This holds whatever bytes their labels have. For patterns this holds with no condition.
///
/// A law: the body is empty, and a caller cites a clause.
#[tactic(auto, using(crate::specs::RenderingLaws::rendering_injective))]
pub fn equal_renderings_are_equal_patterns()
    ensures steps { (x y : List Step) → AllFitTypes x → AllFitTypes y → length x < 2 ^ 64 →
        length y < 2 ^ 64 → (hashed_text x ≡ hashed_text y ↔ SameButTypeNames x y) }
    ensures patterns { (x y : InteractionPattern) →
        (hashed_text x.steps ≡ hashed_text y.steps ↔ SameButTypeNames x.steps y.steps) }
{}

// Steps that print below a header, a line each.
#[derive(Clone, Copy)]
struct Rendering<'a> {
    steps: &'a [Interaction],
    alternate: bool,
}

impl fmt::Display for Rendering<'_> {
    ghost output = { λ all. Some (rendering (text_of all.alternate) (map step_of all.steps.now)) };

    fn fmt<W: fmt::Write>(&self, f: &mut fmt::Formatter<W>) -> fmt::Result {
        let count = self.steps.len();
        let digits = decimal_digits(count.saturating_sub(1));
        writeln!(f, "Plonky3 Fiat-Shamir Transcript ({count} interactions)")?;
        let mut depth: usize = 0;
        for (position, step) in self.steps.iter().enumerate() {
            let line = Line {
                digits,
                position,
                indentation: indentation(step.hierarchy(), depth),
                step,
                alternate: self.alternate,
            };
            write!(f, "{line}")?;
            depth = depth_after(step.hierarchy(), depth);
        }
        Ok(())
    }
}

// How far a step is indented, where so many containers are open: a closer stands where its opener does.
fn indentation(hierarchy: Hierarchy, depth: usize) -> usize
    ensures { result ≡ indentation hierarchy depth }
{
    match hierarchy {
        Hierarchy::Atomic | Hierarchy::Begin => depth,
        Hierarchy::End => depth.saturating_sub(1),
    }
}

// How many containers are open after a step, where so many are open before it.
fn depth_after(hierarchy: Hierarchy, depth: usize) -> usize
    requires { depth < usize.MAX }
    ensures { result ≡ depth_after hierarchy depth }
{
    match hierarchy {
        Hierarchy::Atomic => depth,
        Hierarchy::Begin => depth + 1,
        Hierarchy::End => depth.saturating_sub(1),
    }
}

// How many digits a number has.
fn decimal_digits(n: usize) -> usize
    ensures { result ≡ length (decimal n) }
{
    let mut digits: usize = 1;
    let mut rest = n;
    while rest >= 10 {
        rest /= 10;
        digits += 1;
    }
    digits
}

// A step that prints as a line: after its position, which has so many digits or more, and so far indented.
#[derive(Clone, Copy)]
struct Line<'a> {
    digits: usize,
    position: usize,
    indentation: usize,
    step: &'a Interaction,
    alternate: bool,
}

impl fmt::Display for Line<'_> {
    ghost output = { λ all. Some (line (text_of all.alternate) all.digits all.position
        all.indentation (step_of all.step.now)) };

    fn fmt<W: fmt::Write>(&self, f: &mut fmt::Formatter<W>) -> fmt::Result {
        let zeros = Repeated(
            "0",
            self.digits.saturating_sub(decimal_digits(self.position)),
        );
        let spaces = Repeated("  ", self.indentation);
        write!(f, "{zeros}{} {spaces}", self.position)?;
        if self.alternate {
            writeln!(f, "{}", Alternate(self.step))
        } else {
            writeln!(f, "{}", self.step)
        }
    }
}

// A text that prints so many times.
#[derive(Clone, Copy)]
struct Repeated(&'static str, usize);

impl fmt::Display for Repeated {
    ghost output = { λ repeated. Some (repeat repeated.1 repeated.0.now) };

    fn fmt<W: fmt::Write>(&self, f: &mut fmt::Formatter<W>) -> fmt::Result {
        f.write_repeated(self.0, self.1)
    }
}
