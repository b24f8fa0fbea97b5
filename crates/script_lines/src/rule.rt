// The rules of draws that may be rejected, as a file names them.
use anyhow::Result;
use p3_challenger::fs::script::AcceptRule;
use p3_field::{F257, PrimeCharacteristicRing, PrimeField64};

/// Which candidates are kept.
#[derive(Clone, Copy, Debug)]
pub enum Rule {
    /// `distinct`: those that are not among the ones kept before.
    Distinct,
    /// A number: those of at least this number.
    AtLeast(u64),
}

impl Rule {
    /// Reads a rule.
    pub fn parse(token: &str) -> Result<Rule> {
        match token {
            "distinct" => Ok(Rule::Distinct),
            _ => Ok(Rule::AtLeast(token.parse()?)),
        }
    }
}

impl AcceptRule<F257> for Rule {
    ghost use Rattle.script_lines.specs.Rules.{takes};

    ghost rule = { takes ⟦<F257 as PartialEq>⟧.eq ⟦<F257 as PrimeCharacteristicRing>⟧.residues.number };

    fn accepts(&self, candidate: &F257, kept: &[F257]) -> bool {
        match self {
            Rule::Distinct => !kept.contains(candidate),
            Rule::AtLeast(least) => candidate.as_canonical_u64() >= *least,
        }
    }
}

impl AcceptRule<usize> for Rule {
    ghost use Rattle.script_lines.specs.Rules.{takes};

    ghost rule = { takes ⟦<usize as PartialEq>⟧.eq (λ n. n) };

    fn accepts(&self, candidate: &usize, kept: &[usize]) -> bool {
        match self {
            Rule::Distinct => !kept.contains(candidate),
            Rule::AtLeast(least) => *candidate as u64 >= *least,
        }
    }
}
