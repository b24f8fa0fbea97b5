// How much a protocol may have.
use anyhow::{Result, bail};

/// How many steps there are at most.
pub const MOST_STEPS: usize = 131_072;

/// How many containers are open at once at most.
pub const MOST_OPEN: usize = 64;

/// How many values a step draws at most.
pub const MOST_DRAWS: usize = 65_536;

/// Refuses one step more, where there are so many already.
pub fn check_count(steps: usize) -> Result<()> {
    if steps >= MOST_STEPS {
        bail!("more than {MOST_STEPS} steps");
    }
    Ok(())
}
