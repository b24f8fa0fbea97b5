// How long an operation takes.
use anyhow::Result;
use std::time::Instant;

/// How long a run took, how many operations it was, and what it left.
#[derive(Clone, Copy)]
pub struct Lap {
    pub nanoseconds: f64,
    pub operations: u32,
    /// Something of what was left, so that no part of it can be left out.
    pub left: u64,
}

/// What can be timed on a subject.
pub trait Timed<S> {
    /// One run.
    fn lap(&self, rt: &HostRuntime, subject: &S) -> Result<Lap>;
}

/// A row: its name, and what is timed.
pub struct Row<K> {
    pub name: &'static str,
    pub timed: K,
}

/// The least time of an operation in several runs, and the sum of what they left.
#[derive(Clone, Copy)]
pub struct Shortest {
    each: f64,
    sum: u64,
}

impl Shortest {
    pub fn new() -> Self {
        Self {
            each: f64::INFINITY,
            sum: 0,
        }
    }

    pub fn take(&mut self, lap: Lap) {
        self.sum = self.sum.wrapping_add(lap.left);
        let each = lap.nanoseconds / f64::from(lap.operations);
        if each < self.each {
            self.each = each;
        }
    }

    /// Prints the row of this name, and gives the sum of what the runs left.
    pub fn print(&self, rt: &HostRuntime, name: &str, place: &str) -> Result<u64> {
        println!(rt; "{name}{place}: {:.2}", self.each)?;
        Ok(self.sum)
    }
}

/// Prints how many nanoseconds an operation of each row takes, the least of several runs, and gives the sum of what they
/// leave. It is shown at the end, so that nothing of what makes it can be left out. `place` ends each name.
pub fn measure<S, K: Timed<S>>(
    rt: &HostRuntime,
    runs: u32,
    subject: &S,
    place: &str,
    rows: &[Row<K>],
) -> Result<u64> {
    let mut sum = 0u64;
    for row in rows {
        let mut shortest = Shortest::new();
        for _ in 0..runs {
            shortest.take(row.timed.lap(rt, subject)?);
        }
        sum = sum.wrapping_add(shortest.print(rt, row.name, place)?);
    }
    Ok(sum)
}

/// How many nanoseconds passed since then.
pub fn nanoseconds_since(rt: &HostRuntime, start: Instant) -> Result<f64> {
    Ok(start.elapsed(rt)?.as_secs_f64() * 1e9)
}
