//! The checker: it takes a log line by line.

ghost use Rattle.std.specs.Prelude.{◌≡◌, ◌<◌, ◌^◌, suc, true, false, Some, None, Err, IfOk, IfErr};
ghost use Rattle.hol_logs.specs.Position.{start_position};
ghost use Rattle.replay_check.specs.declared.checker.FeedError.{FeedError};
ghost use Rattle.replay_check.specs.declared.checker.FinishError.TheVariants.{Cut};
ghost use Rattle.replay_check.specs.Checked.{IsFed, IsFeedError};

use crate::position::Position;
use crate::why::{Verdict, Why};
use std::alloc::{AllocError, Global};
use std::marker::Model;
use thiserror::Error;

/// Why a line was not taken.
#[derive(Clone, Copy, Debug, Error)]
pub enum FeedError {
    /// The line of that number, counted from 1, is bad.
    #[error("line {number} of the log is bad")]
    BadLine { number: u64, why: Why },
    /// Memory was refused.
    #[error("out of memory")]
    Memory,
}

/// Why a log is bad though each of its lines is good.
#[derive(Clone, Copy, Debug, Error)]
pub enum FinishError {
    /// It ends before a last line. The number, counted from 1, is that of the line that would be next.
    #[error("the log ends before its line {number}")]
    Cut { number: u64 },
}

/// The lines of a log that were good so far, and the first failure. After it nothing is taken any more.
#[derive(Drop)]
pub struct Checker {
    position: Position,
    failure: Option<FeedError>,
}

impl Model for Checker {
    ghost use Rattle.std.specs.Prelude.{◌≡◌, ◌≤◌, ◌^◌, None};
    ghost use Rattle.replay_check.specs.Positions.{IsPosition, log_position};
    ghost use Rattle.replay_check.specs.Checked.{CheckerState, checker_code};

    ghost Value = { CheckerState };

    ghost coded = { checker_code };

    ghost view = { λ c. record { position = log_position c.position; failure = c.failure } };

    ghost invariant = { λ c. c.failure ≡ None → IsPosition c.position × (c.position.lines ≤ 2 ^ 62) };
}

impl Checker {
    /// The checker before the first line.
    pub fn new(alloc: Global) -> Result<Checker, AllocError>
        ensures { IfOk result (λ c. c ≡ record { position = start_position; failure = None }) }
    {
        let position = Position::start(alloc)?;
        Ok(Checker {
            position,
            failure: None,
        })
    }

    /// Takes one line without its newline, and gives the line of the report that it prints, if it prints one. A bad line is told by its
    /// number, counted from 1, and the first of the causes that hold of it; `Memory` is told where memory was refused. After a failure
    /// each further call tells it again, and nothing changes.
    pub fn feed(&mut self, alloc: Global, line: &[u8]) -> Result<Option<String>, FeedError>
        requires few { self.old.position.lines < 2 ^ 62 }
        ensures good { self.old.failure ≡ None → IfOk result (λ r. IsFed self.old self.new line.now r) }
        ensures bad { self.old.failure ≡ None → IfErr result (λ e. IsFeedError self.old line.now e) }
        ensures failed { IfErr result (λ e. self.new.failure ≡ Some e) }
        ensures again { (e : FeedError) → self.old.failure ≡ Some e → (result ≡ Err e) × (self.new ≡ self.old) }
    {
        if let Some(failure) = self.failure {
            return Err(failure);
        }
        let number = self.position.lines + 1;
        let failure = match self.position.take(alloc, line) {
            Ok(Verdict::Good(report)) => return Ok(report),
            Ok(Verdict::Bad(why)) => FeedError::BadLine { number, why },
            Err(AllocError) => FeedError::Memory,
        };
        self.failure = Some(failure);
        Err(failure)
    }

    /// The number of the lines, where the last of them is a last line, and `Cut` where not.
    pub fn finish(self) -> Result<u64, FinishError>
        requires good { self.failure ≡ None }
        ensures ended { IfOk result (λ n. (self.position.is_over ≡ true) × (n ≡ self.position.lines)) }
        ensures cut { IfErr result (λ e. (self.position.is_over ≡ false) × (e ≡ Cut (suc self.position.lines))) }
    {
        if self.position.is_over {
            Ok(self.position.lines)
        } else {
            Err(FinishError::Cut {
                number: self.position.lines + 1,
            })
        }
    }
}
