//! What a granted query comes to.
ghost use Rattle.std.specs.Prelude.{◌≡◌, IfOk};
ghost use Rattle.pdq_answer.specs.Evaluations.{IsPrintable, evaluated_text};
ghost use Rattle.pdq_serve.specs.Outcomes.{IsEndOf, IsOutcomeOf, TellsRows, how_of, ran_of};

use pdq_answer::{Evaluated as Evaluation, add_evaluated};
use pdq_base::Memory;
use pdq_office::How;
use pdq_talk::{Evaluated, Ran};
use std::alloc::Global;

/// What a granted query comes to, before it is finished.
#[derive(Drop)]
pub(crate) enum Outcome {
    Ended(Evaluated),
    /// It was stopped, for a cancellation at this step.
    Stopped(u64),
}

/// The text of an evaluation, where there is memory for it.
fn told_rows(alloc: Global, evaluation: &Evaluation) -> Evaluated
    requires printable { IsPrintable evaluation.now }
    ensures text { TellsRows (evaluated_text evaluation.now) result }
{
    let mut text = Vec::new(alloc);
    match add_evaluated(alloc, &mut text, evaluation) {
        Ok(()) => Evaluated::Rows(text),
        Err(_) => Evaluated::NoMemory,
    }
}

/// The outcome that an evaluation is.
fn end_of(alloc: Global, evaluation: &Evaluation) -> Outcome
    requires printable { IsPrintable evaluation.now }
    ensures value { IsEndOf evaluation.now result }
{
    match evaluation {
        Evaluation::Rows(_) => Outcome::Ended(told_rows(alloc, evaluation)),
        Evaluation::TooManyRows => Outcome::Ended(Evaluated::TooManyRows),
        Evaluation::StoreFailed => Outcome::Ended(Evaluated::StoreFailed),
        Evaluation::Stopped(step) => Outcome::Stopped(*step),
    }
}

/// The outcome of a run: its evaluation, or the step of the cancellation that stopped it.
pub(crate) fn outcome_of(alloc: Global, run: Result<Evaluation, Memory>) -> Outcome
    requires printable { IfOk run IsPrintable }
    ensures value { IsOutcomeOf run result }
{
    match run {
        Ok(evaluation) => end_of(alloc, &evaluation),
        Err(_) => Outcome::Ended(Evaluated::NoMemory),
    }
}

/// How a query with this outcome is finished.
pub(crate) fn how_of(outcome: &Outcome) -> How
    ensures value { result ≡ how_of outcome.now }
{
    match outcome {
        Outcome::Ended(Evaluated::Rows(_)) => How::Done,
        Outcome::Ended(_) => How::Failed,
        Outcome::Stopped(_) => How::Stopped,
    }
}

/// What an outcome is told as, with the step of its finish.
pub(crate) fn ran_of(outcome: Outcome, step: u64) -> Ran
    ensures value { result ≡ ran_of outcome step }
{
    match outcome {
        Outcome::Ended(evaluated) => Ran::Ended(evaluated, step),
        Outcome::Stopped(by) => Ran::WasStopped(step, by),
    }
}
