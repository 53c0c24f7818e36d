//! What is told of sources.

ghost use Rattle.std.specs.Prelude.{◌≡◌, ◌∷◌, [], IfOk};
ghost use Rattle.scj_rules.specs.CheckedProgram.{IsReadFromTexts};
ghost use Rattle.scj_check.specs.Texts.{texts_of};
ghost use Rattle.scj_check.specs.Verdicts.{IsVerdict, IsVerdictOn};

use crate::parse_outcomes::{ParseOutcome, read};
use crate::phases::{Judgement, judge};
use crate::sources::Sources;
use scj_base::{Found, Memory};
use scj_rules::Checked;
use scj_tree::Program;
use std::alloc::Global;
use std::marker::Model;

/// The breaks that are told of sources: those of one phase, by file, line, column and rule, each once.
#[derive(Drop)]
pub struct Report {
    found: Vec<Found>,
}

impl Model for Report {
    ghost use Rattle.std.specs.Prelude.{List};
    ghost use Rattle.scj_base.specs.declared.findings.Found.{Found as Finding};

    ghost Value = { List Finding };

    ghost view = { λ a. a.found.items };
}

impl Report {
    /// The breaks, in their order.
    pub fn items(&self) -> &[Found]
        ensures { result.now ≡ self.now }
    {
        self.found.as_slice()
    }
}

/// What is told of sources.
#[derive(Drop)]
pub enum Verdict {
    /// They break no rule: their program, with what its nodes stand for.
    Accepted(Checked),
    /// They break rules.
    Refused(Report),
}

/// Checks sources by all phases: lexemes, grammar, classes with limits, types, scopes, annotations with uses. The first
/// phase with a break gives the report; of lexemes and grammar that is the first break of the earliest file that has
/// one, of the others all.
///
/// # Errors
///
/// `Memory` may come at any sources.
pub fn check(alloc: Global, sources: &Sources) -> Result<Verdict, Memory>
    ensures { IfOk result (λ verdict. IsVerdict (texts_of sources.now) verdict) }
{
    match read(alloc, sources)? {
        ParseOutcome::Read(program) => Ok(check_program(alloc, program)?),
        ParseOutcome::Broken(found) => Ok(Verdict::Refused(report_of_one(alloc, found)?)),
    }
}

fn report_of_one(alloc: Global, found: Found) -> Result<Report, Memory>
    ensures { IfOk result (λ report. report ≡ found ∷ []) }
{
    let mut all = Vec::new(alloc);
    all.push(found)?;
    Ok(Report { found: all })
}

// The verdict on a program that was read.
fn check_program(alloc: Global, program: Program) -> Result<Verdict, Memory>
    requires { IsReadFromTexts program }
    ensures { IfOk result (λ verdict. IsVerdictOn program verdict) }
{
    match judge(alloc, &program)? {
        Judgement::Broken(found) => Ok(Verdict::Refused(Report { found })),
        Judgement::Right(bindings) => Ok(Verdict::Accepted(Checked::seal(program, bindings))),
    }
}
