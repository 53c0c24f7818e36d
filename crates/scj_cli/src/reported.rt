//! What a mode over sources answers.

ghost use Rattle.std.specs.Prelude.{◌≡◌, map, string_bytes, IfOk};
ghost use Rattle.scj_base.specs.declared.statuses.Status.TheVariants.{Refused};
ghost use Rattle.scj_cli.specs.Reports.{report_text};

use crate::reports::report;
use scj_base::{Found, Status};
use std::alloc::{AllocError, Global};

/// A status, and the text on `out`.
#[derive(Drop)]
pub struct Told {
    pub status: Status,
    pub text: String,
}

/// The report on sources of these names.
pub fn refused(alloc: Global, names: &[String], found: &[Found]) -> Result<Told, AllocError>
    ensures { IfOk result
        (λ reported. (reported.status ≡ Refused) ×
        (string_bytes reported.text ≡ report_text (map string_bytes names.now) found.now)) }
{
    let text = report(alloc, names, found)?;
    Ok(Told {
        status: Status::Refused,
        text,
    })
}
