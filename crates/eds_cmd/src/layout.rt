//! The report on where each part of a type stands.

ghost use Rattle.std.specs.Prelude.{IfOk};
ghost use Rattle.eds_cmd.specs.Endings.{UpToLimit};
ghost use Rattle.eds_cmd.specs.Layout.{LaysOut};
ghost use Rattle.eds_cmd.specs.Target.{type_in};

use crate::limits::REPORT_OCTETS;
use crate::status::Status;
use crate::target::Target;
use eds_base::{Memory, Octets};
use eds_layout::law::layouts_tell;
use eds_layout::layout_report;
use std::alloc::Global;

/// The report on where each part of a type stands. One that is longer than a report may be isn't made whole.
pub fn laid_out(alloc: Global, target: &Target<'_>) -> Result<Octets, Memory>
    ensures { IfOk result (λ report. UpToLimit (LaysOut (type_in target.now)) Status.Done report) }
{
    target.table.keeps_rules();
    layouts_tell();
    let report = layout_report(alloc, target.table, target.id, REPORT_OCTETS as usize)?;
    Ok(report)
}
