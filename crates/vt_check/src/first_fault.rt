//! The fault of one call.

ghost use Rattle.std.specs.Prelude.{IfOk};
ghost use Rattle.vt_check.specs.private.Judging.{JudgesCall, site_of};

use crate::conditions::{
    has_bad_option, has_wrong_block, has_wrong_params, is_miscounted, is_misnamed, is_misplaced,
    is_no_method, is_taken,
};
use crate::context::Context;
use crate::fault::CheckKind;
use crate::paths::has_refused_path;
use std::alloc::Global;
use vt_frac::NoMemory;
use vt_table::call_of;
use vt_tree::Call;

/// The first of the checks, in their order, that the call does not pass, if there is one.
pub(crate) fn fault_of(
    alloc: Global,
    call: &Call,
    context: Context,
) -> Result<Option<CheckKind>, NoMemory>
    ensures { IfOk result (JudgesCall (site_of context call.now)) }
{
    let row = call_of(call.name.as_bytes());
    if is_misplaced(call, context) {
        return Ok(Some(CheckKind::DefinePlace));
    }
    if is_misnamed(call, context) {
        return Ok(Some(CheckKind::Name));
    }
    if is_taken(call, context) {
        return Ok(Some(CheckKind::Taken));
    }
    if is_no_method(call, context, row) {
        return Ok(Some(CheckKind::Method));
    }
    if is_miscounted(call, context, row) {
        return Ok(Some(CheckKind::Count));
    }
    if has_bad_option(call, context, row) {
        return Ok(Some(CheckKind::Opt));
    }
    if has_wrong_block(call, context, row) {
        return Ok(Some(CheckKind::Block));
    }
    if has_wrong_params(call, context) {
        return Ok(Some(CheckKind::Params));
    }
    if has_refused_path(alloc, call, context)? {
        return Ok(Some(CheckKind::Path));
    }
    Ok(None)
}
