//! A law across commands: a public function whose clause states it.
ghost use Rattle.rup_top.specs.Agreement.{RunIsEval};

/// Where files hold a model's text and the bytes that `replay` wrote for it, the outcomes of `run` on the image and of `eval`
/// on the model, with the same argument words, have the same bytes for `out`. The arguments meet the model, have at most
/// 67,108,864 bytes of arrays, and give a bound of at most 10^9.
pub fn run_is_eval()
    ensures { RunIsEval }
{}
