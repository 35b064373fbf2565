//! How a bench runs the lines of its script, over and over.

use crate::points::BenchKind;
use bench_report::Setting;
use script_lang::Line;

/// Plain lines of a script, and how a bench runs them.
#[derive(Drop)]
pub struct Runner<'a, C> {
    pub setting: Setting<'a, C>,
    pub bench: BenchKind,
    pub lines: &'a [Line],
}
