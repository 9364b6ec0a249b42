// Where in lists of runs an id or a pre is sought.
ghost use Rattle.std.specs.Prelude.{◌-◌, ◌^◌, length};
ghost use Rattle.id_map.specs.Changes.{IsIdPlace, IsPrePlace};
ghost use Rattle.id_map.specs.Spans.{AreApart, AreLaid, ids_of};

use crate::span::Span;

/// How many runs, in order of id, begin at an id or before it.
pub(crate) fn runs_up_to(runs: &[Span], id: u32) -> usize
    requires { AreApart 0 runs.now (2 ^ 32 - 1) }
    ensures { IsIdPlace runs.now id result }
{
    runs.partition_point(|run| run.first_id <= id)
}

/// How many runs, in order of pre, begin before a pre.
pub(crate) fn runs_before(runs: &[Span], pre: u32) -> usize
    requires { AreLaid 0 runs.now (length (ids_of runs.now)) }
    ensures { IsPrePlace runs.now pre result }
{
    runs.partition_point(|run| run.pre < pre)
}
