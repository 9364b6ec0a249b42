// Lists of runs about a change.
ghost use Rattle.std.specs.Prelude.{◌≡◌, ◌+◌, ◌<◌, ◌≤◌, ◌^◌, All, length, IfOk, OnOk};
ghost use Rattle.id_map.specs.Changes.{Fits, back_of, backs_put, changed_by_id, changed_by_pre, front_of, fronts_put, joins, moved_run, parts_put, put_run};
ghost use Rattle.id_map.specs.Spans.{AreLaid, ids_of};

use crate::places::runs_before;
use crate::span::Span;
use frame_pool::NoMemory;
use std::alloc::Global;

// Whether the ids and pres of a run go on where those of another end.
fn goes_on(run: Span, next: Span) -> bool
    ensures { result ≡ joins run next }
{
    run.first_id as u64 + run.n as u64 == next.first_id as u64
        && run.pre as u64 + run.n as u64 == next.pre as u64
}

// Puts a run behind others: as one with the last where it goes on there, and not at all where it has no ids.
fn put(runs: &mut Vec<Span>, run: Span) -> Result<(), NoMemory>
    requires fits { run.first_id + run.n < 2 ^ 32 }
    ensures { OnOk result (runs.new.items ≡ put_run runs.old.items run) }
{
    if run.n == 0 {
        return Ok(());
    }
    let len = runs.len();
    if len > 0 && goes_on(runs[len - 1], run) {
        runs[len - 1].n += run.n;
        return Ok(());
    }
    runs.push(run)?;
    Ok(())
}

// The part of a run below a pre number.
fn front(run: Span, at: u32) -> Span
    ensures { result ≡ front_of at run }
{
    Span {
        first_id: run.first_id,
        pre: run.pre,
        n: run.n.min(at.saturating_sub(run.pre)),
    }
}

// The part of a run from a pre number on, moved to where that number becomes another.
fn back(run: Span, from: u32, to: u32) -> Span
    requires fits { Fits from to run }
    ensures { result ≡ back_of from to run }
{
    let skipped = run.n.min(from.saturating_sub(run.pre));
    Span {
        first_id: run.first_id + skipped,
        pre: to + run.pre.saturating_sub(from),
        n: run.n - skipped,
    }
}

// A run that is moved where it begins at a pre number or behind it.
fn moved(run: Span, from: u32, to: u32) -> Span
    requires { Fits from to run }
    ensures { result ≡ moved_run from to run }
{
    let pre = if run.pre >= from {
        to + (run.pre - from)
    } else {
        run.pre
    };
    Span {
        first_id: run.first_id,
        pre,
        n: run.n,
    }
}

// Puts the parts of runs below a pre number.
fn put_fronts(out: &mut Vec<Span>, runs: &[Span], at: u32) -> Result<(), NoMemory>
    requires fit { All (λ s. s.first_id + s.n < 2 ^ 32) runs.now }
    ensures { OnOk result (out.new.items ≡ fronts_put at out.old.items runs.now) }
{
    for run in runs {
        put(out, front(*run, at))?;
    }
    Ok(())
}

// Puts the parts of runs from a pre number on, moved.
fn put_backs(out: &mut Vec<Span>, runs: &[Span], from: u32, to: u32) -> Result<(), NoMemory>
    requires fit { All (Fits from to) runs.now }
    ensures { OnOk result (out.new.items ≡ backs_put from to out.old.items runs.now) }
{
    for run in runs {
        put(out, back(*run, from, to))?;
    }
    Ok(())
}

// Puts both parts of a run, of which one is empty where the change leaves the run whole.
fn put_both(out: &mut Vec<Span>, run: Span, at: u32, from: u32, to: u32) -> Result<(), NoMemory>
    requires order { at ≤ from }
    requires fits { Fits from to run }
    ensures { OnOk result (out.new.items ≡ put_run (put_run out.old.items (front_of at run)) (back_of from to run)) }
{
    let is_before = run.pre as u64 + run.n as u64 <= at as u64;
    if is_before | (run.pre >= from) {
        return put(out, moved(run, from, to));
    }
    put(out, front(run, at))?;
    put(out, back(run, from, to))
}

// Puts both parts of each run.
fn put_parts(
    out: &mut Vec<Span>,
    runs: &[Span],
    at: u32,
    from: u32,
    to: u32,
) -> Result<(), NoMemory>
    requires order { at ≤ from }
    requires fit { All (Fits from to) runs.now }
    ensures { OnOk result (out.new.items ≡ parts_put at from to out.old.items runs.now) }
{
    for run in runs {
        put_both(out, *run, at, from, to)?;
    }
    Ok(())
}

// The runs in order of pre, where a run takes the place of the ids from its pre up to another.
pub(crate) fn by_pre_changed(
    runs: &[Span],
    run: Span,
    from: u32,
    alloc: Global,
) -> Result<Vec<Span>, NoMemory>
    requires laid { AreLaid 0 runs.now (length (ids_of runs.now)) }
    requires order { run.pre ≤ from }
    requires within { from ≤ length (ids_of runs.now) }
    requires fit { All (Fits from (run.pre + run.n)) runs.now }
    requires fits { run.first_id + run.n < 2 ^ 32 }
    requires to_fits { run.pre + run.n < 2 ^ 32 }
    ensures { IfOk result (λ made. made.items ≡ changed_by_pre run from runs.now) }
{
    let end = runs_before(runs, run.pre);
    let mut made = Vec::with_capacity(alloc, runs.len() + 2)?;
    put_fronts(&mut made, &runs[..end], run.pre)?;
    put(&mut made, run)?;
    put_backs(
        &mut made,
        &runs[end.saturating_sub(1)..],
        from,
        run.pre + run.n,
    )?;
    Ok(made)
}

// The runs in order of id, where a run takes the place of the ids from its pre up to another and stands behind so many.
pub(crate) fn by_id_changed(
    runs: &[Span],
    place: usize,
    run: Span,
    from: u32,
    alloc: Global,
) -> Result<Vec<Span>, NoMemory>
    requires place { place ≤ length runs.now }
    requires order { run.pre ≤ from }
    requires fit { All (Fits from (run.pre + run.n)) runs.now }
    requires fits { run.first_id + run.n < 2 ^ 32 }
    requires to_fits { run.pre + run.n < 2 ^ 32 }
    ensures { IfOk result (λ made. made.items ≡ changed_by_id place run from runs.now) }
{
    let (before, behind) = runs.split_at(place);
    let to = run.pre + run.n;
    let mut made = Vec::with_capacity(alloc, runs.len() + 2)?;
    put_parts(&mut made, before, run.pre, from, to)?;
    put(&mut made, run)?;
    put_parts(&mut made, behind, run.pre, from, to)?;
    Ok(made)
}
