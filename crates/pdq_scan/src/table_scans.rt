//! The lanes over the table of a step of a plan.
ghost use Rattle.std.specs.Prelude.{◌≡◌, ◌%◌, ◌<◌, ◌≤◌, ◌==◌, ◌&&◌, IfOk, filter, length, map, option_map, slice_get, slice_index_or};
ghost use Rattle.pdq_query.specs.Fits.{Fits};
ghost use Rattle.pdq_query.specs.Queries.{query_of};
ghost use Rattle.pdq_dict.specs.Dictionary.{dictionary_of};
ghost use Rattle.pdq_plan.specs.Plans.{is_read, steps_of};
ghost use Rattle.pdq_plan.specs.StepViews.{step_of};
ghost use Rattle.pdq_table.specs.Laws.{fragment_numbers};
ghost use Rattle.pdq_eval.specs.Owners.{part};
ghost use Rattle.pdq_scan.specs.Lanes.{AreFresh, IsFresh, LanesScanTheStep, all_told, coded_rows, given, given_width, lane_fragments, lane_words, number_at};
ghost use Rattle.pdq_scan.specs.Scans.{column_of, column_pick, columns_for};

use crate::FragmentScanner;
use crate::word_tests::tests_of;
use pdq_base::Memory;
use pdq_eval::Pick;
use pdq_exchange::{Lane, Scanner};
use pdq_plan::{Plan, Step};
use pdq_query::{At, Query};
use pdq_table::{Fragment, Stored};
use std::alloc::Global;

/// What the lanes of a step scan together is what the step scans, and each lane has as many rows as meet the filters in its fragments.
pub fn lanes_scan_the_step()
    ensures law { LanesScanTheStep }
{}

// The number of the table at a place in FROM.
fn number_at(query: &Query, place: u32) -> u32
    ensures { result ≡ number_at (query_of query.now) place }
{
    match query.tables.get(place as usize) {
        Some(number) => *number,
        None => 0,
    }
}

// The column of a kept word.
fn column_of(kept: &[At], pick: Pick) -> Pick
    ensures { result ≡ column_pick kept.now pick }
{
    match pick {
        Pick::Word(place) => match kept.get(place as usize) {
            Some(at) => Pick::Word(at.column),
            None => Pick::Zero,
        },
        Pick::Zero => Pick::Zero,
    }
}

// The columns of the words that a step keeps.
fn columns_kept(alloc: Global, kept: &[At]) -> Result<Vec<Pick>, Memory>
    ensures { IfOk result (λ columns. columns.items ≡ map (λ at. Pick.Word at.column) kept.now) }
{
    let Ok(columns) = kept.iter().map(|at| Pick::Word(at.column)).collect(alloc) else {
        return Err(Memory);
    };
    Ok(columns)
}

// The columns of what is picked of the words that a step keeps.
fn columns_picked(alloc: Global, kept: &[At], picks: &[Pick]) -> Result<Vec<Pick>, Memory>
    ensures { IfOk result (λ columns. columns.items ≡ map (column_pick kept.now) picks.now) }
{
    let Ok(columns) = picks
        .iter()
        .map(|pick| column_of(kept, *pick))
        .collect(alloc)
    else {
        return Err(Memory);
    };
    Ok(columns)
}

// Either of these.
fn columns_for(alloc: Global, kept: &[At], picks: Option<&[Pick]>) -> Result<Vec<Pick>, Memory>
    ensures { IfOk result (λ columns. columns.items ≡ columns_for kept.now (option_map (λ p. p.now) picks.entry)) }
{
    match picks {
        None => columns_kept(alloc, kept),
        Some(picks) => columns_picked(alloc, kept, picks),
    }
}

// Whether a lane reads a fragment.
fn is_own(plan: &Plan, place: u32, scans: u32, number: u32, fragment: u32) -> bool
    requires scans { 1 ≤ scans }
    ensures own { result ≡ ((fragment % scans == number) && is_read plan.now.left place fragment) }
{
    fragment % scans == number && plan.reads(place, fragment)
}

// The fragments of a table that one lane reads.
fn fragments_for<'a>(
    alloc: Global,
    stored: &'a Stored,
    table: u32,
    plan: &Plan,
    place: u32,
    scans: u32,
    number: u32,
) -> Result<Vec<&'a Fragment>, Memory>
    requires table { table < length stored.now.schema.shapes }
    requires scans { 1 ≤ scans }
    ensures { IfOk result (λ fragments. map (λ f. f.now.rows) fragments.items ≡ map (coded_rows stored.now table) (filter (is_read plan.now.left place) (part (λ f. f % scans) number (fragment_numbers stored.now table)))) }
{
    let mut fragments = Vec::new(alloc);
    let count = stored.schema().fragments(table);
    for fragment in 0..count {
        if is_own(plan, place, scans, number, fragment) {
            let Ok(()) = fragments.push(stored.fragment(table, fragment)) else {
                return Err(Memory);
            };
        }
    }
    Ok(fragments)
}

// A scanner of the fragments that one lane reads.
fn scanner_for<'a>(
    alloc: Global,
    stored: &'a Stored,
    plan: &Plan,
    step: &Step,
    scans: u32,
    number: u32,
    picks: Option<&[Pick]>,
) -> Result<FragmentScanner<'a>, Memory>
    requires fits { Fits stored.now.schema.shapes plan.now.query }
    requires scans { 1 ≤ scans }
    ensures left { IfOk result (λ s. ⟦<FragmentScanner<'a> as Scanner>⟧.left s ≡ all_told (given (option_map (λ p. p.now) picks.entry) (lane_words stored.now plan.now (step_of step.now) scans number))) }
    ensures width { IfOk result (λ s. ⟦<FragmentScanner<'a> as Scanner>⟧.width s ≡ given_width (option_map (λ p. p.now) picks.entry) (length (step_of step.now).kept)) }
{
    let place = step.place();
    let table = number_at(plan.query(), place);
    let fragments = fragments_for(alloc, stored, table, plan, place, scans, number)?;
    let tests = tests_of(alloc, stored.dict(), step.filters())?;
    let columns = columns_for(alloc, step.kept(), picks)?;
    let scanner = FragmentScanner::new(alloc, fragments, tests, columns)?;
    Ok(scanner)
}

// One lane.
fn lane_for<'a>(
    alloc: Global,
    stored: &'a Stored,
    plan: &Plan,
    step: &Step,
    scans: u32,
    number: u32,
    picks: Option<&[Pick]>,
    width: u32,
) -> Result<Lane<FragmentScanner<'a>>, Memory>
    requires fits { Fits stored.now.schema.shapes plan.now.query }
    requires scans { 1 ≤ scans }
    requires width { width ≡ given_width (option_map (λ p. p.now) picks) (length (step_of step.now).kept) }
    requires low { 1 ≤ width }
    requires high { width ≤ 511 }
    ensures { IfOk result (λ lane. IsFresh ⟦<FragmentScanner<'a> as Scanner>⟧.left ⟦<FragmentScanner<'a> as Scanner>⟧.width width (all_told (given (option_map (λ p. p.now) picks.entry) (lane_words stored.now plan.now (step_of step.now) scans number))) lane) }
{
    let scanner = scanner_for(alloc, stored, plan, step, scans, number, picks)?;
    match Lane::new(alloc, scanner, width) {
        Ok(lane) => Ok(lane),
        Err(_) => Err(Memory),
    }
}

/// So many lanes over the table of a step. Each reads, of the fragments that the plan keeps, those whose place modulo the lanes is its own number, and
/// gives the words that the step keeps of the rows that meet its filters, or what is picked of those words.
///
/// # Errors
/// `Memory` where it is wanting.
pub fn table_lanes<'a>(
    alloc: Global,
    stored: &'a Stored,
    plan: &Plan,
    step: &Step,
    scans: u32,
    picks: Option<&[Pick]>,
) -> Result<Vec<Lane<FragmentScanner<'a>>>, Memory>
    requires fits { Fits stored.now.schema.shapes plan.now.query }
    requires scans { 1 ≤ scans }
    requires low { 1 ≤ given_width (option_map (λ p. p.now) picks) (length (step_of step.now).kept) }
    requires high { given_width (option_map (λ p. p.now) picks) (length (step_of step.now).kept) ≤ 511 }
    ensures lanes { IfOk result (λ lanes. AreFresh ⟦<FragmentScanner<'a> as Scanner>⟧.left ⟦<FragmentScanner<'a> as Scanner>⟧.width (given_width (option_map (λ p. p.now) picks.entry) (length (step_of step.now).kept)) scans (λ i. all_told (given (option_map (λ p. p.now) picks.entry) (lane_words stored.now plan.now (step_of step.now) scans i))) lanes.items) }
{
    let width = match picks {
        None => step.kept().len() as u32,
        Some(picks) => picks.len() as u32,
    };
    let mut lanes = Vec::new(alloc);
    for number in 0..scans {
        let lane = lane_for(alloc, stored, plan, step, scans, number, picks, width)?;
        let Ok(()) = lanes.push(lane) else {
            return Err(Memory);
        };
    }
    Ok(lanes)
}
