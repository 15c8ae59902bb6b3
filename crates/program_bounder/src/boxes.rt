//! The search for a program's worst inputs.

ghost use Rattle.std.specs.Prelude.{◌≡◌, ◌≤◌, IfOk, IfErr};
ghost use Rattle.std.specs.List.{All};
ghost use Rattle.alf_check.specs.CheckedPrograms.{seen};
ghost use Rattle.alf_check.specs.Inputs.{KeepInputs};
ghost use Rattle.domain_core.specs.Outlines.{shape_of};
ghost use Rattle.domain_core.specs.OutlineOf.{IsOutlineOf};
ghost use Rattle.flow_graph.specs.Numbering.{IsGraph};
ghost use Rattle.scope_graph.specs.Placing.{plan_of};
ghost use Rattle.program_machines.specs.NodeCosts.{HasCosts};
ghost use Rattle.program_analysis.specs.AnalysisLaws.{names_of};
ghost use Rattle.program_analysis.specs.Bounds.{most_turns};
ghost use Rattle.worst_inputs.specs.Areas.{IsRange};
ghost use Rattle.worst_inputs.specs.Searches.{found_of, IsSearched, IsFaultOf};
ghost use Rattle.worst_inputs.specs.Promises.{Bounds};
ghost use Rattle.program_bounder.specs.InputRows.{ranges_of};
ghost use Rattle.program_bounder.specs.PathBounding.{given_program, Suits, path_bounding, HasOneSearch};

use crate::PathBounder;
use crate::rows::ranges_of;
use alf_runs::a_run_has_one_end;
use program_analysis::{
    a_program_has_one_bounded_analysis, an_input_alone_is_told_exactly,
    bounds_of_an_input_alone_agree, found_reports_are_right,
};
use std::alloc::Global;
use worst_inputs::{Found, SearchFault, a_search_has_one_answer, search};

// The ranges of the rows suit the bounder.
fn own_ranges_suit(bounder: &PathBounder)
    requires graph { IsGraph (seen bounder.now.checked) bounder.now.graph }
    requires rows { KeepInputs (seen bounder.now.checked) bounder.now.rows.items }
    requires outline { IsOutlineOf (plan_of bounder.now.graph) (shape_of bounder.now.outline) }
    requires named { names_of bounder.now.outline ≡ bounder.now.graph.names }
    requires costs { HasCosts (given_program bounder.now) bounder.now.graph bounder.now.costs bounder.now.outline }
    requires turns { bounder.now.turns ≤ most_turns }
    ensures suits { Suits bounder.now (ranges_of bounder.now.rows.items) }
    ensures ranges { All IsRange (ranges_of bounder.now.rows.items) }
{
    found_reports_are_right();
    a_program_has_one_bounded_analysis();
    an_input_alone_is_told_exactly();
    bounds_of_an_input_alone_agree();
    a_run_has_one_end();
    bounder.checked.keeps();
    bounder.outline.kept();
}

// A search from them has one answer.
fn own_search_is_one(bounder: &PathBounder)
    requires suits { Suits bounder.now (ranges_of bounder.now.rows.items) }
    requires ranges { All IsRange (ranges_of bounder.now.rows.items) }
    ensures { HasOneSearch bounder.now }
{
    a_search_has_one_answer(bounder);
}

/// Boxes of inputs inside the ranges of the rows, each with the path bound of the analysis of its ranges.
///
/// They are found as `search` of `worst_inputs` finds them, after so many splits at most. `Left` names the scope in
/// which places are left when the turns are used up, of the first box that is left. Takes the time of at most
/// 2 * splits + 1 analyses, and their memory one after the other.
pub fn worst_boxes(
    alloc: Global,
    bounder: &mut PathBounder,
    splits: u32,
) -> Result<Found, SearchFault>
    requires graph { IsGraph (seen bounder.old.checked) bounder.old.graph }
    requires rows { KeepInputs (seen bounder.old.checked) bounder.old.rows.items }
    requires outline { IsOutlineOf (plan_of bounder.old.graph) (shape_of bounder.old.outline) }
    requires named { names_of bounder.old.outline ≡ bounder.old.graph.names }
    requires costs { HasCosts (given_program bounder.old) bounder.old.graph bounder.old.costs bounder.old.outline }
    requires turns { bounder.old.turns ≤ most_turns }

    // The boxes where splitting ends, and whether one of greatest bound has one input alone.
    ensures found { IfOk result (λ found. IsSearched (path_bounding bounder.old).answers
        (ranges_of bounder.old.rows.items) splits (found_of found)) }

    // They cover the ranges; each run with an input inside a box costs at most its bound; and where the greatest bound
    // is exact, it is the greatest cost of a run.
    ensures bounds { IfOk result (λ found. Bounds (path_bounding bounder.old).costs
        (ranges_of bounder.old.rows.items) (found_of found)) }

    // The first box that is left.
    ensures fault { IfErr result (IsFaultOf (path_bounding bounder.old).answers
        (ranges_of bounder.old.rows.items) splits) }

    // There is one such list of boxes, or one scope.
    ensures one { HasOneSearch bounder.old }

    ensures unchanged { bounder.new ≡ bounder.old }
{
    own_ranges_suit(bounder);
    own_search_is_one(bounder);
    let rows = bounder.rows.as_slice();
    let ranges = ranges_of(alloc, rows)?;
    search(alloc, bounder, &ranges, splits)
}
