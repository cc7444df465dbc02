//! What a report shows: laws of the definitions, with no code.

ghost use Rattle.catnap_top.specs.Headline.{ReplaysShowRuns, ResumesShowRuns};

use cat_resolve::checked_law;
use cn_runtime::{plans_are_planned, plans_are_set_up, steady_law};
use degradation::choices_suit;
use event_arrivals::{arrivals_are_counted, told_arrivals_are_sound};
use forecast_table::told_forecasts_are_sound;
use image_meaning::images_stand_for_one;
use lawful_timeline::{lawful_timelines_hold, starts_belong};
use logged_runs::{agrees_with_one, own_runs_handle_arrivals};
use nv_log::records_are_read_again;
use nv_memory::layouts_are_numbers;
use resumed_runs::fit_images_begin;
use timely_commits::{fresh_runs_are_on_time, resumed_runs_are_on_time};

/// The report of every replay that ends shows one run of the program that never loses power, in which each arrival that comes and is due in
/// a calm stretch is met.
pub fn replays_show_runs()
    ensures { ReplaysShowRuns }
{
    checked_law();
    told_arrivals_are_sound();
    choices_suit();
    plans_are_set_up();
    plans_are_planned();
    steady_law();
    told_forecasts_are_sound();
    agrees_with_one();
    images_stand_for_one();
    fresh_runs_are_on_time();
    starts_belong();
    lawful_timelines_hold();
    records_are_read_again();
    arrivals_are_counted();
    own_runs_handle_arrivals();
}

/// So does the report of every life that goes on from a saved image and ends. What the image has committed is an earlier moment of that run.
pub fn resumes_show_runs()
    ensures { ResumesShowRuns }
{
    checked_law();
    told_arrivals_are_sound();
    choices_suit();
    plans_are_set_up();
    plans_are_planned();
    steady_law();
    told_forecasts_are_sound();
    agrees_with_one();
    images_stand_for_one();
    resumed_runs_are_on_time();
    layouts_are_numbers();
    fit_images_begin();
    starts_belong();
    lawful_timelines_hold();
    records_are_read_again();
    arrivals_are_counted();
    own_runs_handle_arrivals();
}
