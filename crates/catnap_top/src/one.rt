//! What words and files call for is one answer: laws of the definitions, with no code.

ghost use Rattle.std.specs.Prelude.{◌≡◌, ℕ, List};
ghost use Rattle.catnap_top.specs.Alike.{Agree, AreSameFiles, IsSameProgram};
ghost use Rattle.cat_program.specs.Checked.{Checked};
ghost use Rattle.nv_memory.specs.declared.device.Device.{Device};
ghost use Rattle.catnap_top.specs.Accepted.{ImagesAreAccepted};
ghost use Rattle.catnap_top.specs.OneLife.{LivesAreOne};
ghost use Rattle.catnap_top.specs.OneRest.{RestsAreOne};
ghost use Rattle.catnap_top.specs.Resume.{IsImage};
ghost use Rattle.catnap_top.specs.RunObject.{IsObject};
ghost use Rattle.catnap_top.specs.declared.files.ReplayFiles.{ReplayFiles as TheFiles};
ghost use Rattle.degradation.specs.declared.chosen.Chosen.{Chosen as Choice};
ghost use Rattle.catnap_words.specs.declared.form.Form.{Form as TheForm};
ghost use Rattle.catnap_top.specs.Answer.{Answer};
ghost use Rattle.catnap_top.specs.Files.{IsSource, IsProfile};
ghost use Rattle.catnap_top.specs.Plan.{Plans};
ghost use Rattle.catnap_top.specs.Served.{Serves};
ghost use Rattle.forecast_table.specs.declared.epoch.Epoch.{Epoch as Row};
ghost use Rattle.catnap_top.specs.Reply.{CallsFor};

use board_core::rules_decide;
use cat_places::one_starts;
use cat_resolve::checked_law;
use cat_syntax::one_tree;
use cat_tokens::one_lexing;
use cn_object::{one_object_law, one_verdict_law};
use cn_plan::one_plan_law;
use cn_resume::one_verdict;
use cn_runtime::{plans_are_planned, plans_are_set_up, steady_law};
use cn_uplink::one_uplink_text;
use degradation::choices_suit;
use device_profile::one_device_law;
use event_arrivals::told_arrivals_are_sound;
use forecast_choice::one_rows_law;
use forecast_table::told_forecasts_are_sound;
use lawful_timeline::starts_belong;
use nv_memory::layouts_are_numbers;
use one_timeline::timelines_end_alike;
use recovery::first_image_is_one;
use resumed_runs::{fit_images_begin, saved_images_fit};
use same_program::{same_code_law, same_program_law, same_steps_law};
use same_runs::same_images_law;

/// A source stands for programs that say the same, or is refused for one kind at one byte.
fn one_source()
    ensures { (source : List ℕ) → Agree IsSameProgram (IsSource source) (IsSource source) }
{
    one_lexing();
    one_tree();
    one_starts();
    checked_law();
    same_program_law();
}

/// A profile tells one device, or is refused for one kind.
fn one_profile()
    ensures { (bytes : List ℕ) → Agree (λ d e. d ≡ e) (IsProfile bytes) (IsProfile bytes) }
{
    one_device_law();
}

/// Programs that say the same are served on a device by the same versions for each row of a forecast, or not for one row and one reason.
fn one_choice()
    ensures { (p q : Checked) (d : Device) (rows : List Row) → IsSameProgram p q → Agree (λ x y. x ≡ y) (Serves p d rows) (Serves q d rows) }
{
    one_rows_law();
}

/// Programs that say the same have one plan on a device, or none for one reason.
fn one_plan()
    ensures { (p q : Checked) (d : Device) → IsSameProgram p q → Agree (λ x y. x ≡ y) (Plans p d) (Plans q d) }
{
    one_plan_law();
}

/// Bytes are the file of one object whose code can be run, or break one rule at one place.
fn one_object()
    ensures { (bytes : List ℕ) → Agree (λ o p. o ≡ p) (IsObject bytes) (IsObject bytes) }
{
    one_object_law();
    one_verdict_law();
}

/// Bytes are a saved image of files that tell the same, with one start, or fail one condition with one number.
fn one_image()
    ensures { (x y : TheFiles) (chosen : List Choice) (bytes : List ℕ) → AreSameFiles x y → Agree (λ s t. s ≡ t) (IsImage x chosen bytes) (IsImage y chosen bytes) }
{
    layouts_are_numbers();
    one_verdict();
    same_images_law();
}

/// Where bytes tell the files of a replay, and the device can serve the events in some versions, the life that follows is one.
pub fn lives_are_one()
    ensures { LivesAreOne }
{
    checked_law();
    told_arrivals_are_sound();
    choices_suit();
    plans_are_set_up();
    plans_are_planned();
    steady_law();
    told_forecasts_are_sound();
    layouts_are_numbers();
    first_image_is_one();
    rules_decide();
    starts_belong();
    timelines_end_alike();
}

/// So is the life that goes on from a saved image of theirs.
pub fn rests_are_one()
    ensures { RestsAreOne }
{
    checked_law();
    told_arrivals_are_sound();
    choices_suit();
    plans_are_set_up();
    plans_are_planned();
    steady_law();
    told_forecasts_are_sound();
    layouts_are_numbers();
    first_image_is_one();
    rules_decide();
    starts_belong();
    timelines_end_alike();
    fit_images_begin();
}

/// What a form of words calls for over the bytes of its files is one answer: two implementations that both give what is called
/// for give the same.
pub fn one_answer()
    ensures { (form : TheForm) (files : List (List ℕ)) (a b : Answer) → CallsFor form files a → CallsFor form files b → a ≡ b }
{
    one_source();
    one_profile();
    one_choice();
    one_plan();
    one_object();
    one_image();
    lives_are_one();
    rests_are_one();
    same_steps_law();
    same_code_law();
    one_uplink_text();
}

/// What a life leaves, as `image` writes it, is a saved image from which the device of the same files can go on.
pub fn images_are_accepted()
    ensures { ImagesAreAccepted }
{
    checked_law();
    told_arrivals_are_sound();
    choices_suit();
    plans_are_set_up();
    plans_are_planned();
    steady_law();
    told_forecasts_are_sound();
    layouts_are_numbers();
    saved_images_fit();
}
