//! What a fit file stands for, and that a run leaves one: laws alone.
#![tactic(auto)]

ghost use Rattle.resumed_runs.specs.Files.{FitImagesBegin, SavedImagesFit};

use lawful_timeline::{ends_hold, starts_belong};
use logged_runs::agrees_with_one;
use nv_log::records_are_read_again;

/// From a file that is fit for a program, its arrivals, its device and a life, a run of their plan can go on.
pub fn fit_images_begin()
    ensures { FitImagesBegin }
{
    agrees_with_one();
    records_are_read_again();
}

/// The file of a board on which a run has ended is fit for the same program, arrivals, device and life, whether the run began with the
/// first image or with a file that was fit.
pub fn saved_images_fit()
    ensures { SavedImagesFit }
{
    agrees_with_one();
    records_are_read_again();
    starts_belong();
    ends_hold();
}
