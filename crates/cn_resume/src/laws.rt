//! What is said of a file is one thing.

ghost use Rattle.std.specs.Prelude.{◌≡◌, ℕ, List};
ghost use Rattle.cn_resume.specs.declared.fault.ImageFault.{ImageFault as Fault};
ghost use Rattle.cn_resume.specs.declared.fault.ImageFault.TheVariants as fault;
ghost use Rattle.cn_resume.specs.declared.fault.ImageKind.{ImageKind as Kind};
ghost use Rattle.cn_resume.specs.Fit.{IsFirstFault, IsFit, IsRefused, Purpose};

use reference_run::one_reference;

/// A file is fit or has a first fault, and never both, and it has one first fault at most.
pub fn one_verdict()
    ensures fit { (p : Purpose) (file : List ℕ) (kind : Kind) (at : ℕ) → IsFit p file → IsFirstFault p file kind at → ⊥ }
    ensures fault { (p : Purpose) (file : List ℕ) (k j : Kind) (at by : ℕ) → IsFirstFault p file k at → IsFirstFault p file j by → (k ≡ j) × (at ≡ by) }
{
    one_reference();
}

/// A fit file is refused for want of memory alone.
pub fn fit_files_are_accepted()
    ensures { (p : Purpose) (file : List ℕ) (why : Fault) → IsFit p file → IsRefused p file why → why ≡ fault.NoMemory }
{
    one_verdict();
}
