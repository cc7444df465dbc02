ghost use Rattle.std.specs.Prelude.{◌≡◌, ◌≤◌, ◌<◌, length, IfSome};
ghost use Rattle.catnap_words.specs.Words.{bench_of, file_count, form_by, form_of, names_of, run_object_of, run_of, steps_of, texts, with_files, with_forecast};

use crate::form::Form;
use crate::number::number;

/// The greatest count of steps that `run` and `runobject` may be asked for.
const MOST_STEPS: u32 = 1_000_000;

/// The greatest size that `bench` may be asked for.
const MOST_SIZE: u32 = 1_665;

fn with_files(form: Form, count: usize) -> Option<Form>
    ensures form { result ≡ with_files form count }
    ensures enough { IfSome result (λ form. file_count form ≤ count) }
{
    if count == form.files() {
        Some(form)
    } else {
        None
    }
}

/// A form, or the one with a forecast behind its files.
fn with_forecast(form: Form, other: Form, count: usize) -> Option<Form>
    ensures form { result ≡ with_forecast form other count }
    ensures enough { IfSome result (λ form. file_count form ≤ count) }
{
    if count == form.files() {
        Some(form)
    } else {
        with_files(other, count)
    }
}

/// The steps behind the word of a file.
fn steps_of(behind: &[String]) -> Option<u32>
    ensures steps { result ≡ steps_of (texts behind.now) }
    ensures enough { IfSome result (λ _. 1 ≤ length behind.now) }
{
    let [_, steps] = behind else {
        return None;
    };
    number(steps.as_str(), 7, MOST_STEPS)
}

fn run_of(behind: &[String]) -> Option<Form>
    ensures form { result ≡ run_of (texts behind.now) }
    ensures enough { IfSome result (λ form. file_count form ≤ length behind.now) }
{
    let steps = steps_of(behind)?;
    Some(Form::Run { steps })
}

fn run_object_of(behind: &[String]) -> Option<Form>
    ensures form { result ≡ run_object_of (texts behind.now) }
    ensures enough { IfSome result (λ form. file_count form ≤ length behind.now) }
{
    let steps = steps_of(behind)?;
    Some(Form::RunObject { steps })
}

fn bench_of(behind: &[String]) -> Option<Form>
    ensures form { result ≡ bench_of (texts behind.now) }
    ensures enough { IfSome result (λ form. file_count form ≤ length behind.now) }
{
    let [size] = behind else {
        return None;
    };
    let size = number(size.as_str(), 4, MOST_SIZE)?;
    Some(Form::Bench { size })
}

fn form_by(command: &str, behind: &[String]) -> Option<Form>
    ensures form { result ≡ form_by command.now (texts behind.now) }
    ensures enough { IfSome result (λ form. file_count form ≤ length behind.now) }
{
    let count = behind.len();
    if command == "run" {
        return run_of(behind);
    }
    if command == "list" {
        return with_files(Form::List, count);
    }
    if command == "check" {
        return with_forecast(Form::Check, Form::CheckForecast, count);
    }
    if command == "plan" {
        return with_files(Form::Plan, count);
    }
    if command == "replay" {
        return with_forecast(Form::Replay, Form::ReplayForecast, count);
    }
    if command == "image" {
        return with_files(Form::Image, count);
    }
    if command == "resume" {
        return with_files(Form::Resume, count);
    }
    if command == "uplink" {
        return with_files(Form::Uplink, count);
    }
    if command == "object" {
        return with_files(Form::Object, count);
    }
    if command == "runobject" {
        return run_object_of(behind);
    }
    if command == "bench" {
        return bench_of(behind);
    }
    None
}

/// What the words ask for, where they are of a form.
pub fn form_in(words: &[String]) -> Option<Form>
    ensures form { result ≡ form_of (texts words.now) }
    ensures enough { IfSome result (λ form. file_count form < length words.now) }
{
    let [command, behind @ ..] = words else {
        return None;
    };
    form_by(command.as_str(), behind)
}

/// The words that name files.
pub fn names_in<'a>(words: &'a [String], form: &Form) -> &'a [String]
    requires { file_count form.now < length words.now }
    ensures names { texts result.now ≡ names_of form.now (texts words.now) }
    ensures count { length result.now ≡ file_count form.now }
{
    let (_, behind) = words.split_at(1);
    let (names, _) = behind.split_at(form.files());
    names
}
