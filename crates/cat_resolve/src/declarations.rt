//! What the items of a source declare.

ghost use Rattle.std.specs.Prelude.{◌≡◌, ◌+◌, ◌≤◌, ℕ, true, false, List, [], ◌∷◌, ◌++◌, length, replicate, pos, OnOk, IfOk};
ghost use Rattle.cat_resolve.specs.Header as spec;
ghost use Rattle.cat_resolve.specs.Header.{IsSmall, HasFewVersions};
ghost use Rattle.cat_resolve.specs.Declaring.{Declares};
ghost use Rattle.cat_resolve.specs.Names.{names_of, words_of, tasks_of, events_of, Gives};
ghost use Rattle.cat_resolve.specs.declared.names.Meaning.TheVariants as TheMeaning;
ghost use Rattle.cat_resolve.specs.Meanings.{meanings};

use crate::names::{Meaning, Names};
use cat_program::{Event, Timing, Variable};
use cn_base::Text;
use cn_base::tree::{self, Item};
use std::alloc::{AllocError, Global};

/// What is declared so far: the variables and their first words, the names of the tasks, the events, and what each name stands for.
#[derive(Drop)]
pub struct Declarations {
    pub variables: Vec<Variable>,
    pub words: Vec<i32>,
    pub tasks: Vec<Text>,
    pub events: Vec<Event>,
    pub names: Names,
}

fn copy(alloc: Global, text: &Text) -> Result<Text, AllocError>
    ensures { IfOk result (λ t. t ≡ text.now) }
{
    Ok(Text::of(String::from_str(alloc, text.as_str())?))
}

fn first_value(is_negative: bool, number: u32) -> i32
    ensures { result ≡ spec.first_value is_negative number }
{
    let value = number.cast_signed();
    if is_negative {
        value.wrapping_neg()
    } else {
        value
    }
}

fn timing(timing: tree::Timing) -> Timing
    ensures { result ≡ spec.timing_of timing }
{
    match timing {
        tree::Timing::Every(period, offset) => Timing::Every { period, offset },
        tree::Timing::Spacing(least) => Timing::Spacing { least },
    }
}

/// A plain variable with its first value.
fn plain(
    alloc: Global,
    declared: &mut Declarations,
    name: &Text,
    value: i32,
) -> Result<(), AllocError>
    requires { length declared.old.words.items + 1 ≤ 1024 }
    ensures words { OnOk result (declared.new.words.items ≡ declared.old.words.items ++ value ∷ []) }
    ensures variables { OnOk result (declared.new.variables.items ≡ declared.old.variables.items ++ spec.variable name.now (length declared.old.words.items) 1 false ∷ []) }
    ensures tasks { OnOk result (declared.new.tasks.items ≡ declared.old.tasks.items) }
    ensures events { OnOk result (declared.new.events.items ≡ declared.old.events.items) }
    ensures names { OnOk result (Gives (meanings declared.old.names) (meanings declared.new.names) name.now (TheMeaning.Word (length declared.old.words.items))) }
{
    let base = declared.words.len() as u16;
    declared
        .names
        .give(alloc, name.as_str(), Meaning::Word(base))?;
    declared.variables.push(Variable {
        name: copy(alloc, name)?,
        base,
        len: 1,
        array: false,
    })?;
    declared.words.push(value)?;
    Ok(())
}

/// An array, all of whose words are 0 at first.
fn array(
    alloc: Global,
    declared: &mut Declarations,
    name: &Text,
    len: u32,
) -> Result<(), AllocError>
    requires { length declared.old.words.items + len ≤ 1024 }
    ensures words { OnOk result (declared.new.words.items ≡ declared.old.words.items ++ replicate len (pos 0)) }
    ensures variables { OnOk result (declared.new.variables.items ≡ declared.old.variables.items ++ spec.variable name.now (length declared.old.words.items) len true ∷ []) }
    ensures tasks { OnOk result (declared.new.tasks.items ≡ declared.old.tasks.items) }
    ensures events { OnOk result (declared.new.events.items ≡ declared.old.events.items) }
    ensures names { OnOk result (Gives (meanings declared.old.names) (meanings declared.new.names) name.now (TheMeaning.Array (length declared.old.words.items) len)) }
{
    let base = declared.words.len() as u16;
    let len = len as u16;
    declared
        .names
        .give(alloc, name.as_str(), Meaning::Array { base, len })?;
    declared.variables.push(Variable {
        name: copy(alloc, name)?,
        base,
        len,
        array: true,
    })?;
    zeros(&mut declared.words, len)
}

fn zeros(words: &mut Vec<i32>, count: u16) -> Result<(), AllocError>
    ensures { OnOk result (words.new.items ≡ words.old.items ++ replicate count (pos 0)) }
{
    let end = words.len() + usize::from(count);
    words.resize(end, 0)
}

fn task(alloc: Global, declared: &mut Declarations, name: &Text) -> Result<(), AllocError>
    requires { length declared.old.tasks.items + 1 ≤ 16 }
    ensures words { OnOk result (declared.new.words.items ≡ declared.old.words.items) }
    ensures variables { OnOk result (declared.new.variables.items ≡ declared.old.variables.items) }
    ensures tasks { OnOk result (declared.new.tasks.items ≡ declared.old.tasks.items ++ name.now ∷ []) }
    ensures events { OnOk result (declared.new.events.items ≡ declared.old.events.items) }
    ensures names { OnOk result (Gives (meanings declared.old.names) (meanings declared.new.names) name.now (TheMeaning.Task (length declared.old.tasks.items))) }
{
    let number = declared.tasks.len() as u8;
    declared
        .names
        .give(alloc, name.as_str(), Meaning::Task(number))?;
    declared.tasks.push(copy(alloc, name)?)?;
    Ok(())
}

fn event(
    alloc: Global,
    declared: &mut Declarations,
    name: &Text,
    when: tree::Timing,
    deadline: u32,
    versions: u8,
) -> Result<(), AllocError>
    requires { length declared.old.events.items + 1 ≤ 16 }
    ensures words { OnOk result (declared.new.words.items ≡ declared.old.words.items) }
    ensures variables { OnOk result (declared.new.variables.items ≡ declared.old.variables.items) }
    ensures tasks { OnOk result (declared.new.tasks.items ≡ declared.old.tasks.items) }
    ensures events { OnOk result (declared.new.events.items ≡ declared.old.events.items ++ spec.event name.now when deadline versions ∷ []) }
    ensures names { OnOk result (Gives (meanings declared.old.names) (meanings declared.new.names) name.now (TheMeaning.Event (length declared.old.events.items))) }
{
    let number = declared.events.len() as u8;
    declared
        .names
        .give(alloc, name.as_str(), Meaning::Event(number))?;
    declared.events.push(Event {
        name: copy(alloc, name)?,
        timing: timing(when),
        deadline,
        versions,
    })?;
    Ok(())
}

fn item(alloc: Global, declared: &mut Declarations, item: &Item) -> Result<(), AllocError>
    requires words { length declared.old.words.items + words_of item.now ≤ 1024 }
    requires tasks { length declared.old.tasks.items + tasks_of item.now ≤ 16 }
    requires events { length declared.old.events.items + events_of item.now ≤ 16 }
    requires versions { HasFewVersions item.now }
    ensures { OnOk result (Declares declared.old declared.new item.now) }
{
    match item {
        Item::Int(name, is_negative, number) => plain(
            alloc,
            declared,
            name,
            first_value(*is_negative, *number),
        ),
        Item::Bool(name, truth) => plain(alloc, declared, name, i32::from(*truth)),
        Item::Array(name, len) => array(alloc, declared, name, *len),
        Item::Task(name, _) => task(alloc, declared, name),
        Item::Event(name, when, deadline, versions) => event(
            alloc,
            declared,
            name,
            *when,
            *deadline,
            versions.len() as u8,
        ),
        Item::Degrade(_) | Item::Start(_) => Ok(()),
    }
}

/// What the items declare.
pub fn declare_all(alloc: Global, items: &[Item]) -> Result<Declarations, AllocError>
    requires { IsSmall items.now }
    ensures words { IfOk result (λ d. d.words.items ≡ spec.words_in items.now) }
    ensures variables { IfOk result (λ d. d.variables.items ≡ spec.variables_in 0 items.now) }
    ensures tasks { IfOk result (λ d. d.tasks.items ≡ spec.tasks_in items.now) }
    ensures events { IfOk result (λ d. d.events.items ≡ spec.events_in items.now) }
    ensures names { IfOk result (λ d. (y : List ℕ) → meanings d.names y ≡ names_of items.now y) }
{
    let mut declared = Declarations {
        variables: Vec::new(alloc),
        words: Vec::new(alloc),
        tasks: Vec::new(alloc),
        events: Vec::new(alloc),
        names: Names::new(alloc),
    };
    for one in items {
        item(alloc, &mut declared, one)?;
    }
    Ok(declared)
}
